//! What a value behind the lock does in a turn, as a trait.
ghost use Rattle.std.specs.Prelude.{◌≡◌, ◌≢◌, ◌≤◌, ℕ, List, ◌++◌, ◌∷◌, []};
ghost use Rattle.nl_tree.specs.Replay.{Answers};
ghost use Rattle.nl_turns.specs.History.{Opening, opening_counts};
ghost use Rattle.nl_tree.specs.Causes.{fault_sum, FaultIsDue, FaultRose, LostHasCause, NeverFall};
ghost use Rattle.nl_turns.specs.Served.{stage_entry, effect_entry, duty_entry, StandsForSome, StandsForSomeWithLine, FromEachWithLine, place_due, ordinal_due, outcome_due, FaultHasCause, is_fault, is_staged, KeepsStagedFaults, NoMoreToStage, StagesLess, StaysReadOnly};
ghost use Rattle.nl_turns.specs.declared.entry.Entry.{Entry as TurnEntry};

use crate::kept::Kept;
use nl_tree::{Answered, Call, Duty, DutyAnswer, ReplyBuf, Stage};

/// A value that serves the lines of its opening: where it stands for an opening and a history, each turn leaves a value that stands
/// for them with one entry added. What is said of two entries at once (no two lines share the number of an EIO) is a matter of
/// `stands`: the clauses here are of one call.
pub trait Served: Kept {
    ghost use Rattle.std.specs.Prelude.{ℕ, Option};
    ghost use Rattle.nl_tree.specs.Causes.{Counts, FaultState};

    /// The value stands on a medium that tells its contents.
    ghost tells: { Type 0 };

    /// The clock and the counts of faults of its medium.
    ghost counts: { Self → Counts };

    /// What refuses a line of a worker before it is tried: the number that a staging of it failed with, the number with which the
    /// volume became read-only, and the next stamp.
    ghost refusing: { Self → ℕ → ℕ → FaultState };

    /// The number with which the volume became read-only.
    ghost read_only: { Self → Option ℕ };

    /// How much a line of a worker has left to stage at most, in pages and units.
    ghost to_stage: { Self → ℕ → ℕ → ℕ };

    /// The number of the last callback since the opening, or 0.
    ghost posted: { Self → ℕ };

    /// The free blocks of its physical segment.
    ghost free_blocks: { Self → ℕ };

    /// Stages one whole page or one unit of a line ahead of its effect: `Staged`, or why there was none.
    fn stage(&mut self, worker: u8, line: u32, call: &Call) -> Stage
        requires { StandsForSomeWithLine Self.stands self.old worker line call.now }
        ensures stands { FromEachWithLine Self.stands self.old worker line call.now
            (λ v o h. Self.stands v o (h ++ stage_entry line result ∷ []) self.new) }
        ensures counts { NeverFall (counts self.old) (counts self.new) }
        ensures less { StagesLess (to_stage self.old) (to_stage self.new) worker line (is_staged result) }
        ensures read_only { StaysReadOnly (counts self.old) (counts self.new) (read_only self.old) (read_only self.new) }
        ensures staged { KeepsStagedFaults (refusing self.old) (refusing self.new) worker line (is_fault result)
            (fault_sum (counts self.new)) }
        ensures fault { result ≡ Stage.Fault → FaultRose (counts self.old) (counts self.new) }
        ensures lost { (wanted : ℕ) (found : ℕ) → result ≡ Stage.Lost wanted found → LostHasCause tells wanted found };

    /// The effect of a line: its place in the order of all calls, and its reply, with the bytes that belong to it in the buffer.
    fn effect(&mut self, worker: u8, line: u32, call: &Call, out: &mut ReplyBuf) -> Answered
        requires { StandsForSomeWithLine Self.stands self.old worker line call.now }
        ensures stands { FromEachWithLine Self.stands self.old worker line call.now
            (λ v o h. Self.stands v o (h ++ effect_entry line result.reply ∷ []) self.new) }
        ensures counts { NeverFall (counts self.old) (counts self.new) }
        ensures less { (w : ℕ) (l : ℕ) → w ≢ worker → to_stage self.new w l ≤ to_stage self.old w l }
        ensures read_only { StaysReadOnly (counts self.old) (counts self.new) (read_only self.old) (read_only self.new) }
        ensures staged { (w : ℕ) (l : ℕ) → w ≢ worker → (refusing self.new w l).staged ≡ (refusing self.old w l).staged }
        ensures place { FromEachWithLine Self.stands self.old worker line call.now
            (λ v o h. result.place ≡ place_due o h line result.reply) }
        ensures ordinal { FromEachWithLine Self.stands self.old worker line call.now
            (λ v o h. result.ordinal ≡ ordinal_due h line result.reply) }
        ensures answer { tells → FromEachWithLine Self.stands self.old worker line call.now
            (λ v o h. Answers (outcome_due o h call.now result.reply) result.reply out.new) }
        ensures cause { FaultIsDue tells (refusing self.old worker line) (counts self.old) (counts self.new) call.now result.reply }
        ensures since_opening { FromEachWithLine Self.stands self.old worker line call.now
            (λ v o h. FaultHasCause tells o (counts self.new) call.now result.reply) };

    /// One background task.
    fn duty(&mut self, which: Duty) -> DutyAnswer
        requires { StandsForSome Self.stands self.old }
        ensures stands { (v : Self) (o : Opening) (h : List TurnEntry) → Self.stands v o h self.old
            → Self.stands v o (h ++ duty_entry result ∷ []) self.new }
        ensures counts { NeverFall (counts self.old) (counts self.new) }
        ensures less { NoMoreToStage (to_stage self.old) (to_stage self.new) }
        ensures read_only { StaysReadOnly (counts self.old) (counts self.new) (read_only self.old) (read_only self.new) }
        ensures staged { (w : ℕ) (l : ℕ) → (refusing self.new w l).staged ≡ (refusing self.old w l).staged }
        ensures fault { result ≡ DutyAnswer.Fault → FaultRose (counts self.old) (counts self.new) }
        ensures lost { (wanted : ℕ) (found : ℕ) → result ≡ DutyAnswer.Lost wanted found → LostHasCause tells wanted found };

    fn posted(&self) -> u64
        ensures { result ≡ posted self.now };

    fn free_blocks(&self) -> u32
        ensures { result ≡ free_blocks self.now };

    /// The clock and the counts of faults have not fallen since the opening.
    ghost since: { (v : Self) (w : Self) (o : Opening) (h : List TurnEntry) → Self.stands v o h w → NeverFall (opening_counts o) (counts w) };

    /// One number for all lines of a read-only volume.
    ghost one_number: { (v : Self) (worker : ℕ) (line : ℕ) → (refusing v worker line).read_only ≡ read_only v };
}
