// The effect of a line on a volume, and its reply.
ghost use Rattle.std.specs.Prelude.{◌≡◌, ◌≢◌, ◌≤◌, ◌<◌, ◌++◌, ◌∷◌, [], ℕ, None};
ghost use Rattle.nl_tree.specs.Causes.{FaultIsDue, NeverFall, fault_due};
ghost use Rattle.nl_tree.specs.Replay.{Answers};
ghost use Rattle.nl_tree.specs.declared.call.Call.TheVariants.{Clean};
ghost use Rattle.nl_turns.specs.Served.{FaultHasCause, FromEachWithLine, StandsForSomeWithLine, StaysReadOnly, effect_entry, ordinal_due, outcome_due, place_due};
ghost use Rattle.nl_core.specs.LastCommit.{KeepsCommit, LeavesMedium};
ghost use Rattle.nl_calls.specs.Answering.{EndsLine, RunsReclaimPass, pages_of_files};
ghost use Rattle.nl_calls.specs.Commits.{NeedsNoCommit};
ghost use Rattle.nl_volume.specs.Effects.{AnswersLine, CleansAndCounts, NeedsNoWrite};
ghost use Rattle.nl_calls_steps.specs.Calls.{counts_of};
ghost use Rattle.nl_volume_stage.specs.Serving.{refusing_of, some_number, to_stage_of};
ghost use Rattle.nl_volume_stage.specs.Staging.{RepresentsWithLine};
ghost use Rattle.nl_volume.specs.Moving.{moving};

use crate::volume::Volume;
use nl_calls::{Answer, answer_call};
use nl_core::Core;
use nl_device::Device;
use nl_field::PageBuf;
use nl_iface::{Counts, MovingPages};
use nl_nand::Nand;
use nl_spec_commits::laws::device_stands;
use nl_tree::{Answered, Call, Reply, ReplyBuf};
use nl_turns::Kept;
use nl_volume_stage::{counts, leave_other, refusal};

impl<M: Nand> Volume<M> {
    /// The effect of a line: its place in the order of all calls, its number among the effects since the opening, and its reply, with the
    /// bytes that belong to it in the buffer. A line whose staging failed is answered with that number; one that changes something is
    /// refused on a volume that is read-only or worn; else a fault comes only of what failed within. Pages in flight of another line of the
    /// worker are freed first, and nothing of the worker is in flight afterwards; lines of other workers stay. A call for cleaning that is
    /// done did a round of reclaiming. A sync does the units that are left until its goal is committed, which its stagings fixed and is else
    /// all calls before it; it tells how many calls are committed then, and the moment of that commit page. Nothing is committed but by a
    /// sync, by a call for cleaning, and where there is no room for the pages that the call makes dirty or programs. A call that only looks
    /// leaves the medium and the last commit as they are, and so does a sync whose goal is committed; so does each call on a volume that is
    /// read-only or worn.
    pub fn effect(&mut self, worker: u8, line: u32, call: &Call, out: &mut ReplyBuf) -> Answered
        requires { StandsForSomeWithLine ⟦<Volume<M> as Kept>⟧.stands self.old worker line call.now }
        ensures stands { FromEachWithLine ⟦<Volume<M> as Kept>⟧.stands self.old worker line call.now
            (λ v o h. ⟦<Volume<M> as Kept>⟧.stands v o (h ++ effect_entry line result.reply ∷ []) self.new) }
        ensures counts { NeverFall (counts_of ⟦<Device<M> as Counts>⟧ self.old.core.device)
            (counts_of ⟦<Device<M> as Counts>⟧ self.new.core.device) }
        ensures less { (w : ℕ) (l : ℕ) → w ≢ worker → to_stage_of self.new.core w l ≤ to_stage_of self.old.core w l }
        ensures ended { EndsLine worker self.old.core.flight self.new.core.flight }
        ensures read_only { StaysReadOnly (counts_of ⟦<Device<M> as Counts>⟧ self.old.core.device)
            (counts_of ⟦<Device<M> as Counts>⟧ self.new.core.device) (some_number self.old.core.stopped)
            (some_number self.new.core.stopped) }
        ensures staged { (w : ℕ) (l : ℕ) → w ≢ worker
            → (refusing_of ⟦<Device<M> as Counts>⟧ self.new.core w l).staged
            ≡ (refusing_of ⟦<Device<M> as Counts>⟧ self.old.core w l).staged }
        ensures place { FromEachWithLine ⟦<Volume<M> as Kept>⟧.stands self.old worker line call.now
            (λ v o h. result.place ≡ place_due o h line result.reply) }
        ensures ordinal { FromEachWithLine ⟦<Volume<M> as Kept>⟧.stands self.old worker line call.now
            (λ v o h. result.ordinal ≡ ordinal_due h line result.reply) }
        ensures answer { M.tells → FromEachWithLine ⟦<Volume<M> as Kept>⟧.stands self.old worker line call.now
            (λ v o h. Answers (outcome_due o h call.now result.reply) result.reply out.new) }
        ensures cause { FaultIsDue M.tells (refusing_of ⟦<Device<M> as Counts>⟧ self.old.core worker line)
            (counts_of ⟦<Device<M> as Counts>⟧ self.old.core.device)
            (counts_of ⟦<Device<M> as Counts>⟧ self.new.core.device) call.now result.reply }
        ensures since_opening { FromEachWithLine ⟦<Volume<M> as Kept>⟧.stands self.old worker line call.now
            (λ v o h. FaultHasCause M.tells o (counts_of ⟦<Device<M> as Counts>⟧ self.new.core.device) call.now result.reply) }
        ensures cleaned { call.now ≡ Clean → result.reply ≡ Reply.Done → CleansAndCounts ⟦<Device<M> as Counts>⟧
            (moving ⟦<Device<M> as MovingPages>⟧.victim ⟦<Device<M> as MovingPages>⟧.most_dead ⟦<Device<M> as MovingPages>⟧.coldest ⟦<Device<M> as MovingPages>⟧.blank)
            self.old.core self.new.core }
        ensures kept { NeedsNoWrite ⟦<Device<M> as Counts>⟧ worker line call.now self.old.core
            → LeavesMedium ⟦<Device<M> as Counts>⟧ self.old.core self.new.core }
        ensures commit { NeedsNoCommit ⟦<Device<M> as Counts>⟧ call.now self.old.core → KeepsCommit self.old.core self.new.core }
        ensures wear { (self.new.least ≡ self.old.least) × (self.new.greatest ≡ self.old.greatest) }
    {
        out.clear();
        let Answer { reply, files } = answer(
            &mut self.core,
            worker,
            line,
            call,
            self.files,
            out,
            &mut self.page,
        );
        counts(&self.core);
        device_stands(&self.core.device);
        self.files = files;
        self.core.count_call();
        self.done = self.done.saturating_add(1);
        Answered {
            place: self.core.count,
            ordinal: self.done,
            reply,
        }
    }
}

// What a line is answered, before it is counted.
fn answer<D: MovingPages>(
    core: &mut Core<D>,
    worker: u8,
    line: u32,
    call: &Call,
    files: u32,
    out: &mut ReplyBuf,
    page: &mut PageBuf,
) -> Answer
    requires stands { RepresentsWithLine D.Counts worker line call.now core.old }
    requires files { files ≡ pages_of_files D.Counts core.old }
    requires known { worker < 8 }
    requires nothing { out.old ≡ [] }
    ensures answers { AnswersLine D.Counts worker line call.now core.old core.new result.reply out.new result.files }
    ensures cleaned { call.now ≡ Clean → result.reply ≡ Reply.Done → RunsReclaimPass D.Counts D.MovingPages.own core.old core.new }
    ensures kept { NeedsNoWrite D.Counts worker line call.now core.old → LeavesMedium D.Counts core.old core.new }
    ensures commit { NeedsNoCommit D.Counts call.now core.old → KeepsCommit core.old core.new }
{
    match refusal(core, worker, line, call) {
        Some(fault) => {
            core.drop_line(worker);
            Answer {
                reply: Reply::Fault(fault),
                files,
            }
        }
        None => try_line(core, worker, line, call, files, out, page),
    }
}

// What a line is answered that is not refused before it is tried.
fn try_line<D: MovingPages>(
    core: &mut Core<D>,
    worker: u8,
    line: u32,
    call: &Call,
    files: u32,
    out: &mut ReplyBuf,
    page: &mut PageBuf,
) -> Answer
    requires stands { RepresentsWithLine D.Counts worker line call.now core.old }
    requires files { files ≡ pages_of_files D.Counts core.old }
    requires known { worker < 8 }
    requires nothing { out.old ≡ [] }
    requires tried { fault_due (refusing_of D.Counts core.old worker line) call.now ≡ None }
    ensures answers { AnswersLine D.Counts worker line call.now core.old core.new result.reply out.new result.files }
    ensures cleaned { call.now ≡ Clean → result.reply ≡ Reply.Done → RunsReclaimPass D.Counts D.MovingPages.own core.old core.new }
    ensures kept { NeedsNoWrite D.Counts worker line call.now core.old → LeavesMedium D.Counts core.old core.new }
    ensures commit { NeedsNoCommit D.Counts call.now core.old → KeepsCommit core.old core.new }
{
    leave_other(core, worker, line);
    answer_call(core, worker, line, call, files, out, page)
}
