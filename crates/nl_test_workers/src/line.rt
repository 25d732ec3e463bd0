ghost use Rattle.std.specs.Prelude.{◌≡◌, ℕ, List, ◌+◌, ◌++◌, ◌∷◌, [], true, false, replicate};
ghost use mathlib.Core.List.{IsPrefix};
ghost use Rattle.nl_field.specs.CrashStates.{saturated};
ghost use Rattle.nl_tree.specs.Replay.{Answers};
ghost use Rattle.nl_tree.specs.declared.turn.Stage.{Stage as LastStage};
ghost use Rattle.nl_tree.specs.declared.turn.Stage.TheVariants as stage;
ghost use Rattle.nl_turns.specs.History.{effects};
ghost use Rattle.nl_turns.specs.Seat.{entries, SeatState};
ghost use Rattle.nl_turns.specs.Served.{stage_entry, effect_entry, is_staged, outcome_due};
ghost use Rattle.nl_turns.specs.declared.entry.Entry.{Entry as TurnEntry};
ghost use Rattle.nl_test_workers.specs.Work.{entries_of, LineIsOfSeat};

use nl_tree::{Answered, Line, ReplyBuf, Stage};
use nl_turns::{Entry, Served, TurnSeat, Turns};
use std::sync::Wait;

// One turn that stages for the line.
#[tactic(auto, using(crate::proofs::Turned::own_more, crate::proofs::Turned::prefix_push))]
fn stage_turn<V: Served, R: Wait>(
    rt: &R,
    turns: &Turns<V>,
    seat: &mut TurnSeat,
    line: &Line,
) -> Stage
    requires lock { seat.old.lock ≡ turns.now.name }
    requires idle { seat.old.has_turn ≡ false }
    requires line { LineIsOfSeat seat.old.opening line.now }
    ensures seat { seat.new ≡ record seat.old { seen = seat.new.seen } }
    ensures grows { IsPrefix seat.old.seen seat.new.seen }
    ensures own { entries_of seat.old.number seat.new.seen
        ≡ entries_of seat.old.number seat.old.seen ++ stage_entry line.now.line result ∷ [] }
{
    let mut turn = turns.take(rt, seat);
    let answer = turn.value.stage(line.worker, line.line, &line.call);
    turns.pass(seat, turn, Entry::of_stage(line.line, answer));
    answer
}

/// The turn of the line's effect.
#[tactic(auto, using(crate::proofs::Turned::own_more, crate::proofs::Turned::prefix_push))]
pub(crate) fn effect_turn<V: Served, R: Wait>(
    rt: &R,
    turns: &Turns<V>,
    seat: &mut TurnSeat,
    line: &Line,
    out: &mut ReplyBuf,
) -> Answered
    requires lock { seat.old.lock ≡ turns.now.name }
    requires idle { seat.old.has_turn ≡ false }
    requires line { LineIsOfSeat seat.old.opening line.now }
    ensures seat { seat.new ≡ record seat.old { seen = seat.new.seen } }
    ensures grows { IsPrefix seat.old.seen seat.new.seen }
    ensures own { entries_of seat.old.number seat.new.seen
        ≡ entries_of seat.old.number seat.old.seen ++ effect_entry line.now.line result.reply ∷ [] }
    ensures place { result.place ≡ saturated (seat.old.opening.count + effects (entries seat.new.seen)) }
    ensures answer { V.tells → (before : List TurnEntry) × (entries seat.new.seen ≡ before ++ effect_entry line.now.line result.reply ∷ [])
        × Answers (outcome_due seat.old.opening before line.now.call result.reply) result.reply out.new }
{
    let mut turn = turns.take(rt, seat);
    let answered = turn.value.effect(line.worker, line.line, &line.call, out);
    turns.pass(seat, turn, Entry::of_effect(line.line, answered.reply));
    answered
}

/// Stages for the line until nothing is left, and then does its effect. What the seat adds to the history are these turns alone.
pub fn run_line<V: Served, R: Wait>(
    rt: &R,
    turns: &Turns<V>,
    mut seat: TurnSeat,
    line: &Line,
    out: &mut ReplyBuf,
) -> (TurnSeat, Answered)
    requires lock { seat.lock ≡ turns.now.name }
    requires idle { seat.has_turn ≡ false }
    requires line { LineIsOfSeat seat.opening line.now }
    ensures seat { result.0 ≡ record seat { seen = result.0.seen } }
    ensures grows { IsPrefix seat.seen result.0.seen }
    ensures own { (k : ℕ) × (last : LastStage) × (is_staged last ≡ false) × (entries_of seat.number result.0.seen
        ≡ (entries_of seat.number seat.seen ++ replicate k (stage_entry line.now.line stage.Staged)) ++ stage_entry line.now.line last
        ∷ effect_entry line.now.line result.1.reply ∷ []) }
    ensures place { result.1.place ≡ saturated (seat.opening.count + effects (entries result.0.seen)) }
{
    for _ in rt.forever() {
        if stage_turn(rt, turns, &mut seat, line) != Stage::Staged {
            let answered = effect_turn(rt, turns, &mut seat, line, out);
            return (seat, answered);
        }
    }
    unreachable!()
}
