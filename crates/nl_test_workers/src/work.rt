ghost use Rattle.std.specs.Prelude.{◌≡◌, false};
ghost use Rattle.nl_test_workers.specs.Work.{LineIsOfSeat, HasTakenTurns};

use crate::line::effect_turn;
use nl_tree::{Line, ReplyBuf};
use nl_turns::{Served, TurnSeat, Turns};
use std::sync::Wait;

/// Takes so many turns, each with the line's effect.
pub fn take_turns<V: Served, R: Wait>(
    rt: &R,
    turns: &Turns<V>,
    mut seat: TurnSeat,
    line: &Line,
    mut out: ReplyBuf,
    times: u32,
) -> TurnSeat
    requires lock { seat.lock ≡ turns.now.name }
    requires idle { seat.has_turn ≡ false }
    requires line { LineIsOfSeat seat.opening line.now }
    ensures { HasTakenTurns seat line.now.line times result }
{
    for _ in 0..times {
        effect_turn(rt, turns, &mut seat, line, &mut out);
    }
    seat
}
