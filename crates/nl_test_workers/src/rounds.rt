ghost use Rattle.std.specs.Prelude.{◌≡◌, ℕ, ◌+◌, ◌≤◌, length, false, vec_len, IfSome, slice_get};
ghost use Rattle.std.specs.Thread.{IsSync};
ghost use Rattle.nl_turns.specs.Seat.{SeatState};
ghost use Rattle.nl_test_workers.specs.Work.{LineIsOfSeat, HasTakenTurns, CanRunWorkers, SeatsHaveRun, EachHasLine};

use crate::work::take_turns;
use nl_tree::{Lines, ReplyBuf};
use nl_turns::{Served, TurnSeat, Turns};
use std::sync::Wait;
use std::thread::{Threads, join};

/// Runs a worker for each buffer, each with a seat and a thread of its own, for so many turns. The first worker runs the last of these
/// lines.
pub fn round<V: Served + Send, R: Threads + Wait + Sync>(
    rt: &R,
    turns: &Turns<V>,
    mut seat: TurnSeat,
    lines: &Lines,
    mut outs: Vec<ReplyBuf>,
    times: u32,
) -> TurnSeat
    requires lock { seat.lock ≡ turns.now.name }
    requires may { CanRunWorkers seat (vec_len outs) }
    requires lines { (vec_len outs ≤ length lines.now) × EachHasLine seat.opening lines.now }
    ensures { SeatsHaveRun seat lines.now (vec_len outs) times result }
{
    let Some(out) = outs.pop() else {
        return seat;
    };
    let line = lines.get(outs.len() as u32);
    let Some(own) = turns.split(&mut seat) else {
        unreachable!()
    };
    let (own, mut seat) = join(
        rt,
        move || -> TurnSeat
            requires { (own.lock ≡ turns.now.name) × (own.has_turn ≡ false) × LineIsOfSeat own.opening line.now }
            ensures { HasTakenTurns own line.entry.now.line times result }
        { take_turns(rt, turns, own, line, out, times) },
        move || -> TurnSeat
            requires { IsSync R.row × (seat.lock ≡ turns.now.name) × CanRunWorkers seat (vec_len outs) × (vec_len outs ≤ length lines.now) × EachHasLine seat.opening lines.now }
            ensures { SeatsHaveRun seat lines.entry.now (vec_len outs) times result }
        { round(rt, turns, seat, lines, outs, times) },
    );
    turns.join(&mut seat, own);
    seat
}
