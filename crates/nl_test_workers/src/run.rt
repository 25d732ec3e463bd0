ghost use Rattle.std.specs.Prelude.{◌≡◌, ◌+◌, false, IfSome};
ghost use Rattle.nl_workers.specs.Rounds.{IsFirstSeat};

use crate::failing::FailingVolume;
use nl_tree::Lines;
use nl_turns::{TurnSeat, Turns};
use nl_workers::{AnswerTable, DutyKit, Gate, run_rounds};
use std::alloc::Global;
use std::marker::Brand;
use std::sync::Wait;
use std::thread::Threads;

/// A lock with ten seats over a volume whose medium fails each read. It is `None` for want of memory.
fn open_lock(alloc: Global, lines: &Lines) -> Option<(Turns<FailingVolume>, TurnSeat)>
    ensures first { IfSome result (λ r. IsFirstSeat lines.now r.1) }
    ensures lock { IfSome result (λ r. r.1.lock ≡ r.0.name) }
    ensures seats { IfSome result (λ r. r.1.places + 1 ≡ r.0.seats) }
{
    let Ok(made) = Turns::new::<Brand>(alloc, FailingVolume::new(), lines, 10) else {
        return None;
    };
    Some(made)
}

/// Runs the lines over such a volume, and closes the lock. It is `None` for want of memory.
pub fn run_script<R: Threads + Wait + Sync, G: Gate + Sync>(
    rt: &R,
    alloc: Global,
    lines: &Lines,
    gate: &G,
) -> Option<AnswerTable>
    ensures { IfSome result (λ t. t.lost ≡ false) }
{
    let Ok(mut answers) = AnswerTable::new(alloc, lines) else {
        return None;
    };
    let Ok(mut kit) = DutyKit::new(alloc) else {
        return None;
    };
    let Some((turns, mut seat)) = open_lock(alloc, lines) else {
        return None;
    };
    run_rounds(rt, &turns, &mut seat, lines, &mut kit, &mut answers, gate);
    turns.close(seat);
    Some(answers)
}
