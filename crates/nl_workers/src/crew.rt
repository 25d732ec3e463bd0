//! All who take turns at the lock, and the run of one epoch by its workers.
ghost use Rattle.std.specs.Prelude.{◌≡◌, length, vec_len, vec_capacity};
ghost use Rattle.std.specs.Thread.{IsSync};
ghost use Rattle.nl_workers.specs.Worked.{MayWork, HasWorked};
ghost use Rattle.nl_workers.specs.Crew.{MayStart, CrewHasRun};
ghost use Rattle.nl_workers.specs.Heard.{HeardOfWorker, HeardOfCrew};

use crate::duty::{Cleaner, Handler};
use crate::epoch::{Span, needs_thread};
use crate::gate::Gate;
use crate::station::Station;
use crate::worker::work;
use nl_tree::Lines;
use nl_turns::{Served, TurnSeat, Turns};
use std::sync::Wait;
use std::thread::{Threads, join};

/// All who take turns: the first seat, the workers from 0 on, the cleaner and the handler.
#[derive(Drop)]
pub(crate) struct Crew {
    pub(crate) seat: TurnSeat,
    pub(crate) stations: Vec<Station>,
    pub(crate) cleaner: Cleaner,
    pub(crate) handler: Handler,
}

/// Runs the workers of an epoch. The least of those that have lines is run here, with the first seat, and the others have threads and
/// seats of their own. Where no thread can be made, the caller runs that worker too.
pub(crate) fn run_crew<V: Served + Send, R: Threads + Wait + Sync, G: Gate + Sync>(
    rt: &R,
    turns: &Turns<V>,
    mut seat: TurnSeat,
    lines: &Lines,
    span: Span,
    mut stations: Vec<Station>,
    gate: &G,
) -> (TurnSeat, Vec<Station>)
    requires lock { seat.lock ≡ turns.now.name }
    requires may { MayStart V.tells lines.now span.from span.to seat stations.items }
    ensures ran { CrewHasRun V.tells lines.now span.from span.to seat stations.items result.0 result.1.items }
    ensures room { vec_capacity result.1 ≡ vec_capacity stations }
    ensures heard { HeardOfCrew (G.heard gate.now) lines.now span.from span.to (length stations.items) seat result.0 }
{
    let Some(station) = stations.pop() else {
        return (seat, stations);
    };
    let worker = stations.len() as u8;
    if !needs_thread(lines, span, worker) {
        let (seat, station) = work(rt, turns, seat, lines, span, worker, station, gate);
        let (seat, mut stations) = run_crew(rt, turns, seat, lines, span, stations, gate);
        stations.push_reserved(station);
        return (seat, stations);
    }
    let Some(own) = turns.split(&mut seat) else {
        unreachable!()
    };
    let ((own, station), (mut seat, mut stations)) = join(
        rt,
        move || -> (TurnSeat, Station)
            requires { (own.lock ≡ turns.now.name) × MayWork V.tells lines.now worker span.from span.to own station }
            ensures { HasWorked V.tells lines.entry.now worker span.from span.to own station result.0 result.1
                × HeardOfWorker (G.heard gate.entry.now) lines.entry.now worker span.from span.to own result.0 }
        { work(rt, turns, own, lines, span, worker, station, gate) },
        move || -> (TurnSeat, Vec<Station>)
            requires { IsSync R.row × IsSync G.row × (seat.lock ≡ turns.now.name)
                × MayStart V.tells lines.now span.from span.to seat stations.items }
            ensures { CrewHasRun V.tells lines.entry.now span.from span.to seat stations.items result.0 result.1.items
                × (vec_capacity result.1 ≡ vec_capacity stations)
                × HeardOfCrew (G.heard gate.entry.now) lines.entry.now span.from span.to (length stations.items) seat result.0 }
        { run_crew(rt, turns, seat, lines, span, stations, gate) },
    );
    turns.join(&mut seat, own);
    stations.push_reserved(station);
    (seat, stations)
}
