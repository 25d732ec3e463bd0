//! A worker answers its lines among a range of positions, one after the other.
ghost use Rattle.std.specs.Prelude.{◌≡◌, ◌+◌, ◌<◌, length, false, IfSome, slice_get};
ghost use Rattle.nl_workers.specs.Heard.{HeardOfWorker};
ghost use Rattle.nl_workers.specs.Worked.{MayRunAt, MayWork, HasWorked};

use crate::epoch::Span;
use crate::gate::Gate;
use crate::station::{Station, either};
use crate::turn::run_line;
use nl_tree::Lines;
use nl_turns::{Served, TurnSeat, Turns};
use std::sync::Wait;

/// Answers the line at a position, if it is one of the worker's.
fn run_at<V: Served, R: Wait, G: Gate>(
    rt: &R,
    turns: &Turns<V>,
    seat: &mut TurnSeat,
    lines: &Lines,
    at: u32,
    worker: u8,
    station: &mut Station,
    gate: &G,
)
    requires lock { seat.old.lock ≡ turns.now.name }
    requires at { at < length lines.now }
    requires may { MayRunAt V.tells lines.now worker at seat.old station.old }
    ensures worked { HasWorked V.tells lines.now worker at (at + 1) seat.old station.old seat.new station.new }
    ensures heard { HeardOfWorker (G.heard gate.now) lines.now worker at (at + 1) seat.old seat.new }
{
    let line = lines.get(at);
    if line.worker != worker {
        return;
    }
    let ran = run_line(rt, turns, seat, lines, line, &mut station.out, gate);
    station
        .desk
        .add(line.line, &line.call, ran.answered, &station.out);
    station.lost = either(station.lost, ran.lost);
}

/// Answers a worker's lines of an epoch, one after the other.
pub(crate) fn work<V: Served, R: Wait, G: Gate>(
    rt: &R,
    turns: &Turns<V>,
    mut seat: TurnSeat,
    lines: &Lines,
    span: Span,
    worker: u8,
    mut station: Station,
    gate: &G,
) -> (TurnSeat, Station)
    requires lock { seat.lock ≡ turns.now.name }
    requires may { MayWork V.tells lines.now worker span.from span.to seat station }
    ensures worked { HasWorked V.tells lines.now worker span.from span.to seat station result.0 result.1 }
    ensures heard { HeardOfWorker (G.heard gate.now) lines.now worker span.from span.to seat result.0 }
{
    for at in span.from..span.to {
        run_at(rt, turns, &mut seat, lines, at, worker, &mut station, gate);
    }
    (seat, station)
}
