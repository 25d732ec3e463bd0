//! The workers of an epoch run in threads, beside the loops of the cleaner and the handler.
ghost use Rattle.std.specs.Prelude.{◌≡◌, length};
ghost use Rattle.std.specs.Thread.{IsSync};
ghost use Rattle.nl_workers.specs.Crew.{MayStart, CrewHasRun};
ghost use Rattle.nl_workers.specs.Duties.{MayClean, HasCleaned, MayHandle, HasHandled};
ghost use Rattle.nl_workers.specs.Heard.{HeardOfCrew};

use crate::crew::{Crew, run_crew};
use crate::duty::{Cleaner, Handler, clean, handle};
use crate::epoch::Span;
use crate::gate::Gate;
use crate::station::Station;
use crate::stop::StopFlag;
use nl_callbacks::Notices;
use nl_tree::Lines;
use nl_turns::{Served, TurnSeat, Turns};
use std::sync::Wait;
use std::thread::{Threads, join};

/// The workers of an epoch beside the cleaner and the handler. The flag is lowered as they begin, and raised when the workers are
/// joined. Where no thread can be made for the cleaner or the handler, it runs last, and finds the flag raised.
pub(crate) fn run_beside<V: Served + Send, R: Threads + Wait + Sync, G: Gate + Sync>(
    rt: &R,
    turns: &Turns<V>,
    stop: &StopFlag,
    notices: &Notices,
    lines: &Lines,
    span: Span,
    crew: Crew,
    gate: &G,
) -> Crew
    requires cleaner { MayClean turns.now.name notices.now crew.cleaner }
    requires handler { MayHandle turns.now.name notices.now crew.handler }
    requires lock { crew.seat.lock ≡ turns.now.name }
    requires may { MayStart V.tells lines.now span.from span.to crew.seat crew.stations.items }
    ensures cleaned { HasCleaned V.tells notices.now crew.cleaner result.cleaner }
    ensures handled { HasHandled V.tells notices.now crew.handler result.handler }
    ensures ran { CrewHasRun V.tells lines.now span.from span.to crew.seat crew.stations.items result.seat result.stations.items }
    ensures heard { HeardOfCrew (G.heard gate.now) lines.now span.from span.to (length crew.stations.items) crew.seat result.seat }
{
    let Crew {
        seat,
        stations,
        cleaner,
        handler,
    } = crew;
    stop.lower();
    let (cleaner, (handler, (seat, stations))) = join(
        rt,
        move || -> Cleaner
            requires { IsSync R.row × IsSync G.row × MayClean turns.now.name notices.now cleaner }
            ensures { HasCleaned V.tells notices.entry.now cleaner result }
        { clean(rt, turns, cleaner, stop, notices, gate) },
        move || -> (Handler, (TurnSeat, Vec<Station>))
            requires { IsSync R.row × IsSync G.row × MayHandle turns.now.name notices.now handler × (seat.lock ≡ turns.now.name)
                × MayStart V.tells lines.now span.from span.to seat stations.items }
            ensures { HasHandled V.tells notices.entry.now handler result.0
                × CrewHasRun V.tells lines.entry.now span.from span.to seat stations.items result.1.0 result.1.1.items
                × HeardOfCrew (G.heard gate.entry.now) lines.entry.now span.from span.to (length stations.items) seat result.1.0 }
        {
            handle_beside(
                rt, turns, stop, notices, handler, seat, lines, span, stations, gate,
            )
        },
    );
    Crew {
        seat,
        stations,
        cleaner,
        handler,
    }
}

fn handle_beside<V: Served + Send, R: Threads + Wait + Sync, G: Gate + Sync>(
    rt: &R,
    turns: &Turns<V>,
    stop: &StopFlag,
    notices: &Notices,
    handler: Handler,
    seat: TurnSeat,
    lines: &Lines,
    span: Span,
    stations: Vec<Station>,
    gate: &G,
) -> (Handler, (TurnSeat, Vec<Station>))
    requires handler { MayHandle turns.now.name notices.now handler }
    requires lock { seat.lock ≡ turns.now.name }
    requires may { MayStart V.tells lines.now span.from span.to seat stations.items }
    ensures handled { HasHandled V.tells notices.now handler result.0 }
    ensures ran { CrewHasRun V.tells lines.now span.from span.to seat stations.items result.1.0 result.1.1.items }
    ensures heard { HeardOfCrew (G.heard gate.now) lines.now span.from span.to (length stations.items) seat result.1.0 }
{
    join(
        rt,
        move || -> Handler
            requires { IsSync R.row × IsSync G.row × MayHandle turns.now.name notices.now handler }
            ensures { HasHandled V.tells notices.entry.now handler result }
        { handle(rt, turns, handler, stop, notices, gate) },
        move || -> (TurnSeat, Vec<Station>)
            requires { IsSync R.row × IsSync G.row × (seat.lock ≡ turns.now.name)
                × MayStart V.tells lines.now span.from span.to seat stations.items }
            ensures { CrewHasRun V.tells lines.entry.now span.from span.to seat stations.items result.0 result.1.items
                × HeardOfCrew (G.heard gate.entry.now) lines.entry.now span.from span.to (length stations.items) seat result.0 }
        {
            let ran = run_crew(rt, turns, seat, lines, span, stations, gate);
            stop.raise();
            ran
        },
    )
}
