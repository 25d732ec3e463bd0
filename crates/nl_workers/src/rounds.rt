//! All lines of a script are run, epoch by epoch.
ghost use Rattle.std.specs.Prelude.{◌≡◌, ◌||◌, ◌+◌, ◌-◌, ◌<◌, ◌≤◌, ◌^◌, [], length, false, vec_len};
ghost use Rattle.std.specs.Thread.{IsSync};
ghost use Rattle.nl_callbacks.specs.Notices.{IsTaker};
ghost use Rattle.nl_turns.specs.History.{has_lost_page};
ghost use Rattle.nl_turns.specs.Seat.{entries};
ghost use Rattle.nl_workers.specs.Crew.{any_lost};
ghost use Rattle.nl_workers.specs.Duties.{IsOutbox};
ghost use Rattle.nl_workers.specs.Fresh.{AreFresh};
ghost use Rattle.nl_workers.specs.Going.{IsUnderWay, MayGo, HasRunAll, TookSeatsBack, MayRunEpochs};
ghost use Rattle.nl_workers.specs.Heard.{HeardSoFar, HeardOfLines};
ghost use Rattle.nl_workers.specs.Rounds.{IsFirstSeat, EpochsRan};
ghost use Rattle.nl_workers.specs.Spots.{rows_at, AreSpots};
ghost use Rattle.nl_workers.specs.Table.{IsTableFor};

use crate::answers::AnswerTable;
use crate::beside::run_beside;
use crate::crew::Crew;
use crate::duty::{Cleaner, Handler};
use crate::epoch::{Span, end_of_epoch};
use crate::gate::Gate;
use crate::kit::{DutyKit, Passes};
use crate::placing::{Spot, place_all};
use crate::station::Station;
use crate::stop::StopFlag;
use nl_callbacks::Notices;
use nl_tree::Lines;
use nl_turns::{Served, TurnSeat, Turns};
use std::mem;
use std::sync::Wait;
use std::thread::Threads;

/// What the crew leaves when all lines are answered.
#[derive(Drop)]
struct Home {
    stations: Vec<Station>,
    passes: Passes,
    lost: bool,
}

/// Runs epoch after epoch.
fn run_epochs<V: Served + Send, R: Threads + Wait + Sync, G: Gate + Sync>(
    rt: &R,
    turns: &Turns<V>,
    stop: &StopFlag,
    notices: &Notices,
    lines: &Lines,
    mut crew: Crew,
    gate: &G,
) -> Crew
    requires may { MayGo turns.now.name lines.now crew.seat }
    requires going { IsUnderWay V.tells turns.now.name notices.now lines.now crew.seat 0 crew }
    requires heard { HeardSoFar (G.heard gate.now) lines.now 0 crew }
    ensures going { IsUnderWay V.tells turns.now.name notices.now lines.now crew.seat (length lines.now) result }
    ensures heard { HeardSoFar (G.heard gate.now) lines.now (length lines.now) result }
{
    let mut from = 0;
    while from < lines.len() {
        let to = end_of_epoch(lines, from);
        crew = run_beside(
            rt,
            turns,
            stop,
            notices,
            lines,
            Span { from, to },
            crew,
            gate,
        );
        from = to;
    }
    crew
}

fn is_any_lost(stations: &Vec<Station>) -> bool
    ensures { result ≡ any_lost stations.now.items }
{
    for station in stations {
        if station.lost {
            return true;
        }
    }
    false
}

/// A seat for the cleaner or the handler.
fn give_seat<V: Served>(turns: &Turns<V>, seat: &mut TurnSeat) -> TurnSeat
    requires lock { seat.old.lock ≡ turns.now.name }
    requires idle { seat.old.has_turn ≡ false }
    requires first { seat.old.number ≡ 0 }
    requires places { 0 < seat.old.places }
    ensures left { seat.new ≡ record seat.old { places = seat.old.places - 1; next = seat.old.next + 1 } }
    ensures given { result ≡ record seat.old { number = seat.old.next; places = 0; next = 0; joined = [] } }
{
    let Some(given) = turns.split(seat) else {
        unreachable!()
    };
    given
}

/// Gives the cleaner and the handler their seats, runs all epochs, and takes the seats back.
fn run_all<V: Served + Send, R: Threads + Wait + Sync, G: Gate + Sync>(
    rt: &R,
    turns: &Turns<V>,
    stop: &StopFlag,
    notices: &Notices,
    lines: &Lines,
    mut seat: TurnSeat,
    stations: Vec<Station>,
    passes: Passes,
    gate: &G,
) -> (TurnSeat, Home)
    requires lock { seat.lock ≡ turns.now.name }
    requires first { IsFirstSeat lines.now seat }
    requires fresh { AreFresh lines.now stations.items }
    requires kit { IsOutbox notices.now passes.outbox × IsTaker notices.now passes.taker }
    ensures ran { HasRunAll V.tells lines.now seat result.0 result.1.stations.items }
    ensures kit { IsOutbox notices.now result.1.passes.outbox × IsTaker notices.now result.1.passes.taker }
    ensures found { result.1.lost ≡ has_lost_page (entries result.0.seen) }
    ensures lost { V.tells → result.1.lost ≡ false }
    ensures heard { HeardOfLines (G.heard gate.now) lines.now (entries result.0.seen) }
{
    let _ = lines.as_slice();
    let first = give_seat(turns, &mut seat);
    let second = give_seat(turns, &mut seat);
    let Passes { outbox, taker } = passes;
    let crew = Crew {
        seat,
        stations,
        cleaner: Cleaner {
            seat: first,
            outbox,
            lost: false,
        },
        handler: Handler {
            seat: second,
            pass: taker,
            lost: false,
        },
    };
    let crew = run_epochs(rt, turns, stop, notices, lines, crew, gate);
    send_home(turns, crew)
}

/// Takes the seats of the cleaner and the handler back.
fn send_home<V: Served>(turns: &Turns<V>, crew: Crew) -> (TurnSeat, Home)
    requires lock { (crew.seat.lock ≡ turns.now.name) × (crew.cleaner.seat.lock ≡ turns.now.name)
        × (crew.handler.seat.lock ≡ turns.now.name) }
    requires idle { (crew.seat.has_turn ≡ false) × (crew.cleaner.seat.has_turn ≡ false) × (crew.handler.seat.has_turn ≡ false) }
    requires first { crew.seat.number ≡ 0 }
    ensures home { TookSeatsBack crew.seat crew.cleaner.seat crew.handler.seat result.0 }
    ensures stations { result.1.stations.items ≡ crew.stations.items }
    ensures passes { (result.1.passes.outbox ≡ crew.cleaner.outbox) × (result.1.passes.taker ≡ crew.handler.pass) }
    ensures lost { result.1.lost ≡ (crew.cleaner.lost || (crew.handler.lost || any_lost crew.stations.items)) }
{
    let Crew {
        mut seat,
        stations,
        cleaner,
        handler,
    } = crew;
    let Cleaner {
        seat: first,
        outbox,
        lost: cleaner_lost,
    } = cleaner;
    let Handler {
        seat: second,
        pass: taker,
        lost: handler_lost,
    } = handler;
    turns.join(&mut seat, first);
    turns.join(&mut seat, second);
    let lost = cleaner_lost || handler_lost || is_any_lost(&stations);
    let passes = Passes { outbox, taker };
    (
        seat,
        Home {
            stations,
            passes,
            lost,
        },
    )
}

/// Runs all epochs, and then puts the answers in the order of their places.
fn run_placed<V: Served + Send, R: Threads + Wait + Sync, G: Gate + Sync>(
    rt: &R,
    turns: &Turns<V>,
    stop: &StopFlag,
    notices: &Notices,
    lines: &Lines,
    seat: TurnSeat,
    stations: Vec<Station>,
    passes: Passes,
    spare: Vec<Spot>,
    gate: &G,
) -> (TurnSeat, (Home, Vec<Spot>))
    requires { MayRunEpochs turns.now.name notices.now lines.now seat stations.items passes (vec_len spare) }
    ensures ran { EpochsRan V.tells seat lines.now (rows_at result.1.0.stations.items result.1.1.items) result.0 }
    ensures spots { AreSpots result.1.0.stations.items result.1.1.items × (length result.1.1.items < 2 ^ 32) }
    ensures kit { IsOutbox notices.now result.1.0.passes.outbox × IsTaker notices.now result.1.0.passes.taker }
    ensures found { result.1.0.lost ≡ has_lost_page (entries result.0.seen) }
    ensures lost { V.tells → result.1.0.lost ≡ false }
    ensures heard { HeardOfLines (G.heard gate.now) lines.now (entries result.0.seen) }
{
    let _ = lines.as_slice();
    let (seat, home) = run_all(
        rt, turns, stop, notices, lines, seat, stations, passes, gate,
    );
    let spots = place_all(&home.stations, spare);
    (seat, (home, spots))
}

/// Runs the lines, epoch by epoch, by a thread for each worker that has lines, beside a cleaner and a handler. The least worker of an
/// epoch is run by the caller, with the first seat of the lock. A worker takes turns that stage for its line, until one stages
/// nothing, and then the turn of the line's effect. The table has the answers, and has lost a page exactly where a staging or a background
/// task of the history has. The gate was told of each line before its turns and after its effect, and of its stagings where the history
/// has one that put a page in flight. It takes no memory.
pub fn run_rounds<V: Served + Send, R: Threads + Wait + Sync, G: Gate + Sync>(
    rt: &R,
    turns: &Turns<V>,
    seat: &mut TurnSeat,
    lines: &Lines,
    kit: &mut DutyKit,
    answers: &mut AnswerTable,
    gate: &G,
)
    requires lock { seat.old.lock ≡ turns.now.name }
    requires first { IsFirstSeat lines.now seat.old }
    requires table { IsTableFor lines.now answers.old }
    ensures ran { EpochsRan V.tells seat.old lines.now answers.new.rows seat.new }
    ensures found { answers.new.lost ≡ has_lost_page (entries seat.new.seen) }
    ensures lost { V.tells → answers.new.lost ≡ false }
    ensures kit { kit.new.room ≡ kit.old.room }
    ensures heard { HeardOfLines (G.heard gate.now) lines.now (entries seat.new.seen) }
{
    let Some(passes) = kit.passes.take() else {
        unreachable!()
    };
    let stations = mem::replace(&mut answers.stations, Vec::new(answers.alloc));
    let spare = mem::replace(&mut answers.spare, Vec::new(answers.alloc));
    let notices = &kit.notices;
    let stop = &kit.stop;
    let (home, spots) = TurnSeat::lend(
        seat,
        move |own: TurnSeat| -> (TurnSeat, (Home, Vec<Spot>))
            requires { IsSync R.row × IsSync G.row
                × MayRunEpochs turns.now.name notices.now lines.now own stations.items passes (vec_len spare) }
            ensures ran { EpochsRan V.tells own lines.entry.now (rows_at result.1.0.stations.items result.1.1.items) result.0 }
            ensures spots { AreSpots result.1.0.stations.items result.1.1.items × (length result.1.1.items < 2 ^ 32) }
            ensures kit { IsOutbox notices.entry.now result.1.0.passes.outbox × IsTaker notices.entry.now result.1.0.passes.taker }
            ensures found { result.1.0.lost ≡ has_lost_page (entries result.0.seen) }
            ensures lost { V.tells → result.1.0.lost ≡ false }
            ensures heard { HeardOfLines (G.heard gate.entry.now) lines.entry.now (entries result.0.seen) }
        {
            run_placed(
                rt, turns, stop, notices, lines, own, stations, passes, spare, gate,
            )
        },
    );
    kit.passes = Some(home.passes);
    answers.stations = home.stations;
    answers.spots = spots;
    answers.lost = home.lost;
}
