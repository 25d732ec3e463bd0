//! The loops of the cleaner and the handler, a turn for each background task.
ghost use Rattle.std.specs.Prelude.{◌≡◌, ◌<◌, ◌||◌, true, false};
ghost use Rattle.nl_turns.specs.Served.{duty_entry, is_lost_duty};
ghost use Rattle.nl_workers.specs.Placed.{HasPassed};
ghost use Rattle.nl_workers.specs.Gates.{told_of_task};
ghost use Rattle.nl_workers.specs.declared.gate.GatePlace.TheVariants as place;
ghost use Rattle.nl_workers.specs.Duties.{MayClean, HasCleaned, MayHandle, HasHandled, is_copy};

use crate::gate::{Gate, GatePlace, Told, tell};
use crate::outbox::Outbox;
use crate::stop::StopFlag;
use nl_callbacks::{NoticePass, Notices};
use nl_tree::{Duty, DutyAnswer};
use nl_turns::{Entry, Served, TurnSeat, Turns};
use std::sync::Wait;
use std::thread;

/// The cleaner's number at the gate.
const CLEANER: u8 = 8;

/// The handler's number at the gate.
const HANDLER: u8 = 9;

/// The cleaner copies while fewer blocks than these are free.
const FEW_BLOCKS: u32 = 6;

/// The cleaner rests at most so many microseconds between two turns.
const MOST_RESTS: u32 = 1023;

/// The cleaner sleeps where it rests longer than so many microseconds.
const FEW_RESTS: u32 = 31;

/// The handler sleeps behind so many looks in a row that found no callback.
const FEW_LOOKS: u32 = 31;

/// What the loop of the cleaner has in hand, and whether one of its tasks found a page without the wanted stamp.
#[derive(Drop)]
pub(crate) struct Cleaner {
    pub(crate) seat: TurnSeat,
    pub(crate) outbox: Outbox,
    pub(crate) lost: bool,
}

/// What the loop of the handler has in hand, and whether one of its tasks found a page without the wanted stamp.
#[derive(Drop)]
pub(crate) struct Handler {
    pub(crate) seat: TurnSeat,
    pub(crate) pass: NoticePass,
    pub(crate) lost: bool,
}

/// What a turn of the cleaner did.
#[derive(Drop)]
struct Cleaned {
    task: Duty,
    answer: DutyAnswer,
    /// The number of the last callback.
    posted: u64,
}

fn is_lost_now(lost: bool, answer: DutyAnswer) -> bool
    ensures { result ≡ (lost || is_lost_duty answer) }
{
    lost || matches!(answer, DutyAnswer::Lost { .. })
}

/// The wanted task, but no copy while there are blocks enough.
fn fitting(wanted: Duty, free_blocks: u32) -> Duty
    ensures few { is_copy result ≡ true → free_blocks < 6 }
    ensures wanted { free_blocks < 6 → result ≡ wanted }
    ensures other { is_copy wanted ≡ false → result ≡ wanted }
{
    if matches!(wanted, Duty::Copy) && free_blocks >= FEW_BLOCKS {
        return Duty::Erase;
    }
    wanted
}

/// Copies go on as long as they do something. Then comes an erase, and then the look at the coldest block.
fn next_task(task: Duty, answer: DutyAnswer) -> Duty
    ensures copies { task ≡ Duty.Copy → answer ≡ DutyAnswer.Did → result ≡ Duty.Copy }
    ensures erases { task ≡ Duty.Copy → (answer ≡ DutyAnswer.Did → ⊥) → result ≡ Duty.Erase }
    ensures levels { task ≡ Duty.Erase → result ≡ Duty.Level }
    ensures again { task ≡ Duty.Level → result ≡ Duty.Copy }
{
    match (task, answer) {
        (Duty::Copy, DutyAnswer::Did) => Duty::Copy,
        (Duty::Copy, _) => Duty::Erase,
        (Duty::Erase, _) => Duty::Level,
        _ => Duty::Copy,
    }
}

#[tactic(auto, using(crate::proofs::Serving::not_lost))]
/// One turn with the wanted task, or another one where no copy is due.
fn clean_turn<V: Served, R: Wait>(
    rt: &R,
    turns: &Turns<V>,
    seat: &mut TurnSeat,
    wanted: Duty,
) -> Cleaned
    requires lock { seat.old.lock ≡ turns.now.name }
    requires idle { seat.old.has_turn ≡ false }
    ensures passed { HasPassed seat.old (duty_entry result.answer) seat.new }
    ensures lost { V.tells → is_lost_duty result.answer ≡ false }
{
    let mut turn = turns.take(rt, seat);
    let task = fitting(wanted, turn.value.free_blocks());
    let answer = turn.value.duty(task);
    let posted = turn.value.posted();
    turns.pass(seat, turn, Entry::of_duty(answer));
    Cleaned {
        task,
        answer,
        posted,
    }
}

#[tactic(auto, using(crate::proofs::Serving::not_lost))]
/// One turn with a callback.
fn handle_turn<V: Served, R: Wait>(
    rt: &R,
    turns: &Turns<V>,
    seat: &mut TurnSeat,
    number: u64,
) -> DutyAnswer
    requires lock { seat.old.lock ≡ turns.now.name }
    requires idle { seat.old.has_turn ≡ false }
    ensures passed { HasPassed seat.old (duty_entry result) seat.new }
    ensures lost { V.tells → is_lost_duty result ≡ false }
{
    let mut turn = turns.take(rt, seat);
    let answer = turn.value.duty(Duty::Handle(number));
    turns.pass(seat, turn, Entry::of_duty(answer));
    answer
}

/// Tells the gate of a task that did something, and else lets others run.
fn rest<G: Gate>(gate: &G, worker: u8, answer: DutyAnswer) -> Option<Told>
    ensures told { result ≡ told_of_task worker answer }
    ensures heard { answer ≡ DutyAnswer.Did → G.heard gate.now worker 0 place.After }
{
    if matches!(answer, DutyAnswer::Did) {
        Some(tell(gate, worker, 0, GatePlace::After))
    } else {
        thread::yield_now();
        None
    }
}

/// How long the cleaner rests before its next turn: not at all behind a task that did something, and else about twice as long as before.
fn rests_after(rests: u32, answer: DutyAnswer) -> u32 {
    if matches!(answer, DutyAnswer::Did) {
        0
    } else {
        rests.min(MOST_RESTS / 2) * 2 + 1
    }
}

/// Lets others run so many times, or about so many microseconds where these are many, but no longer than until the flag is raised.
fn pause<R: Wait>(rt: &R, stop: &StopFlag, rests: u32) {
    let rings = stop.rings();
    if rests > FEW_RESTS && !stop.is_raised() {
        stop.nap(rt, rings, rests);
        return;
    }
    for _ in 0..rests {
        if stop.is_raised() {
            return;
        }
        thread::yield_now();
    }
}

/// Waits behind a look that found no callback: lets others run, or sleeps until the bell is rung once more than it was before that look.
/// Answers how many such looks there were in a row since the last sleep.
fn wait_for_notice<R: Wait>(rt: &R, stop: &StopFlag, rings: u32, looks: u32) -> u32 {
    if looks < FEW_LOOKS {
        thread::yield_now();
        return looks + 1;
    }
    stop.sleep(rt, rings);
    0
}

#[tactic(auto, using(crate::proofs::Serving::handles_none))]
/// Handles callbacks by the numbers that come, until the flag is raised.
pub(crate) fn handle<V: Served, R: Wait, G: Gate>(
    rt: &R,
    turns: &Turns<V>,
    mut handler: Handler,
    stop: &StopFlag,
    notices: &Notices,
    gate: &G,
) -> Handler
    requires { MayHandle turns.now.name notices.now handler }
    ensures { HasHandled V.tells notices.now handler result }
{
    let mut looks = 0;
    for _ in rt.forever() {
        let rings = stop.rings();
        if stop.is_raised() {
            return handler;
        }
        match notices.take(rt, &mut handler.pass) {
            Some(number) => {
                let answer = handle_turn(rt, turns, &mut handler.seat, number);
                handler.lost = is_lost_now(handler.lost, answer);
                rest(gate, HANDLER, answer);
                looks = 0;
            }
            None => looks = wait_for_notice(rt, stop, rings, looks),
        }
    }
    unreachable!()
}

#[tactic(auto, using(crate::proofs::Serving::cleans_none))]
/// Cleans until the flag is raised, and sends the number of each new callback. While there is nothing to do its turns come more and more
/// seldom, so that workers need not wait for them.
pub(crate) fn clean<V: Served, R: Wait, G: Gate>(
    rt: &R,
    turns: &Turns<V>,
    mut cleaner: Cleaner,
    stop: &StopFlag,
    notices: &Notices,
    gate: &G,
) -> Cleaner
    requires { MayClean turns.now.name notices.now cleaner }
    ensures { HasCleaned V.tells notices.now cleaner result }
{
    let mut wanted = Duty::Copy;
    let mut rests = 0;
    for _ in rt.forever() {
        pause(rt, stop, rests);
        if stop.is_raised() {
            return cleaner;
        }
        let cleaned = clean_turn(rt, turns, &mut cleaner.seat, wanted);
        cleaner.lost = is_lost_now(cleaner.lost, cleaned.answer);
        let sent = cleaner.outbox.last;
        cleaner.outbox.send_up_to(rt, notices, cleaned.posted);
        if cleaner.outbox.last != sent {
            stop.ring();
        }
        rest(gate, CLEANER, cleaned.answer);
        wanted = next_task(cleaned.task, cleaned.answer);
        rests = rests_after(rests, cleaned.answer);
    }
    unreachable!()
}
