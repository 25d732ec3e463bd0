// Rows of calls on callbacks that wait for their transaction, and the queue of their numbers.
ghost use Rattle.nl_callbacks.specs.Notices.{IsSender, IsTaker};

use nl_callbacks::{NoticePass, Notices, Pending};
use nl_field::Tag;
use nl_iface::Callback;
use std::alloc::Global;
use std::sync::Wait;

#[derive(Clone, Copy)]
enum Step {
    Post(u32, u32, u64),
    Posted,
    Get(u64),
    Least,
    Handled(u64, u64),
    AcknowledgeNext(u64),
    Cancel(u32),
    Room,
}

#[derive(Clone, Copy, PartialEq)]
enum Answer {
    Number(u64),
    Yes,
    No,
    Found(Callback),
    /// The call has a condition that does not hold.
    Unmet,
}

const TAG: Tag = Tag {
    ino: 3,
    generation: 1,
    index: 5,
};

fn yes(answer: bool) -> Answer {
    if answer { Answer::Yes } else { Answer::No }
}

fn run(pending: &mut Pending, step: Step) -> Answer {
    match step {
        Step::Post(old, new, stamp) => {
            if pending.room() == 0 {
                return Answer::Unmet;
            }
            Answer::Number(pending.post(old, new, TAG, stamp))
        }
        Step::Posted => Answer::Number(pending.posted()),
        Step::Get(number) => match pending.get(number) {
            Some(callback) => Answer::Found(callback),
            None => Answer::No,
        },
        Step::Least => match pending.least() {
            Some(number) => Answer::Number(number),
            None => Answer::No,
        },
        Step::Handled(number, transaction) => yes(pending.handled(number, transaction)),
        Step::AcknowledgeNext(upto) => match pending.acknowledge_next(upto) {
            Some(name) => Answer::Number(name as u64),
            None => Answer::No,
        },
        Step::Cancel(name) => yes(pending.cancel(name)),
        Step::Room => Answer::Number(pending.room() as u64),
    }
}

/// The first row that is answered otherwise.
fn differs(pending: &mut Pending, table: &[(Step, Answer)]) -> Option<usize> {
    for row in 0..table.len() {
        let (step, want) = table[row];
        if run(pending, step) != want {
            return Some(row);
        }
    }
    None
}

const WAITING: [(Step, Answer); 36] = [
    (Step::Posted, Answer::Number(0)),
    (Step::Least, Answer::No),
    (Step::AcknowledgeNext(9), Answer::No),
    (Step::Cancel(70), Answer::No),
    (Step::Handled(1, 5), Answer::No),
    (Step::Post(70, 80, 21), Answer::Number(1)),
    (Step::Post(40, 81, 22), Answer::Number(2)),
    (Step::Post(90, 82, 23), Answer::Number(3)),
    (Step::Post(10, 83, 24), Answer::Number(4)),
    (Step::Post(11, 84, 25), Answer::Unmet),
    (Step::Posted, Answer::Number(4)),
    (
        Step::Get(2),
        Answer::Found(Callback {
            number: 2,
            before: 40,
            after: 81,
            tag: TAG,
            stamp: 22,
        }),
    ),
    (Step::Get(5), Answer::No),
    (Step::Least, Answer::Number(1)),
    (Step::Handled(1, 7), Answer::Yes),
    // The earlier transaction stays.
    (Step::Handled(1, 9), Answer::Yes),
    (Step::Least, Answer::Number(2)),
    (Step::Handled(3, 6), Answer::Yes),
    (Step::AcknowledgeNext(5), Answer::No),
    (Step::AcknowledgeNext(7), Answer::Number(90)),
    (Step::AcknowledgeNext(6), Answer::No),
    (Step::AcknowledgeNext(7), Answer::Number(70)),
    (Step::AcknowledgeNext(7), Answer::No),
    (Step::Get(1), Answer::No),
    (Step::Handled(1, 8), Answer::No),
    (Step::Room, Answer::Number(2)),
    (Step::Cancel(40), Answer::Yes),
    (Step::Cancel(40), Answer::No),
    (Step::Least, Answer::Number(4)),
    // A handled callback can be cancelled too.
    (Step::Handled(4, 8), Answer::Yes),
    (Step::Least, Answer::No),
    (Step::Cancel(10), Answer::Yes),
    (Step::AcknowledgeNext(8), Answer::No),
    (Step::Post(10, 85, 26), Answer::Number(5)),
    (Step::Least, Answer::Number(5)),
    (Step::Posted, Answer::Number(5)),
];

#[test]
fn callbacks_wait_for_their_transaction(rt: HostRuntime) {
    let mut pending = Pending::new(rt.alloc(), 4).expect(&rt, "there is memory");
    assert_eq!(rt; differs(&mut pending, &WAITING), None);
}

/// What sends of 7, 5, 9 and 9 answer, and what takes before the first and before the last one give.
fn sends(
    rt: &impl Wait,
    notices: &Notices,
    sender: &mut NoticePass,
    taker: &mut NoticePass,
) -> ([bool; 4], [Option<u64>; 2])
    requires sender { IsSender notices.now sender.old }
    requires taker { IsTaker notices.now taker.old }
    ensures sender { IsSender notices.now sender.new }
    ensures taker { IsTaker notices.now taker.new }
{
    let none = notices.take(rt, taker);
    let first = notices.send(rt, sender, 7);
    let second = notices.send(rt, sender, 5);
    let over = notices.send(rt, sender, 9);
    let taken = notices.take(rt, taker);
    let last = notices.send(rt, sender, 9);
    ([first, second, over, last], [none, taken])
}

/// What three takes give.
fn takes(rt: &impl Wait, notices: &Notices, taker: &mut NoticePass) -> [Option<u64>; 3]
    requires { IsTaker notices.now taker.old }
{
    let first = notices.take(rt, taker);
    let second = notices.take(rt, taker);
    [first, second, notices.take(rt, taker)]
}

/// What the calls on a queue of two numbers answer before its passes meet, and then.
fn noticed(
    alloc: Global,
    rt: &impl Wait,
) -> Option<(([bool; 4], [Option<u64>; 2]), [Option<u64>; 3])> {
    let (notices, mut sender, mut taker) = Notices::new(alloc, 2).ok()?;
    let before = sends(rt, &notices, &mut sender, &mut taker);
    let mut taker = notices.meet(&mut sender, taker);
    Some((before, takes(rt, &notices, &mut taker)))
}

#[test]
fn notices_come_in_order(rt: HostRuntime) {
    let before = ([true, true, false, true], [None, Some(7)]);
    assert_eq!(rt;
        noticed(rt.alloc(), &rt),
        Some((before, [Some(5), Some(9), None]))
    );
}
