//! The numbers of callbacks, handed from the thread that posts them to the one that handles them.
ghost use Rattle.std.specs.Prelude.{◌≡◌, ℕ, ◌++◌, ◌∷◌, [], List, max, true, false, if◌then◌else◌, length, IfOk, IsNone, MatchOption};
ghost use Rattle.nl_callbacks.specs.Notices.{IsSender, IsTaker, WasFull, WasEmpty, IsFront, known, log, room_of, sent, taken};

use crossbeam_queue::protocol::{Join, Lesson, Outcome, Protocol, Split};
use crossbeam_queue::{Pass, RuledArrayQueue};
use nl_field::Memory;
use std::alloc::Global;
use std::collections::LinkedList;
use std::sync::Wait;

/// What a pass may do, what it has sent and what it has taken, and what it knows to be sent. No value of it is made.
pub struct NoticeLog {
    pub sends: bool,
    pub takes: bool,
    pub sent: LinkedList<u64>,
    pub taken: LinkedList<u64>,
    pub known: LinkedList<u64>,
}

struct InOrder;

impl Protocol<u64, NoticeLog> for InOrder {
    ghost use Rattle.std.specs.Prelude.{true, []};
    ghost use Rattle.nl_callbacks.specs.Notices.{log, Relayed};

    ghost holds = { Relayed };

    ghost first = { log true true [] [] [] };
}

/// The pass that sends and the pass that takes, as a queue begins.
struct Begins;

impl Split<NoticeLog> for Begins {
    ghost use Rattle.std.specs.Prelude.{true, false, []};
    ghost use Rattle.nl_callbacks.specs.Notices.{log};

    ghost left = { λ v. log true false v.sent [] [] };

    ghost right = { λ v. log false true [] v.taken v.sent };
}

/// Both roles in one pass.
struct Both;

impl Join<NoticeLog> for Both {
    ghost use Rattle.std.specs.Prelude.{true, false, []};
    ghost use Rattle.nl_callbacks.specs.Notices.{log};

    ghost both = { λ v w. log true true v.sent w.taken [] };

    ghost spent = { log false false [] [] [] };
}

/// A send, and what a full queue tells of it.
struct Sends;

impl Outcome<u64, NoticeLog> for Sends {
    ghost use Rattle.std.specs.Prelude.{◌≡◌, ◌++◌, ◌∷◌, []};
    ghost use Rattle.nl_callbacks.specs.Notices.{log};

    ghost then = { λ v x w. w ≡ log v.sends v.takes (v.sent ++ x ∷ []) v.taken v.known };
}

impl Lesson<u64, NoticeLog> for Sends {
    ghost use Rattle.nl_callbacks.specs.Notices.{IsBack};

    ghost fact = { λ v items. IsBack items v.sent };
}

/// A take, and what an empty queue tells of it.
struct Takes;

impl Outcome<u64, NoticeLog> for Takes {
    ghost use Rattle.std.specs.Prelude.{◌≡◌, ◌++◌, ◌∷◌, []};
    ghost use Rattle.nl_callbacks.specs.Notices.{log};

    ghost then = { λ v x w. w ≡ log v.sends v.takes v.sent (v.taken ++ x ∷ []) v.known };
}

impl Lesson<u64, NoticeLog> for Takes {
    ghost use Rattle.std.specs.Prelude.{◌++◌};
    ghost use Rattle.nl_callbacks.specs.Notices.{IsFront};

    ghost fact = { λ v items. IsFront v.known (v.taken ++ items) };
}

/// What is in the queue lies between what was taken and what was sent.
struct Between;

impl Lesson<u64, NoticeLog> for Between {
    ghost use Rattle.std.specs.Prelude.{◌≡◌, ◌++◌};

    ghost fact = { λ v items. v.sent ≡ v.taken ++ items };
}

type Line = RuledArrayQueue<u64, NoticeLog, InOrder>;

/// A bounded queue of numbers, for one thread that sends and one that takes.
#[derive(Drop)]
pub struct Notices {
    queue: Line,
}

/// The leave to send to a queue, or to take from it.
#[derive(Drop)]
pub struct NoticePass {
    pass: Pass<u64, NoticeLog>,
}

impl Notices {
    /// An empty queue with room for so many numbers, at least one; the pass that sends and the pass that takes.
    pub fn new(alloc: Global, room: u32) -> Result<(Notices, NoticePass, NoticePass), Memory>
        ensures sender { IfOk result (λ q. IsSender q.0 q.1 × (sent q.1 ≡ [])) }
        ensures taker { IfOk result (λ q. IsTaker q.0 q.2 × (taken q.2 ≡ [])) }
        ensures room { IfOk result (λ q. room_of q.0 ≡ max room 1) }
    {
        let (queue, mut sender) = Line::ruled(alloc, room.max(1) as usize)?;
        let taker = queue.another::<Begins>(&mut sender);
        Ok((
            Notices { queue },
            NoticePass { pass: sender },
            NoticePass { pass: taker },
        ))
    }

    /// Sends a number. False where the queue was full at a step of this call. Of that the clause says what the sender sees: at least as
    /// many numbers were sent before as the queue has room for.
    pub fn send<R: Wait>(&self, rt: &R, pass: &mut NoticePass, number: u64) -> bool
        requires { IsSender self.now pass.old }
        ensures sender { IsSender self.now pass.new }
        ensures sent { sent pass.new ≡ (if result then sent pass.old ++ number ∷ [] else sent pass.old) }
        ensures full { result ≡ false → WasFull (room_of self.now) (sent pass.old) }
    {
        self.queue
            .push_as::<Sends, R>(rt, &mut pass.pass, number)
            .is_ok()
    }

    /// Takes the first number that was sent and not taken. None only where the queue was empty at a step of this call: all
    /// that the pass knows to be sent were taken.
    pub fn take<R: Wait>(&self, rt: &R, pass: &mut NoticePass) -> Option<u64>
        requires { IsTaker self.now pass.old }
        ensures taker { IsTaker self.now pass.new }
        ensures known { known pass.new ≡ known pass.old }
        ensures taken { MatchOption result (taken pass.new ≡ taken pass.old) (λ x. taken pass.new ≡ taken pass.old ++ x ∷ []) }
        ensures empty { IsNone result → WasEmpty (known pass.old) (taken pass.old) }
    {
        self.queue.pop_as::<Takes, R>(rt, &mut pass.pass)
    }

    /// Brings both passes together. What was taken is the front of what was sent: in order, each sending once. The pass that
    /// takes then knows all that was sent.
    pub fn meet(&self, sender: &mut NoticePass, taker: NoticePass) -> NoticePass
        requires { IsSender self.now sender.old × IsTaker self.now taker }
        ensures sender { IsSender self.now sender.new × (sent sender.new ≡ sent sender.old) }
        ensures taker { IsTaker self.now result × (taken result ≡ taken taker) }
        ensures front { IsFront (taken taker) (sent sender.old) }
        ensures known { known result ≡ sent sender.old }
    {
        let NoticePass { pass } = taker;
        self.queue.absorb::<Both>(&mut sender.pass, pass);
        self.queue.learn_as::<Between>(&mut sender.pass);
        let pass = self.queue.another::<Begins>(&mut sender.pass);
        NoticePass { pass }
    }
}
