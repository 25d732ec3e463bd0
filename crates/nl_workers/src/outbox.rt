//! The cleaner's end of the queue on which it sends the numbers of callbacks.
ghost use Rattle.std.specs.Prelude.{◌≡◌, ◌≤◌, max};
ghost use Rattle.nl_workers.specs.Duties.{IsOutbox};

use nl_callbacks::{NoticePass, Notices};
use std::sync::Wait;

/// The cleaner's end of a queue of notices, with the number of the last callback that it sent. It sends each number from 1 on once, in
/// order.
#[derive(Drop)]
pub(crate) struct Outbox {
    pub(crate) pass: NoticePass,
    pub(crate) last: u64,
}

impl Outbox {
    /// Sends the numbers up to the last callback's that were not sent yet, as far as the queue has room.
    pub(crate) fn send_up_to<R: Wait>(&mut self, rt: &R, notices: &Notices, posted: u64)
        requires { IsOutbox notices.now self.old }
        ensures outbox { IsOutbox notices.now self.new }
        ensures range { (self.old.last ≤ self.new.last) × (self.new.last ≤ max self.old.last posted) }
    {
        for number in self.last..posted {
            if !notices.send(rt, &mut self.pass, number + 1) {
                return;
            }
            self.last = number + 1;
        }
    }
}
