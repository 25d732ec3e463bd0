//! The callback of a number is handled, with a commit before a second try where there is no room for the first.
ghost use Rattle.std.specs.Prelude.{◌≡◌, ◌+◌, ◌≤◌, ◌^◌, Some};
ghost use Rattle.nl_core.specs.Calls.{FailureIsCounted, KeepsLines};
ghost use Rattle.nl_core.specs.Core.{IsCore, begun_of};
ghost use Rattle.nl_core.specs.Goes.{PreservesVolume};
ghost use Rattle.nl_core.specs.Handling.{HandlesCallback, HandlesWithRoom, TriesNumber, duty_of};
ghost use Rattle.nl_meta_running.specs.Running.{RunningIsRight};

use crate::state::Core;
use nl_core_callbacks::laws::trees_stay;
use nl_core_callbacks::{Drained, handle_one};
use nl_iface::MovingPages;
use nl_journal::Committing;
use nl_spec_commits::laws::device_stands;
use nl_tree::DutyAnswer;

impl<D: MovingPages> Core<D> {
    /// Handles the pending callback of a number: whoever holds its page has the name of its new place. Where the dirty pages lack room
    /// for that, a commit comes first. `Nothing` exactly where no callback of that number is pending.
    pub fn handle(&mut self, number: u64) -> DutyAnswer
        requires core { IsCore D.Counts self.old }
        requires writes { self.old.stopped ≡ 0 }
        requires stamp { D.next_stamp self.old.device + 512 ≤ 2 ^ 63 }
        ensures core { IsCore D.Counts self.new }
        ensures goes { PreservesVolume D.Counts 512 self.old self.new }
        ensures handles { HandlesCallback D.Counts number self.old self.new result }
        ensures lines { KeepsLines self.old self.new }
        ensures faults { FailureIsCounted D.Counts (result ≡ DutyAnswer.Fault) self.old self.new }
    {
        match self.handle_once(number) {
            None => DutyAnswer::Nothing,
            Some(Drained::Done) => DutyAnswer::Did,
            Some(Drained::NoRoom) => self.handle_with_room(number),
            Some(Drained::Fault) => DutyAnswer::Fault,
            Some(Drained::Lost { wanted, found }) => DutyAnswer::Lost { wanted, found },
        }
    }

    // Commits, and handles the callback of a number that is still pending then.
    fn handle_with_room(&mut self, number: u64) -> DutyAnswer
        requires core { IsCore D.Counts self.old }
        requires writes { self.old.stopped ≡ 0 }
        requires stamp { D.next_stamp self.old.device + 512 ≤ 2 ^ 63 }
        ensures core { IsCore D.Counts self.new }
        ensures goes { PreservesVolume D.Counts 512 self.old self.new }
        ensures handles { HandlesWithRoom D.Counts number self.old self.new result }
        ensures lines { KeepsLines self.old self.new }
        ensures faults { FailureIsCounted D.Counts (result ≡ DutyAnswer.Fault) self.old self.new }
    {
        match self.commit() {
            Committing::Done(_) => {
                let tried = self.handle_once(number);
                answer_of(tried)
            }
            Committing::Lost { wanted, found } => DutyAnswer::Lost { wanted, found },
            Committing::Fault => DutyAnswer::Fault,
        }
    }

    // Handles the pending callback of a number, where there is one, if its pointer can be made dirty or stands elsewhere.
    fn handle_once(&mut self, number: u64) -> Option<Drained>
        requires core { IsCore D.Counts self.old }
        ensures core { IsCore D.Counts self.new }
        ensures goes { PreservesVolume D.Counts 0 self.old self.new }
        ensures tries { TriesNumber D.Counts (begun_of self.old + 1) number self.old self.new result }
        ensures faults { FailureIsCounted D.Counts (result ≡ Some Drained.Fault) self.old self.new }
    {
        trees_stay();
        device_stands(&self.device);
        let mark = self.mark();
        let tried = self.try_callback(number, mark);
        device_stands(&self.device);
        tried
    }

    // One try to handle a callback. It only reads, so no write can fail.
    fn try_callback(&mut self, number: u64, mark: u64) -> Option<Drained>
        requires formed { D.formed self.old.device }
        requires runs { RunningIsRight D.Counts self.old.device self.old.meta }
        requires shape { self.old.shape ≡ D.shape self.old.device }
        ensures formed { D.formed self.new.device }
        ensures tries { TriesNumber D.Counts mark number self.old self.new result }
    {
        match self.device.callback(number) {
            None => None,
            Some(callback) => Some(handle_one(
                &callback,
                &self.shape,
                &mut self.device,
                &mut self.meta,
                &mut self.nodes,
                &mut self.flight,
                &mut self.freeing,
                mark,
            )),
        }
    }
}

// What a try answers after which no page is dirty.
fn answer_of(tried: Option<Drained>) -> DutyAnswer
    ensures { result ≡ duty_of tried }
{
    match tried {
        None | Some(Drained::Done | Drained::NoRoom) => DutyAnswer::Did,
        Some(Drained::Fault) => DutyAnswer::Fault,
        Some(Drained::Lost { wanted, found }) => DutyAnswer::Lost { wanted, found },
    }
}
