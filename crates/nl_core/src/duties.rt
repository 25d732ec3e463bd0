//! The background tasks of a core.
ghost use Rattle.std.specs.Prelude.{◌≡◌, ◌↔◌, ◌+◌, ◌≤◌, ◌<◌, ◌^◌, IsTrue, if◌then◌else◌};
ghost use Rattle.nl_core.specs.Calls.{FailureIsCounted, KeepsLines};
ghost use Rattle.nl_core.specs.Core.{IsCore};
ghost use Rattle.nl_core.specs.Duties.{RunsBackgroundTask, DoesTask, HasNothingToDo, IsAtRest, duty_of_commit, duty_of_copy, duty_of_erase};
ghost use Rattle.nl_core.specs.Goes.{PreservesVolume};

use crate::state::Core;
use nl_iface::{Copying, Erasing, MovingPages};
use nl_journal::Committing;
use nl_spec_commits::laws::device_stands;
use nl_tree::{Duty, DutyAnswer};

// The write sequence number from which on a volume is worn.
const WORN: u64 = 1 << 62;

impl<D: MovingPages> Core<D> {
    /// Does one background task. `Nothing` comes exactly where the volume is read-only or its write sequence numbers are exhausted, or the
    /// task has nothing to do.
    pub fn duty(&mut self, which: Duty) -> DutyAnswer
        requires core { IsCore D.Counts self.old }
        ensures core { IsCore D.Counts self.new }
        ensures goes { PreservesVolume D.Counts 512 self.old self.new }
        ensures does { RunsBackgroundTask D.Counts D.MovingPages.own which self.old self.new result }
        ensures rests { IsAtRest D.Counts self.old → self.new ≡ self.old }
        ensures lines { KeepsLines self.old self.new }
        ensures faults { FailureIsCounted D.Counts (result ≡ DutyAnswer.Fault) self.old self.new }
    {
        if self.is_at_rest() {
            return DutyAnswer::Nothing;
        }
        self.do_task(which)
    }

    // Whether the volume is read-only, or its write sequence numbers are exhausted.
    fn is_at_rest(&self) -> bool
        ensures { IsTrue result ↔ IsAtRest D.Counts self.now }
    {
        self.stopped != 0 || self.device.next_stamp() >= WORN
    }

    // Does one task of a volume that can be written.
    fn do_task(&mut self, which: Duty) -> DutyAnswer
        requires core { IsCore D.Counts self.old }
        requires writes { self.old.stopped ≡ 0 }
        requires stamp { D.next_stamp self.old.device + 512 ≤ 2 ^ 63 }
        ensures core { IsCore D.Counts self.new }
        ensures goes { PreservesVolume D.Counts 512 self.old self.new }
        ensures does { DoesTask D.Counts D.MovingPages.own which self.old self.new result }
        ensures lines { KeepsLines self.old self.new }
        ensures faults { FailureIsCounted D.Counts (result ≡ DutyAnswer.Fault) self.old self.new }
    {
        match which {
            Duty::Copy => self.copy(),
            Duty::Erase => self.erase(),
            Duty::Handle(number) => self.handle(number),
            Duty::Commit => self.commit_changes(),
            Duty::Level => self.level(),
        }
    }

    // Moves one live page of the victim. Where none is in hand, the block with the most dead pages is one from now on.
    fn copy(&mut self) -> DutyAnswer
        requires core { IsCore D.Counts self.old }
        requires writes { self.old.stopped ≡ 0 }
        ensures core { IsCore D.Counts self.new }
        ensures goes { PreservesVolume D.Counts 0 self.old self.new }
        ensures does { DoesTask D.Counts D.MovingPages.own Duty.Copy self.old self.new result }
        ensures lines { KeepsLines self.old self.new }
        ensures faults { FailureIsCounted D.Counts (result ≡ DutyAnswer.Fault) self.old self.new }
    {
        let faults = self.device.write_faults();
        device_stands(&self.device);
        let answer = self.device.copy();
        device_stands(&self.device);
        self.note_fault(faults);
        of_copying(answer)
    }

    // Erases a victim that has no live page.
    fn erase(&mut self) -> DutyAnswer
        requires core { IsCore D.Counts self.old }
        requires writes { self.old.stopped ≡ 0 }
        ensures core { IsCore D.Counts self.new }
        ensures goes { PreservesVolume D.Counts 0 self.old self.new }
        ensures does { DoesTask D.Counts D.MovingPages.own Duty.Erase self.old self.new result }
        ensures lines { KeepsLines self.old self.new }
        ensures faults { FailureIsCounted D.Counts (result ≡ DutyAnswer.Fault) self.old self.new }
    {
        let faults = self.device.write_faults();
        device_stands(&self.device);
        let answer = self.device.erase();
        device_stands(&self.device);
        self.note_fault(faults);
        of_erasure(answer)
    }

    // Commits where a call came since the last commit, or a page is dirty.
    fn commit_changes(&mut self) -> DutyAnswer
        requires core { IsCore D.Counts self.old }
        requires writes { self.old.stopped ≡ 0 }
        requires stamp { D.next_stamp self.old.device + 512 ≤ 2 ^ 63 }
        ensures core { IsCore D.Counts self.new }
        ensures goes { PreservesVolume D.Counts 512 self.old self.new }
        ensures does { DoesTask D.Counts D.MovingPages.own Duty.Commit self.old self.new result }
        ensures lines { KeepsLines self.old self.new }
        ensures faults { FailureIsCounted D.Counts (result ≡ DutyAnswer.Fault) self.old self.new }
    {
        if self.is_committed() {
            return DutyAnswer::Nothing;
        }
        let answer = self.commit();
        of_committing(answer)
    }

    // Whether no call came since the last commit, and no page is dirty.
    fn is_committed(&self) -> bool
        ensures { IsTrue result ↔ HasNothingToDo D.Counts D.MovingPages.own Duty.Commit self.now }
    {
        self.committed == self.count && self.meta.dirty() == 0
    }

    // Takes the least worn block as the victim, where wear has to be levelled.
    fn level(&mut self) -> DutyAnswer
        requires core { IsCore D.Counts self.old }
        requires writes { self.old.stopped ≡ 0 }
        ensures core { IsCore D.Counts self.new }
        ensures goes { PreservesVolume D.Counts 0 self.old self.new }
        ensures does { DoesTask D.Counts D.MovingPages.own Duty.Level self.old self.new result }
        ensures lines { KeepsLines self.old self.new }
        ensures faults { FailureIsCounted D.Counts (result ≡ DutyAnswer.Fault) self.old self.new }
    {
        device_stands(&self.device);
        let begun = self.device.level();
        device_stands(&self.device);
        of_level(begun)
    }
}

fn of_copying(answer: Copying) -> DutyAnswer
    ensures { result ≡ duty_of_copy answer }
{
    match answer {
        Copying::Did => DutyAnswer::Did,
        Copying::Nothing => DutyAnswer::Nothing,
        Copying::Lost { wanted, found } => DutyAnswer::Lost { wanted, found },
        Copying::Fault => DutyAnswer::Fault,
    }
}

fn of_erasure(answer: Erasing) -> DutyAnswer
    ensures { result ≡ duty_of_erase answer }
{
    match answer {
        Erasing::Done => DutyAnswer::Did,
        Erasing::Nothing => DutyAnswer::Nothing,
        Erasing::Fault => DutyAnswer::Fault,
    }
}

fn of_committing(answer: Committing) -> DutyAnswer
    ensures { result ≡ duty_of_commit answer }
{
    match answer {
        Committing::Done(_) => DutyAnswer::Did,
        Committing::Lost { wanted, found } => DutyAnswer::Lost { wanted, found },
        Committing::Fault => DutyAnswer::Fault,
    }
}

fn of_level(begun: bool) -> DutyAnswer
    ensures { result ≡ if begun then DutyAnswer.Did else DutyAnswer.Nothing }
{
    if begun {
        DutyAnswer::Did
    } else {
        DutyAnswer::Nothing
    }
}
