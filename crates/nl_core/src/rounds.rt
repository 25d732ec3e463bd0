//! A round of reclaiming: callbacks are handled, the metadata is committed, and one victim is cleaned.
ghost use Rattle.std.specs.Prelude.{◌≡◌, ◌↔◌, ◌≤◌, ◌+◌, ◌^◌, [], false};
ghost use Rattle.nl_core.specs.Calls.{FailureIsCounted, KeepsLines};
ghost use Rattle.nl_core.specs.Core.{IsCore, names_of};
ghost use Rattle.nl_core_callbacks.specs.Handled.{AllHandled};
ghost use Rattle.nl_core.specs.Goes.{PreservesVolume};
ghost use Rattle.nl_core.specs.Rounds.{EmptiesTable, HandlesAll, IfRounded, ReclaimPassIsDone};

use crate::state::Core;
use nl_core_clean::Cleaned;
use nl_core_clean::laws::a_cleaning_is_of_a_round;
use nl_iface::MovingPages;
use nl_journal::Committing;
use nl_spec_commits::laws::device_stands;
use nl_tree::DutyAnswer;

/// What a round of reclaiming answers.
#[derive(Clone, Copy, Debug, PartialEq, Eq)]
pub enum Rounded {
    /// The round is done.
    Done,
    /// A page that was read does not hold the wanted number: `found` is another one, 0 where it holds none.
    Lost { wanted: u64, found: u64 },
    /// The medium failed.
    Fault,
}

impl<D: MovingPages> Core<D> {
    /// One round of reclaiming: each pending callback is handled, the metadata is committed where a page awaits its free or an old name
    /// stands, and one victim is cleaned, where there is one. Each callback that is pending afterwards was posted in the round, and each
    /// old name belongs to one of them.
    pub fn round(&mut self) -> Rounded
        requires core { IsCore D.Counts self.old }
        requires writes { self.old.stopped ≡ 0 }
        requires stamp { D.next_stamp self.old.device + 2 ^ 20 ≤ 2 ^ 63 }
        ensures core { IsCore D.Counts self.new }
        ensures goes { PreservesVolume D.Counts (2 ^ 20) self.old self.new }
        ensures lines { KeepsLines self.old self.new }
        ensures rounds { IfRounded D.tells (ReclaimPassIsDone D.Counts D.MovingPages.own self.old self.new) result }
        ensures faults { FailureIsCounted D.Counts (result ≡ Rounded.Fault) self.old self.new }
    {
        match self.empty_table() {
            Rounded::Done => {
                a_cleaning_is_of_a_round();
                device_stands(&self.device);
                match self.clean() {
                    Cleaned::Done | Cleaned::Nothing => Rounded::Done,
                    Cleaned::Lost { wanted, found } => Rounded::Lost { wanted, found },
                    Cleaned::Fault => Rounded::Fault,
                }
            }
            answer => answer,
        }
    }

    // Each pending callback is handled, and the metadata committed where a page awaits its free or an old name stands.
    fn empty_table(&mut self) -> Rounded
        requires core { IsCore D.Counts self.old }
        requires writes { self.old.stopped ≡ 0 }
        requires stamp { D.next_stamp self.old.device + 2 ^ 20 ≤ 2 ^ 63 }
        ensures core { IsCore D.Counts self.new }
        ensures goes { PreservesVolume D.Counts (2 ^ 20) self.old self.new }
        ensures lines { KeepsLines self.old self.new }
        ensures emptied { IfRounded D.tells (EmptiesTable D.Counts self.old self.new) result }
        ensures faults { FailureIsCounted D.Counts (result ≡ Rounded.Fault) self.old self.new }
    {
        match self.handle_all() {
            Rounded::Done => self.commit_if_due(),
            answer => answer,
        }
    }

    // Handles the pending callbacks that no transaction has handled, in the order of their numbers.
    fn handle_all(&mut self) -> Rounded
        requires core { IsCore D.Counts self.old }
        requires writes { self.old.stopped ≡ 0 }
        requires stamp { D.next_stamp self.old.device + 2 ^ 20 ≤ 2 ^ 63 }
        ensures core { IsCore D.Counts self.new }
        ensures goes { PreservesVolume D.Counts (2 ^ 19) self.old self.new }
        ensures lines { KeepsLines self.old self.new }
        ensures handles { IfRounded D.tells (HandlesAll D.Counts self.old self.new) result }
        ensures faults { FailureIsCounted D.Counts (result ≡ Rounded.Fault) self.old self.new }
    {
        device_stands(&self.device);
        'each: while let Some(number) = self.device.least() {
            device_stands(&self.device);
            match self.handle(number) {
                DutyAnswer::Did | DutyAnswer::Nothing => {}
                DutyAnswer::Lost { wanted, found } => return Rounded::Lost { wanted, found },
                DutyAnswer::Fault => return Rounded::Fault,
            }
            if self.stopped != 0 {
                return Rounded::Fault;
            }
        }
        Rounded::Done
    }

    // Commits where a page awaits its free, or an old name stands in the table. Each callback was handled.
    fn commit_if_due(&mut self) -> Rounded
        requires core { IsCore D.Counts self.old }
        requires writes { self.old.stopped ≡ 0 }
        requires stamp { D.next_stamp self.old.device + 512 ≤ 2 ^ 63 }
        requires handled { AllHandled (names_of D.Counts self.old) }
        ensures core { IsCore D.Counts self.new }
        ensures goes { PreservesVolume D.Counts 512 self.old self.new }
        ensures lines { KeepsLines self.old self.new }
        ensures emptied { IfRounded D.tells (EmptiesTable D.Counts self.old self.new) result }
        ensures faults { FailureIsCounted D.Counts (result ≡ Rounded.Fault) self.old self.new }
    {
        if !self.is_due() {
            return Rounded::Done;
        }
        match self.commit() {
            Committing::Done(_) => {
                self.device.stands();
                if self.stopped != 0 {
                    return Rounded::Fault;
                }
                Rounded::Done
            }
            Committing::Lost { wanted, found } => Rounded::Lost { wanted, found },
            Committing::Fault => Rounded::Fault,
        }
    }

    // A page awaits its free, or an old name stands in the table.
    fn is_due(&self) -> bool
        ensures { result ≡ false ↔ ((names_of D.Counts self.now).space.pairs ≡ 0) × (self.now.freeing.items ≡ []) }
    {
        self.device.pairs() != 0 || self.freeing.len() != 0
    }
}
