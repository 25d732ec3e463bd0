ghost use Rattle.std.specs.Prelude.{◌≡◌, ◌≢◌, ◌⊎◌, ◌↔◌, ◌<◌, ◌^◌, ℕ, true, false, IsTrue};
ghost use Rattle.nl_core.specs.Calls.{CommitsAll, CommitsNot, FailureIsCounted};
ghost use Rattle.nl_core.specs.Core.{IsCore};
ghost use Rattle.nl_core.specs.Goes.{PreservesVolume};

use nl_core::Core;
use nl_iface::MovingPages;
use nl_journal::Committing;

/// How the last commit ended.
#[derive(Clone, Copy, Debug)]
pub enum Last {
    /// All calls are committed.
    Done,
    /// The volume cannot be written to.
    Left,
    /// A page did not hold the write sequence number that was wanted.
    Lost,
    /// An operation of the medium failed.
    Fault,
}

/// Commits once, unless the volume is read-only or worn.
pub fn commit_last<D: MovingPages>(core: &mut Core<D>, worn: bool) -> Last
    requires core { IsCore D.Counts core.old }
    requires stamp { worn ≡ false → D.next_stamp core.old.device < 2 ^ 62 }
    ensures core { IsCore D.Counts core.new }
    ensures goes { PreservesVolume D.Counts 512 core.old core.new }
    ensures left { result ≡ Last.Left → core.new ≡ core.old }
    ensures why { result ≡ Last.Left ↔ (worn ≡ true) ⊎ (core.old.stopped ≢ 0) }
    ensures commits { result ≡ Last.Done → (number : ℕ) × CommitsAll D.Counts core.old core.new number }
    ensures fault { FailureIsCounted D.Counts (result ≡ Last.Fault) core.old core.new }
    ensures lost { D.tells → result ≢ Last.Lost }
    ensures meets { result ≡ Last.Lost → CommitsNot D.Counts core.old core.new × (D.tells → ⊥) }
{
    if worn || core.stopped != 0 {
        return Last::Left;
    }
    match core.commit() {
        Committing::Done(_) => Last::Done,
        Committing::Lost { .. } => Last::Lost,
        Committing::Fault => Last::Fault,
    }
}

/// Whether it ended with a failure.
pub fn is_fault(last: Last) -> bool
    ensures { IsTrue result ↔ last ≡ Last.Fault }
{
    match last {
        Last::Fault => true,
        _ => false,
    }
}

/// Whether it ended with a page that was lost.
pub fn is_lost(last: Last) -> bool
    ensures { IsTrue result ↔ last ≡ Last.Lost }
{
    match last {
        Last::Lost => true,
        _ => false,
    }
}
