//! One victim is cleaned whole: the calls of cleaning, one after the other, until it is erased.
ghost use Rattle.std.specs.Prelude.{◌≡◌, ◌↔◌, ◌⊎◌, ℕ, Some};
ghost use Rattle.nl_core_clean.specs.Carried.{KeepsHeld, KeepsStored};
ghost use Rattle.nl_core_clean.specs.Spaces.{CleansVictim, HasEmptied};
ghost use Rattle.nl_core_clean.specs.Victim.{CleansBlock};
ghost use Rattle.nl_field.specs.CrashStates.{Rose};
ghost use Rattle.nl_iface.specs.Calls.{CallCounted, OnlyReads, Ticks, stored};
ghost use Rattle.nl_iface.specs.Moves.{HasNothingToCopy};
ghost use Rattle.nl_iface.specs.Names.{LivePage};
ghost use Rattle.nl_iface.specs.Space.{CanLand};
ghost use Rattle.nl_iface.specs.Victims.{StaysOrTakes};

use nl_iface::{Copying, Erasing, MovingPages};

/// What the cleaning of one victim answers.
#[derive(Clone, Copy, Debug, PartialEq, Eq)]
pub enum Cleaned {
    /// A victim was moved and erased.
    Done,
    /// No victim was in hand, and none could be begun.
    Nothing,
    /// A page of the victim does not hold the wanted number: `found` is another one, 0 where it holds none.
    Lost { wanted: u64, found: u64 },
    /// The medium failed.
    Fault,
}

/// Cleans one victim: the one in hand, or else the block with the most dead pages. Its live pages are moved, and it is erased. It
/// needs that the live pages of the victim can land, and they still can, but where a write failed and it is not done.
///
/// Each holder of a page holds it as before, also in what a stop within leaves. `Lost` and `Fault` leave the victim in hand, and
/// the next call goes on with it.
pub fn clean<D: MovingPages>(device: &mut D) -> Cleaned
    requires formed { D.formed device.old }
    requires lands { CanLand (D.names device.old).space }
    ensures formed { D.formed device.new }
    ensures nothing { let space = (D.names device.old).space in result ≡ Cleaned.Nothing ↔ (HasNothingToCopy space × (space.victim ≡ 0)) }
    ensures none { result ≡ Cleaned.Nothing → OnlyReads D.Counts device.old device.new }
    ensures block { CleansBlock D.Counts D.MovingPages.own result device.old device.new }
    ensures space { CleansVictim result (D.names device.old).space (D.names device.new).space }
    ensures held { KeepsHeld D.Counts device.old device.new }
    ensures stored { D.tells → ((result ≡ Cleaned.Fault) × Rose (D.write_faults device.old) (D.write_faults device.new))
        ⊎ KeepsStored (stored D.Counts device.old) (stored D.Counts device.new) }
    ensures lands { ((result ≡ Cleaned.Done → ⊥) × Rose (D.write_faults device.old) (D.write_faults device.new))
        ⊎ CanLand (D.names device.new).space }
    ensures lost { (w found : ℕ) → result ≡ Cleaned.Lost w found
        → (found ≡ w → ⊥) × ((p : ℕ) × (page : LivePage) × ((D.names device.old).live p ≡ Some page) × (page.stamp ≡ w)) }
    ensures told { D.tells → (w found : ℕ) → result ≡ Cleaned.Lost w found → ⊥ }
    ensures ticks { Ticks D.Counts (result ≡ Cleaned.Done) device.old device.new }
    ensures faults { CallCounted D.Counts (result ≡ Cleaned.Fault) device.old device.new }
{
    match empty_victim(device) {
        Copying::Lost { wanted, found } => Cleaned::Lost { wanted, found },
        Copying::Fault => Cleaned::Fault,
        Copying::Did | Copying::Nothing => match device.erase() {
            Erasing::Done => Cleaned::Done,
            Erasing::Nothing => Cleaned::Nothing,
            Erasing::Fault => Cleaned::Fault,
        },
    }
}

/// Moves live pages of the victim until it has none, or a move fails.
fn empty_victim<D: MovingPages>(device: &mut D) -> Copying
    requires formed { D.formed device.old }
    requires lands { CanLand (D.names device.old).space }
    ensures formed { D.formed device.new }
    ensures emptied { HasEmptied result (D.names device.old).space (D.names device.new).space }
    ensures none { HasNothingToCopy (D.names device.old).space → OnlyReads D.Counts device.old device.new }
    ensures chosen { StaysOrTakes (D.most_dead device.old) (D.victim device.old) (D.victim device.new) }
    ensures held { KeepsHeld D.Counts device.old device.new }
    ensures stored { D.tells → KeepsStored (stored D.Counts device.old) (stored D.Counts device.new) }
    ensures lands { Rose (D.write_faults device.old) (D.write_faults device.new) ⊎ CanLand (D.names device.new).space }
    ensures lost { (w found : ℕ) → result ≡ Copying.Lost w found
        → (found ≡ w → ⊥) × ((p : ℕ) × (page : LivePage) × ((D.names device.old).live p ≡ Some page) × (page.stamp ≡ w)) }
    ensures told { D.tells → (w found : ℕ) → result ≡ Copying.Lost w found → ⊥ }
    ensures faults { CallCounted D.Counts (result ≡ Copying.Fault) device.old device.new }
{
    loop {
        match device.copy() {
            Copying::Did => {}
            answer => return answer,
        }
    }
}
