//! The trait of a device that moves pages to clean blocks.
ghost use Rattle.std.specs.Prelude.{◌≡◌, ◌≢◌, ◌↔◌, ◌⊎◌, ◌+◌, ◌≤◌, ℕ, Option, Some, None, IfNone, IfSome, cond, is_some, true, false};
ghost use Rattle.nl_field.specs.CrashStates.{Rose, saturated};
ghost use Rattle.nl_iface.specs.Calls.{CallCounted, KeepsMedium, OnlyReads, stored};
ghost use Rattle.nl_iface.specs.Moves.{Acknowledges, BeginsVictim, Copies, EraseFails, ErasesAtCrashes, ErasesVictim, FailsToCopy, HasCopied, HasNothingToCopy, IsUnhandled, KeepsCleaning, LeavesErased, LeavesMove, MarksHandled, MovesPage};
ghost use Rattle.nl_iface.specs.Names.{Has, LivePage, leads};
ghost use Rattle.nl_iface.specs.Space.{CanLand};
ghost use Rattle.nl_iface.specs.Victims.{CanBeginVictim, CopyTicks, IsWiped, StaysOrTakes, TakesVictimOf, WritesCounted};
ghost use Rattle.nl_iface.specs.declared.Callback.{Callback as CallbackOf};

use crate::Callback;
use crate::moving::{Copying, Erasing};
use crate::named_pages::NamedPages;
use nl_field::Pointer;

/// Pages under names that the device moves, so that a block can be erased: one block is the victim, its live pages are copied, and it is
/// erased. The device calls back: each move posts a callback, which is pending until a transaction that handled it is acknowledged.
pub trait MovingPages: NamedPages {
    /// The block that is in hand as the victim.
    ghost victim: { Self → Option ℕ };

    /// The block is full, has a dead page, and no full block has more.
    ghost most_dead: { Self → ℕ → Type 0 };

    /// The block is full, no full block was erased more seldom, and some block was erased at least 16 times more.
    ghost coldest: { Self → ℕ → Type 0 };

    /// The page is erased, and nothing was programmed on it since.
    ghost blank: { Self → ℕ → Type 0 };

    /// Takes the coldest block as the victim. False exactly where there is none such, a block is in hand, there are more pairs than two
    /// blocks have pages, or no block is Free.
    fn level(&mut self) -> bool
        requires formed { Self.formed self.old }
        ensures formed { Self.formed self.new }
        ensures begun { result ≡ true → BeginsVictim Self.Counts self.old self.new }
        ensures chosen { result ≡ true → TakesVictimOf (coldest self.old) (victim self.new) }
        ensures none { result ≡ false → OnlyReads Self.Counts self.old self.new }
        ensures exactly { result ≡ true ↔ (CanBeginVictim (Self.names self.old).space × ((block : ℕ) × coldest self.old block)) }
        ensures read_faults { Self.read_faults self.new ≡ Self.read_faults self.old };

    /// Takes the block with the most dead pages as the victim where none is in hand, moves one live page of the victim with its
    /// owner, its number and its bytes, and posts the callback of the move. It needs that the live pages of the victim can land.
    fn copy(&mut self) -> Copying
        requires formed { Self.formed self.old }
        requires lands { CanLand (Self.names self.old).space }
        ensures formed { Self.formed self.new }
        ensures did { result ≡ Copying.Did → HasCopied Self.Counts self.old self.new }
        ensures nothing { result ≡ Copying.Nothing ↔ HasNothingToCopy (Self.names self.old).space }
        ensures none { result ≡ Copying.Nothing → OnlyReads Self.Counts self.old self.new }
        ensures failed { (result ≡ Copying.Did → ⊥) → (result ≡ Copying.Nothing → ⊥) → FailsToCopy Self.Counts self.old self.new }
        ensures chosen { StaysOrTakes (most_dead self.old) (victim self.old) (victim self.new) }
        ensures lost { (w found : ℕ) → result ≡ Copying.Lost w found
            → (found ≡ w → ⊥) × ((p : ℕ) × (page : LivePage) × ((Self.names self.old).live p ≡ Some page) × (page.stamp ≡ w)) }
        ensures told { Self.tells → (w found : ℕ) → result ≡ Copying.Lost w found → ⊥ }
        ensures left { Self.tells → LeavesMove Self.Counts (MovesPage Self.Counts self.old self.new)
            (λ c. Copies c (Self.names self.old) (Self.names self.new)) self.old self.new ⊎ KeepsMedium Self.Counts self.old self.new }
        ensures lands { Rose (Self.write_faults self.old) (Self.write_faults self.new) ⊎ CanLand (Self.names self.new).space }
        ensures kept { KeepsCleaning Self.Counts self.old self.new }
        ensures clock { CopyTicks Self.Counts self.old self.new }
        ensures faults { CallCounted Self.Counts (result ≡ Copying.Fault) self.old self.new };

    /// Erases the victim, where no page of it is live: its block is Free, or waits for the old names that stand in it. `Nothing`
    /// exactly where no victim without live pages is in hand; `Fault` only where the erase failed, and then the victim stays in hand; what
    /// it leaves of each page is what a stop within an erase may leave.
    fn erase(&mut self) -> Erasing
        requires formed { Self.formed self.old }
        ensures formed { Self.formed self.new }
        ensures nothing { let space = (Self.names self.old).space in result ≡ Erasing.Nothing
            ↔ ((space.victim ≡ 1) × (space.left ≡ 0) → ⊥) }
        ensures none { result ≡ Erasing.Nothing → OnlyReads Self.Counts self.old self.new }
        ensures done { result ≡ Erasing.Done → ErasesVictim Self.Counts self.old self.new }
        ensures wiped { result ≡ Erasing.Done
            → (block : ℕ) × (victim self.old ≡ Some block) × (victim self.new ≡ None)
            × (Self.tells → IsWiped (blank self.new) (Self.shape self.old).pages block (stored Self.Counts self.new)) }
        ensures failed { result ≡ Erasing.Fault → EraseFails (Self.names self.old).space (Self.names self.new).space }
        ensures same { (result ≡ Erasing.Done → ⊥) → (Self.names self.new ≡ Self.names self.old) × (victim self.new ≡ victim self.old) }
        ensures now { Self.tells → result ≡ Erasing.Fault
            → LeavesErased (Self.names self.old) (Self.bytes self.old) (stored Self.Counts self.old) (stored Self.Counts self.new) }
        ensures left { Self.tells → ErasesAtCrashes Self.Counts self.old self.new }
        ensures kept { KeepsCleaning Self.Counts self.old self.new }
        ensures clock { (result ≡ Erasing.Done → Self.clock self.new ≡ saturated (Self.clock self.old + 1))
            × ((result ≡ Erasing.Done → ⊥) → Self.clock self.new ≡ Self.clock self.old) }
        ensures read_faults { Self.read_faults self.new ≡ Self.read_faults self.old }
        ensures write_faults { WritesCounted Self.Counts (result ≡ Erasing.Fault) self.old self.new };

    /// The pending callback of this number. None exactly where there is none.
    fn callback(&self, number: u64) -> Option<Callback>
        ensures some { IfSome result (λ c. Has (Self.names self.now).pending c × (c.number ≡ number)) }
        ensures none { IfNone result ((c : CallbackOf) → Has (Self.names self.now).pending c → c.number ≢ number) };

    /// The last number that was given to a callback, 0 where there is none.
    fn posted(&self) -> u64
        ensures { result ≡ (Self.names self.now).posted };

    /// The least number of a pending callback that no transaction has handled. None exactly where there is none.
    fn least(&self) -> Option<u64>
        ensures some { IfSome result (IsUnhandled (Self.names self.now)) }
        ensures least { IfSome result (λ n. (other : ℕ) → IsUnhandled (Self.names self.now) other → n ≤ other) }
        ensures none { IfNone result ((n : ℕ) → IsUnhandled (Self.names self.now) n → ⊥) };

    /// Notes that this transaction has handled the callback of this number. One that was handled before keeps the earlier
    /// transaction. False exactly where the number is not pending.
    fn handled(&mut self, number: u64, transaction: u64) -> bool
        requires formed { Self.formed self.old }
        ensures formed { Self.formed self.new }
        ensures marked { result ≡ true
            → (c : CallbackOf) × (c.number ≡ number) × MarksHandled c transaction (Self.names self.old) (Self.names self.new) }
        ensures none { result ≡ false → (c : CallbackOf) → Has (Self.names self.old).pending c → c.number ≢ number }
        ensures same { result ≡ false → Self.names self.new ≡ Self.names self.old }
        ensures kept { KeepsMedium Self.Counts self.old self.new }
        ensures read_faults { Self.read_faults self.new ≡ Self.read_faults self.old };

    /// Takes away exactly the callbacks that were handled by transactions up to this one, with their old names.
    fn acknowledge(&mut self, upto: u64)
        requires formed { Self.formed self.old }
        ensures formed { Self.formed self.new }
        ensures acknowledged { Acknowledges upto (Self.names self.old) (Self.names self.new) }
        ensures kept { KeepsMedium Self.Counts self.old self.new }
        ensures read_faults { Self.read_faults self.new ≡ Self.read_faults self.old };

    /// How many pairs of an old name and the page that it leads to there are.
    fn pairs(&self) -> u32
        ensures { result ≡ (Self.names self.now).space.pairs };

    /// The stamp of the next page.
    fn next_stamp(&self) -> u64
        ensures { result ≡ Self.next_stamp self.now };

    /// Whether the pointer is live. No page is read.
    fn is_live(&self, at: Pointer) -> bool
        ensures { result ≡ leads (Self.names self.now) at };

    /// The Free blocks of the physical segment.
    fn free_blocks(&self) -> u32
        ensures { result ≡ (Self.names self.now).space.free };

    /// Each old name has a callback: where none is pending, no pair is left.
    fn stands(&self)
        requires formed { Self.formed self.now }
        ensures called { ((c : CallbackOf) → Has (Self.names self.now).pending c → ⊥) → (Self.names self.now).space.pairs ≡ 0 };

    /// Where a victim is in hand, it is one block.
    ghost in_hand: { (s : Self) → (Self.names s).space.victim ≡ cond (is_some (victim s)) 1 0 };

    /// Where no pair is left, no callback is pending.
    ghost unpaired: { (s : Self) → Self.formed s → (Self.names s).space.pairs ≡ 0 → (c : CallbackOf) → Has (Self.names s).pending c → ⊥ };

    /// No block is bad.
    ghost none_bad: { (s : Self) → (Self.names s).space.bad ≡ 0 };
}
