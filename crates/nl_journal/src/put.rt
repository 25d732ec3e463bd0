//! One page of the journal is written, with what a stop may show of it.
ghost use Rattle.std.specs.Prelude.{◌≡◌, ◌⊎◌, ◌<◌, ◌≤◌, ◌+◌, ◌^◌, ℕ};
ghost use Rattle.nl_journal.specs.Homes.{with_bytes};
ghost use Rattle.nl_iface.specs.Answers.{LosesStamp};
ghost use Rattle.nl_iface.specs.Calls.{CallCounted, DoneOrFailed, LeavesAt, TakesStamp, Ticks, stored};
ghost use Rattle.nl_iface.specs.Stored.{Stored};
ghost use Rattle.nl_journal.specs.Left.{LeavesRest};
ghost use Rattle.nl_journal.specs.Outcomes.{May, NoMore, Tried, Within, Written, bytes_of};
ghost use Rattle.nl_journal.specs.Passes.{ChangesAddressesOnly};

use nl_field::{PageBuf, VirtualWrite};
use nl_iface::VirtualPages;

/// Writes one page. Its clauses say what a stop may show at each address then.
pub(crate) fn put<D: VirtualPages>(device: &mut D, vaddr: u32, from: &PageBuf) -> VirtualWrite
    requires formed { D.formed device.old }
    requires within { vaddr < (D.shape device.old).vaddrs }
    requires spare { D.keeps_spare device.old }
    requires stamp { D.next_stamp device.old < 2 ^ 63 }
    ensures formed { D.formed device.new }
    ensures done { D.tells → result ≡ VirtualWrite.Done → NoMore
        (Written (May (D.map device.old) (D.failed device.old)) vaddr from.now.main) (May (D.map device.new) (D.failed device.new)) }
    ensures undone { D.tells → (result ≡ VirtualWrite.Done → ⊥)
        → NoMore (Tried (May (D.map device.old) (D.failed device.old)) vaddr from.now.main) (May (D.map device.new) (D.failed device.new)) }
    ensures same { D.tells → (result ≡ VirtualWrite.Done → ⊥) → (v : ℕ) → bytes_of (D.map device.new) v ≡ bytes_of (D.map device.old) v }
    ensures raw { D.tells → result ≡ VirtualWrite.Done → (v : ℕ)
        → bytes_of (D.map device.new) v ≡ with_bytes (bytes_of (D.map device.old)) vaddr from.now.main v }
    ensures left { D.tells → LeavesAt D.Counts (result ≡ VirtualWrite.Done)
        (λ (c : Stored). Within (D.shape device.old).vaddrs (May (D.map device.old) (D.failed device.old)) (bytes_of c.virtual)
        × LeavesRest (D.shape device.old).vaddrs (D.failed device.old) (stored D.Counts device.old) c)
        (λ (c : Stored). Within (D.shape device.old).vaddrs (Written (May (D.map device.old) (D.failed device.old)) vaddr from.now.main) (bytes_of c.virtual)
        × LeavesRest (D.shape device.old).vaddrs (D.failed device.old) (stored D.Counts device.old) c)
        device.old device.new }
    ensures passes { ChangesAddressesOnly D.Counts (result ≡ VirtualWrite.Done) 1 device.old device.new }
    ensures lost { LosesStamp D.tells (D.stamps device.new) result }
    ensures next_stamp { TakesStamp D.Counts
        (DoneOrFailed D.Counts (result ≡ VirtualWrite.Done) device.old device.new) device.old device.new }
    ensures clock { Ticks D.Counts (result ≡ VirtualWrite.Done) device.old device.new }
    ensures faults { CallCounted D.Counts (result ≡ VirtualWrite.Fault) device.old device.new }
{
    device.virtual_write(vaddr, from)
}
