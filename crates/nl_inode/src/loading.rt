//! The page of an address is read from the device into memory, where it is not resident.
ghost use Rattle.std.specs.Prelude.{◌≡◌, ◌<◌, ⊤, Some, None, true, length};
ghost use Rattle.nl_field.specs.Virtual.{is_inode_address, map_bytes};
ghost use Rattle.nl_iface.specs.Calls.{OnlyReads};
ghost use Rattle.nl_iface.specs.Counting.{FailuresCounted};
ghost use Rattle.nl_meta.specs.Pages.{page_of};
ghost use Rattle.nl_inode.specs.Fetching.{Fetches, FetchesNone, IsLostFetch, LosesFetch};

use crate::answer::Fetch;
use nl_field::{PageBuf, VirtualRead};
use nl_iface::VirtualPages;
use nl_meta::Meta;

/// Makes the page of an address resident, and touches it. An address that is not resident was written, or has nodes. After `Fault`
/// and `Lost` each page is as before.
pub fn fetch<D: VirtualPages>(device: &mut D, meta: &mut Meta, vaddr: u32) -> Fetch
    requires formed { D.formed device.old }
    requires within { vaddr < (D.shape device.old).vaddrs }
    requires count { length meta.old.running ≡ (D.shape device.old).vaddrs }
    requires stored { page_of meta.old vaddr ≡ None → D.stamps device.old vaddr ≡ None
        → is_inode_address (D.shape device.old) vaddr ≡ true }
    ensures formed { D.formed device.new }
    ensures device { OnlyReads D.Counts device.old device.new }
    ensures ready { result ≡ Fetch.Ready
        → Fetches D.tells (map_bytes (D.shape device.old) (D.map device.old) vaddr) vaddr meta.old meta.new }
    ensures refused { (result ≡ Fetch.Ready → ⊥) → FetchesNone vaddr meta.old meta.new }
    ensures faults { FailuresCounted ⊤ (D.read_faults device.old) (D.read_faults device.new) (result ≡ Fetch.Fault) }
    ensures lost { LosesFetch (D.stamps device.old vaddr) result }
    ensures told { D.tells → IsLostFetch result → ⊥ }
{
    if meta.resident(vaddr) {
        meta.touch(vaddr);
        return Fetch::Ready;
    }
    meta.stands();
    let answer = load(device, vaddr, meta.admit(vaddr));
    if answer != Fetch::Ready {
        meta.dismiss(vaddr);
    }
    answer
}

// Reads the page of an address, zeros where it was never written.
fn load<D: VirtualPages>(device: &mut D, vaddr: u32, page: &mut PageBuf) -> Fetch
    requires formed { D.formed device.old }
    requires within { vaddr < (D.shape device.old).vaddrs }
    requires stored { D.stamps device.old vaddr ≡ None → is_inode_address (D.shape device.old) vaddr ≡ true }
    ensures formed { D.formed device.new }
    ensures device { OnlyReads D.Counts device.old device.new }
    ensures page { D.tells → result ≡ Fetch.Ready → map_bytes (D.shape device.old) (D.map device.old) vaddr ≡ Some page.new.main }
    ensures faults { FailuresCounted ⊤ (D.read_faults device.old) (D.read_faults device.new) (result ≡ Fetch.Fault) }
    ensures lost { LosesFetch (D.stamps device.old vaddr) result }
    ensures told { D.tells → IsLostFetch result → ⊥ }
{
    match device.virtual_read(vaddr, page) {
        VirtualRead::Done => Fetch::Ready,
        VirtualRead::Unmapped => {
            page.clear();
            Fetch::Ready
        }
        VirtualRead::Lost { wanted, found } => Fetch::Lost { wanted, found },
        VirtualRead::Fault => Fetch::Fault,
    }
}
