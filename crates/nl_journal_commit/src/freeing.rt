//! The pages that a transaction gave up are freed.
ghost use Rattle.std.specs.Prelude.{◌≡◌, ◌≤◌, ◌+◌, length, take, drop};
ghost use Rattle.nl_iface.specs.Calls.{KeepsMedium};
ghost use Rattle.nl_journal_commit.specs.Freeing.{FreesEach};

use nl_field::PointerList;
use nl_iface::NamedPages;

/// Frees the pages of the first pointers of a list, so many, one after the other, and takes the pointers from the list. Their room is
/// given back. A pointer that is not live is passed over.
pub fn free_first<D: NamedPages>(device: &mut D, freeing: &mut PointerList, count: u32)
    requires formed { D.formed device.old }
    requires within { count ≤ length freeing.old.items }
    ensures formed { D.formed device.new }
    ensures freed { FreesEach (take count freeing.old.items) (D.names device.old) (D.names device.new) }
    ensures items { freeing.new.items ≡ drop count freeing.old.items }
    ensures room { freeing.new.room ≡ freeing.old.room + count }
    ensures kept { KeepsMedium D.Counts device.old device.new }
    ensures read_faults { D.read_faults device.new ≡ D.read_faults device.old }
{
    free_each(device, freeing, count);
    freeing.drop_first(count);
}

// Frees the pages of the first pointers, so many, one after the other.
fn free_each<D: NamedPages>(device: &mut D, freeing: &PointerList, count: u32)
    requires formed { D.formed device.old }
    requires within { count ≤ length freeing.now.items }
    ensures formed { D.formed device.new }
    ensures freed { FreesEach (take count freeing.now.items) (D.names device.old) (D.names device.new) }
    ensures kept { KeepsMedium D.Counts device.old device.new }
    ensures read_faults { D.read_faults device.new ≡ D.read_faults device.old }
{
    for i in 0..count {
        let _ = device.free(*freeing.get(i));
    }
}
