ghost use Rattle.std.specs.Prelude.{◌≡◌, ◌≤◌, ◌<◌, ◌+◌, ◌*◌, ◌&&◌, ℕ, nat_le, nat_lt};
ghost use Rattle.std.specs.List.{range_with_len};
ghost use Rattle.nl_indirect.specs.Ranges.{HasRange};
ghost use Rattle.nl_meta.specs.Committed.{VirtualMap};
ghost use Rattle.nl_meta.specs.Pages.{page_of};
ghost use Rattle.nl_meta.specs.Running.{running_over};
ghost use Rattle.nl_calls_files.specs.LineNeeds.{free_addresses, gets_page, new_pointers, new_ranges};

use nl_field::InodeRec;
use nl_indirect::lookup;
use nl_inode::Nodes;
use nl_meta::Meta;

/// Whether so many addresses of the pool are free, of at most two.
pub fn has_free(nodes: &mut Nodes, count: u32) -> bool
    requires { count ≤ 2 }
    ensures free { result ≡ nat_le count (free_addresses nodes.old) }
    ensures same { nodes.new ≡ nodes.old }
{
    if count == 0 {
        return true;
    }
    match nodes.take_pool() {
        Some(first) => {
            let has = count == 1 || has_one(nodes);
            nodes.give_pool(first);
            has
        }
        None => false,
    }
}

// Whether an address of the pool is free.
fn has_one(nodes: &mut Nodes) -> bool
    ensures free { result ≡ nat_lt 0 (free_addresses nodes.old) }
    ensures same { nodes.new ≡ nodes.old }
{
    match nodes.take_pool() {
        Some(first) => {
            nodes.give_pool(first);
            true
        }
        None => false,
    }
}

/// How many of these page indexes of a file have no pointer. The pages of pointers of all of them are resident.
pub fn count_pointers(rec: &InodeRec, meta: &Meta, first: u32, count: u32) -> u32
    requires within { first + count ≤ 4104 }
    requires ranges { (i : ℕ) → first ≤ i → i < first + count → HasRange (page_of meta.now) rec.now i }
    ensures { (device : VirtualMap) → result ≡ new_pointers (running_over device meta.now) rec.now (range_with_len first count) }
{
    let mut none = 0;
    'indexes: for index in first..first + count {
        if lookup(rec, meta, index).is_none() {
            none += 1;
        }
    }
    none
}

/// How many ranges get a page of pointers where these page indexes of a file get a page each.
pub fn count_ranges(rec: &InodeRec, first: u32, count: u32) -> u32
    requires within { first + count ≤ 4104 }
    ensures { result ≡ new_ranges rec.now (range_with_len first count) }
{
    (0..16u32)
        .filter(|range| begins(rec, *range, first, count))
        .count() as u32
}

// Whether the range has no page of pointers, and one of these page indexes lies in it.
fn begins(rec: &InodeRec, range: u32, first: u32, count: u32) -> bool
    requires within { first + count ≤ 4104 }
    requires range { range < 16 }
    ensures { result ≡ gets_page rec.now (range_with_len first count) range }
{
    rec.addresses[range as usize] == 0 && meets(range, first, count)
}

// Whether one of these indexes has its pointer in the range.
fn meets(range: u32, first: u32, count: u32) -> bool
    requires within { first + count ≤ 4104 }
    requires range { range < 16 }
    ensures { result ≡ (nat_lt first (264 + 256 * range) && nat_lt (8 + 256 * range) (first + count) && nat_lt 0 count) }
{
    first < 264 + 256 * range && 8 + 256 * range < first + count && 0 < count
}
