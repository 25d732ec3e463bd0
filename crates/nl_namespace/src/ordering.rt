//! The places of a directory in the order of their names.
ghost use Rattle.std.specs.Prelude.{◌≡◌, ◌≤◌, length};
ghost use Rattle.std.specs.Cmp.Lexicographic.{slice_cmp};
ghost use Rattle.std.specs.Ordering.{is_lt, nat_cmp};
ghost use Rattle.nl_meta.specs.Nodes.{entries_of_inode};
ghost use Rattle.nl_meta.specs.Pages.{page_of};
ghost use Rattle.nl_dir.specs.Directory.{IsDirectory};
ghost use Rattle.nl_namespace.specs.Sorting.{IsOrder, Parts, entries_at};

use crate::names::size_of;
use arrayvec::ArrayVec;
use nl_dir::name_at;
use nl_field::InodeRec;
use nl_meta::Meta;
use std::cmp::Ordering;

/// The places of the entries of a directory, by the bytes of their names. Each is put among those before it. Names are compared as
/// their pages have them, and no entry is read.
pub(crate) fn in_order(rec: &InodeRec, meta: &Meta) -> ArrayVec<u32, 1024>
    requires directory { IsDirectory (page_of meta.now) rec.now }
    requires few { rec.now.size ≤ 1024 }
    ensures { IsOrder (entries_of_inode (page_of meta.now) rec.now) rec.now.size result.items }
{
    let mut order = ArrayVec::new();
    for place in 0..size_of(rec) {
        let name = name_at(rec, meta, place);
        let at = place_behind(rec, meta, order.as_slice(), name);
        order.insert(at, place);
    }
    order
}

/// Where a name comes among those of places in order. The last of them is looked at first: names are often in order already.
fn place_behind(rec: &InodeRec, meta: &Meta, order: &[u32], name: &[u8]) -> usize
    requires directory { IsDirectory (page_of meta.now) rec.now }
    requires few { length order.now ≤ rec.now.size }
    requires order { IsOrder (entries_of_inode (page_of meta.now) rec.now) (length order.now) order.now }
    ensures inside { result ≤ length order.now }
    ensures parts { Parts (entries_at (entries_of_inode (page_of meta.now) rec.now) order.now) name.now result result }
{
    let count = order.len();
    if count == 0 {
        return 0;
    }
    let last = count - 1;
    if comes_before(name_at(rec, meta, order[last]), name) {
        place_among(rec, meta, order, name, last + 1, count)
    } else {
        place_among(rec, meta, order, name, 0, last)
    }
}

/// Where a name comes among those of places in order: not before `low`, and not behind `high`.
fn place_among(
    rec: &InodeRec,
    meta: &Meta,
    order: &[u32],
    name: &[u8],
    low: usize,
    high: usize,
) -> usize
    requires directory { IsDirectory (page_of meta.now) rec.now }
    requires few { length order.now ≤ rec.now.size }
    requires order { IsOrder (entries_of_inode (page_of meta.now) rec.now) (length order.now) order.now }
    requires range { low ≤ high }
    requires inside { high ≤ length order.now }
    requires parts { Parts (entries_at (entries_of_inode (page_of meta.now) rec.now) order.now) name.now low high }
    ensures inside { result ≤ length order.now }
    ensures parts { Parts (entries_at (entries_of_inode (page_of meta.now) rec.now) order.now) name.now result result }
{
    if low == high {
        return low;
    }
    let middle = low + (high - low) / 2;
    if comes_before(name_at(rec, meta, order[middle]), name) {
        place_among(rec, meta, order, name, middle + 1, high)
    } else {
        place_among(rec, meta, order, name, low, middle)
    }
}

// The first name comes before the second.
fn comes_before(a: &[u8], b: &[u8]) -> bool
    ensures { result ≡ is_lt (slice_cmp nat_cmp a.now b.now) }
{
    a.cmp(b) == Ordering::Less
}
