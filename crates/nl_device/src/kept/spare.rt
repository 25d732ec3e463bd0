// Which block of the physical segment can be erased next, by the pages that are kept of a scan.
ghost use Rattle.std.specs.Prelude.{◌≡◌, ℕ, ◌<◌, ◌≤◌, ◌+◌, ◌-◌, ◌/◌, ◌^◌, IfSome, false, find, not, length, map, slice_index_or};
ghost use Rattle.std.specs.List.{range_with_len};
ghost use Rattle.std.specs.Ordering.{nat_cmp};
ghost use Rattle.std.specs.BTreeMap.{get};
ghost use Rattle.nl_device.specs.Kept.{spare_among};
ghost use Rattle.nl_device.specs.Marks.{with_lone_block};

use super::Kept;
use super::copies::Copies;
use crate::marks::first_unmarked;
use nl_field::PointerList;
use std::collections::BTreeMap;

/// No block is marked.
fn clear(alone: &mut Vec<bool>)
    ensures count { length alone.new.items ≡ length alone.old.items }
    ensures none { (i : ℕ) → slice_index_or alone.new.items i false ≡ false }
{
    for at in 0..alone.len() {
        alone[at] = false;
    }
}

/// Marks the block of a stamp that has pages in this block only. Blocks are marked from the first on.
fn mark(alone: &mut Vec<bool>, copies: &BTreeMap<u64, Copies>, stamp: u64, first: u32, size: u32)
    requires some { 0 < size }
    requires within { IfSome (get nat_cmp copies.now stamp)
        (λ c. (first ≤ c.first / size) × (c.first / size < first + length alone.old.items)) }
    ensures { alone.new.items ≡ with_lone_block first size (get nat_cmp copies.now stamp) alone.old.items }
{
    if let Some(copies) = copies.get(&stamp) {
        if copies.apart.is_none() {
            alone[(copies.first / size - first) as usize] = true;
        }
    }
}

impl Kept {
    /// The least block of the segment each page of which that has the stamp of a listed pointer has a copy in another block.
    pub(crate) fn spare(&mut self, list: &PointerList) -> Option<u32>
        ensures spare { result ≡ spare_among self.old (map (λ p. p.stamp) list.now.items) }
        ensures same { self.new ≡ self.old }
    {
        clear(&mut self.alone);
        'needed: for at in 0..list.len() {
            let stamp = list.get(at).stamp;
            mark(&mut self.alone, &self.copies, stamp, self.first, self.size);
        }
        first_unmarked(&self.alone, self.first)
    }
}
