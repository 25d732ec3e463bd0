// Pages stand in groups. A block that holds no group alone can be erased: each group in it has a page in another block too.
ghost use Rattle.std.specs.Prelude.{◌≡◌, ◌||◌, ℕ, ◌+◌, ◌-◌, ◌<◌, ◌^◌, not, false, find, length, slice_set, slice_index_or, replicate, IfOk};
ghost use Rattle.std.specs.List.{range_with_len};
ghost use Rattle.nl_device.specs.Spread.{is_alone_in, spare_of, spread_more};

use crate::marks::first_unmarked;
use nl_field::Memory;
use std::alloc::Global;

/// In which blocks the pages of a group lie.
#[derive(Clone, Copy, Debug, PartialEq, Eq)]
pub enum Spread {
    Nowhere,
    In(u32),
    Several,
}

/// The spread of a group with one page more.
fn more(spread: Spread, block: u32) -> Spread
    ensures { result ≡ spread_more spread block }
{
    match spread {
        Spread::Nowhere => Spread::In(block),
        Spread::In(other) if other == block => Spread::In(other),
        Spread::In(_) | Spread::Several => Spread::Several,
    }
}

/// So many groups, none of which has a page.
pub fn no_spreads(alloc: Global, count: u32) -> Result<Vec<Spread>, Memory>
    ensures { IfOk result (λ v. v.items ≡ replicate count Spread.Nowhere) }
{
    Ok(vec![in alloc; Spread::Nowhere; count as usize]?)
}

/// A page of the group lies in the block.
pub fn note(spreads: &mut Vec<Spread>, group: u32, block: u32)
    requires { group < length spreads.old.items }
    ensures { spreads.new.items
        ≡ slice_set spreads.old.items group (spread_more (slice_index_or spreads.old.items group Spread.Nowhere) block) }
{
    spreads[group as usize] = more(spreads[group as usize], block);
}

/// The block that holds this group alone is marked, where it is one of those from the first on.
fn mark(held: &mut Vec<bool>, spread: Spread, first: u32)
    ensures count { length held.new.items ≡ length held.old.items }
    ensures each { (i : ℕ) → i < length held.old.items
        → slice_index_or held.new.items i false ≡ (slice_index_or held.old.items i false || is_alone_in (first + i) spread) }
{
    if let Spread::In(block) = spread {
        if block >= first {
            let at = (block - first) as usize;
            if at < held.len() {
                held[at] = true;
            }
        }
    }
}

/// The least of the blocks from the first on, so many of them, that holds no group alone.
pub fn least_spare(
    alloc: Global,
    spreads: &Vec<Spread>,
    first: u32,
    count: u32,
) -> Result<Option<u32>, Memory>
    requires { first + count < 2 ^ 32 }
    ensures { IfOk result (λ block. block ≡ spare_of first count spreads.now.items) }
{
    let mut held = vec![in alloc; false; count as usize]?;
    for at in 0..spreads.len() {
        mark(&mut held, spreads[at], first);
    }
    Ok(first_unmarked(&held, first))
}
