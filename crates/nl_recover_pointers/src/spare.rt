//! Whether a block of a segment can be erased: each needed page in it has a copy in another block.
ghost use Rattle.std.specs.Prelude.{◌≡◌, ◌+◌, ◌<◌, ◌&&◌, ◌||◌, ◌==◌, ℕ, false, is_some, length, not, slice_index_or, unwrap_or, IfOk, OnOk, Some};
ghost use Rattle.std.specs.List.{list_all};
ghost use Rattle.std.specs.BTreeMap.{get, Updates};
ghost use Rattle.nl_recover_pointers.specs.Places.{pair_cmp, place_key};
ghost use Rattle.nl_recover_pointers.specs.Spare.{AreMarks, AreSpreads, has_other, has_spare, is_alone_in, spread_at, spread_more};
ghost use Rattle.nl_recover_pointers.specs.declared.spare.Spread.TheVariants.{Nowhere};

use nl_field::Memory;
use std::alloc::Global;
use std::collections::BTreeMap;

/// A page of a segment, by what decides whether its block can be erased. Pages with the same address and write sequence number are
/// copies of each other; the address is 0 in the physical segment.
#[derive(Clone, Copy, Debug, PartialEq, Eq)]
pub struct PageCopy {
    pub block: u32,
    pub address: u32,
    pub stamp: u64,
    pub is_needed: bool,
}

/// In which blocks the copies of a page lie.
#[derive(Clone, Copy, Debug, PartialEq, Eq)]
pub enum Spread {
    Nowhere,
    /// All copies lie in this block.
    In(u32),
    /// Copies lie in more than one block.
    Several,
}

impl Spread {
    /// The blocks of the copies, with one more copy in this block.
    fn more(self, block: u32) -> Spread
        ensures { result ≡ spread_more self block }
    {
        match self {
            Spread::Nowhere => Spread::In(block),
            Spread::In(other) if other == block => Spread::In(other),
            Spread::In(_) | Spread::Several => Spread::Several,
        }
    }

    /// Whether a copy lies in another block than this one.
    fn has_other(self, block: u32) -> bool
        ensures { result ≡ has_other block self }
    {
        match self {
            Spread::Nowhere => false,
            Spread::In(other) => other != block,
            Spread::Several => true,
        }
    }
}

/// What the copies of a page are by: its address and its write sequence number.
type CopyKey = (u32, u64);

fn spread_of(spreads: &BTreeMap<CopyKey, Spread>, page: &PageCopy) -> Spread
    ensures { result ≡ spread_at (get pair_cmp spreads.now (place_key page.now.address page.now.stamp)) }
{
    match spreads.get(&(page.address, page.stamp)) {
        Some(spread) => *spread,
        None => Spread::Nowhere,
    }
}

/// Notes the block of a page.
fn note(spreads: &mut BTreeMap<CopyKey, Spread>, page: &PageCopy) -> Result<(), Memory>
    ensures { OnOk result (let key = place_key page.now.address page.now.stamp in Updates pair_cmp spreads.old spreads.new key
        (Some (spread_more (spread_at (get pair_cmp spreads.old key)) page.now.block))) }
{
    let spread = spread_of(spreads, page).more(page.block);
    spreads.insert((page.address, page.stamp), spread)?;
    Ok(())
}

/// In which blocks the copies of each page lie.
fn spreads(alloc: Global, pages: &Vec<PageCopy>) -> Result<BTreeMap<CopyKey, Spread>, Memory>
    ensures { IfOk result (AreSpreads pages.now.items) }
{
    let mut spreads = BTreeMap::new(alloc);
    'pages: for at in 0..pages.len() {
        note(&mut spreads, &pages[at])?;
    }
    Ok(spreads)
}

/// Marks a block, where it is one of those from the first one on.
pub fn mark(marks: &mut Vec<bool>, first: u32, block: u32)
    ensures count { length marks.new.items ≡ length marks.old.items }
    ensures each { (i : ℕ) → i < length marks.old.items
        → slice_index_or marks.new.items i false ≡ (slice_index_or marks.old.items i false || block == first + i) }
{
    if block >= first {
        let at = (block - first) as usize;
        if at < marks.len() {
            marks[at] = true;
        }
    }
}

/// Marks the block of a page that is needed and has no copy in another block.
fn mark_alone(
    marks: &mut Vec<bool>,
    spreads: &BTreeMap<CopyKey, Spread>,
    first: u32,
    page: &PageCopy,
)
    ensures count { length marks.new.items ≡ length marks.old.items }
    ensures each { (i : ℕ) → i < length marks.old.items → slice_index_or marks.new.items i false
        ≡ (slice_index_or marks.old.items i false
        || is_alone_in (first + i) (spread_at (get pair_cmp spreads.now (place_key page.now.address page.now.stamp))) page.now) }
{
    if page.is_needed && !spread_of(spreads, page).has_other(page.block) {
        mark(marks, first, page.block);
    }
}

/// Whether not each of them is marked.
pub fn has_unmarked(marks: &Vec<bool>) -> bool
    ensures { result ≡ not (list_all (λ mark. mark) marks.now.items) }
{
    for mark in marks {
        if !*mark {
            return true;
        }
    }
    false
}

/// Marks those of the blocks from the first on, so many of them, in which a needed page has by these spreads no copy in another block.
fn marks(
    alloc: Global,
    pages: &Vec<PageCopy>,
    spreads: &BTreeMap<CopyKey, Spread>,
    first: u32,
    count: u32,
) -> Result<Vec<bool>, Memory>
    ensures { IfOk result (λ marks. AreMarks pages.now.items spreads.now first count marks.items) }
{
    let mut marks = vec![in alloc; false; count as usize]?;
    'pages: for at in 0..pages.len() {
        mark_alone(&mut marks, spreads, first, &pages[at]);
    }
    Ok(marks)
}

/// Whether one of the blocks from the first on, so many of them, can be erased: each needed page of it has a copy in another block.
/// Where one has no needed page, no copies are looked for.
pub fn has_spare(
    alloc: Global,
    pages: &Vec<PageCopy>,
    first: u32,
    count: u32,
) -> Result<bool, Memory>
    ensures { IfOk result (λ has. has ≡ has_spare first count pages.now.items) }
{
    let none = BTreeMap::new(alloc);
    let needed = marks(alloc, pages, &none, first, count)?;
    if has_unmarked(&needed) {
        return Ok(true);
    }
    let spreads = spreads(alloc, pages)?;
    let alone = marks(alloc, pages, &spreads, first, count)?;
    Ok(has_unmarked(&alone))
}
