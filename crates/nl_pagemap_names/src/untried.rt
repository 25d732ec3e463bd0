// By block, how many of its pages can be tried.
ghost use Rattle.std.specs.Prelude.{◌≡◌, ℕ, ◌+◌, ◌-◌, ◌*◌, ◌^◌, ◌<◌, ◌≤◌, length, replicate, slice_set, sum, IfNone, IfOk, IfSome};
ghost use Rattle.nl_pagemap_names.specs.Untried.{FewestBelow, HasDead, IsFewest, count_at, used_in};

use crate::table::Numbers;
use nl_field::Memory;
use std::alloc::Global;
use std::marker::Model;

/// By block, how many of its pages were not tried since it was erased last. Blocks go by their place, from 0.
#[derive(Drop)]
pub struct Untried {
    counts: Vec<u32>,
    /// Their sum.
    total: u32,
    /// The block of which a page was tried last.
    at: u32,
    /// By block how many of its pages are in use, as they were counted last.
    used: Vec<u32>,
}

impl Model for Untried {
    ghost use Rattle.std.specs.Prelude.{List, ℕ};
    ghost use Rattle.nl_pagemap_names.specs.Untried.{IsUntried};

    ghost Value = { List ℕ };

    ghost view = { λ u. u.counts.items };

    ghost invariant = { λ u. IsUntried u.counts.items u.total u.used.items };
}

impl Untried {
    /// So many blocks of so many pages, of which none was tried. An error where memory is refused.
    pub fn new(alloc: Global, blocks: u32, pages: u32) -> Result<Untried, Memory>
        requires { blocks * pages < 2 ^ 32 }
        ensures { IfOk result (λ u. u ≡ replicate blocks pages) }
    {
        let counts = all_of(alloc, blocks, pages)?;
        let used = all_of(alloc, blocks, 0)?;
        Ok(Untried {
            counts,
            total: blocks * pages,
            at: 0,
            used,
        })
    }

    /// How many pages of all blocks were not tried.
    pub fn total(&self) -> u32
        ensures { result ≡ sum self.now }
    {
        self.total
    }

    /// How many pages of a block were not tried.
    pub fn count(&self, block: u32) -> u32
        ensures { result ≡ count_at self.now block }
    {
        match self.counts.get(block as usize) {
            Some(count) => *count,
            None => 0,
        }
    }

    /// A block of which a page was not tried: the first one, round from the one that was tried last. None exactly where there is none.
    pub fn next_block(&self) -> Option<u32>
        ensures some { IfSome result (λ i. 0 < count_at self.now i) }
        ensures none { IfNone result (sum self.now ≡ 0) }
    {
        let count = self.counts.len() as u32;
        match first_untried(&self.counts, self.at, count) {
            Some(block) => Some(block),
            None => first_untried(&self.counts, 0, count),
        }
    }

    /// A page of the block is tried.
    pub fn spend(&mut self, block: u32)
        requires { 0 < count_at self.old block }
        ensures { self.new ≡ slice_set self.old block (count_at self.old block - 1) }
    {
        self.counts[block as usize] -= 1;
        self.total -= 1;
        self.at = block;
    }

    /// The block was erased, of which each page was tried.
    pub fn refill(&mut self, block: u32, pages: u32)
        requires within { block < length self.old }
        requires full { count_at self.old block ≡ 0 }
        requires fits { sum self.old + pages < 2 ^ 32 }
        ensures { self.new ≡ slice_set self.old block pages }
    {
        self.counts[block as usize] = pages;
        self.total += pages;
    }

    /// The block with the fewest pages in use, of those whose pages were all tried and of which one is not in use. None exactly where
    /// there is none such. The blocks have this number of pages, and the first of them this number on the medium.
    pub fn fewest_used(&mut self, table: &Numbers, pages: u32, first: u32) -> Option<u32>
        requires { 0 < pages }
        ensures same { self.new ≡ self.old }
        ensures some { IfSome result (IsFewest pages self.old (λ i. used_in pages table.now (first + i))) }
        ensures none { IfNone result ((i : ℕ) → HasDead pages self.old (λ j. used_in pages table.now (first + j)) i → ⊥) }
    {
        table.count_used(pages, first, &mut self.used);
        fewest(&self.counts, &self.used, pages)
    }
}

fn all_of(alloc: Global, count: u32, value: u32) -> Result<Vec<u32>, Memory>
    ensures { IfOk result (λ v. v.items ≡ replicate count value) }
{
    Ok(vec![in alloc; value; count as usize]?)
}

/// The first block of a range of which a page was not tried.
fn first_untried(counts: &Vec<u32>, from: u32, to: u32) -> Option<u32>
    requires { to ≤ length counts.now.items }
    ensures some { IfSome result (λ i. 0 < count_at counts.now.items i) }
    ensures none { IfNone result ((i : ℕ) → from ≤ i → i < to → count_at counts.now.items i ≡ 0) }
{
    for block in from..to {
        if counts[block as usize] > 0 {
            return Some(block);
        }
    }
    None
}

/// The block with the fewest pages in use, of those that have a dead page and none that was not tried.
fn fewest(counts: &Vec<u32>, used: &Vec<u32>, pages: u32) -> Option<u32>
    requires same { length used.now.items ≡ length counts.now.items }
    requires few { length counts.now.items < 2 ^ 32 }
    ensures { FewestBelow pages counts.now.items (λ i. count_at used.now.items i) (length counts.now.items) result }
{
    let mut best = None;
    for block in 0..counts.len() as u32 {
        best = fewer(counts, used, pages, best, block);
    }
    best
}

/// The better of the best block so far and this one.
fn fewer(
    counts: &Vec<u32>,
    used: &Vec<u32>,
    pages: u32,
    best: Option<u32>,
    block: u32,
) -> Option<u32>
    requires within { block < length counts.now.items }
    requires same { length used.now.items ≡ length counts.now.items }
    requires so_far { FewestBelow pages counts.now.items (λ i. count_at used.now.items i) block best }
    ensures { FewestBelow pages counts.now.items (λ i. count_at used.now.items i) (block + 1) result }
{
    let at = block as usize;
    if counts[at] != 0 || used[at] >= pages {
        return best;
    }
    match best {
        Some(other) if used[other as usize] <= used[at] => best,
        _ => Some(block),
    }
}
