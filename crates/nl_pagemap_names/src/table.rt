// The table of numbers: what each was last given, and which are in use.
ghost use Rattle.std.specs.Prelude.{◌≡◌, ℕ, ◌+◌, ◌^◌, ◌<◌, ◌≤◌, cond, length, replicate, slice_index_or, slice_set, false, true, IfNone, IfOk, IfSome, None};
ghost use Rattle.nl_pagemap_names.specs.Table.{ForgetsReleased, IsFirstFree, entry_at, given, live_at, released};
ghost use Rattle.nl_pagemap_names.specs.Untried.{count_at, is_in, used_in};

use crate::entry::Entry;
use nl_field::Memory;
use std::alloc::Global;
use std::marker::Model;

/// What each number was last given, and which numbers are in use. New numbers come from a range. A number that is released keeps its
/// entry until it is given another one.
#[derive(Drop)]
pub struct Numbers {
    /// The first number that is given out, and the one behind the last.
    first: u32,
    last: u32,
    entries: Vec<Option<Entry>>,
    used: Vec<bool>,
}

impl Model for Numbers {
    ghost use Rattle.nl_pagemap_names.specs.Table.{IsTable, Table};

    ghost Value = { Table };

    ghost view = { λ t. record { first = t.first; last = t.last; entries = t.entries.items; used = t.used.items } };

    ghost invariant = { λ t. IsTable (record { first = t.first; last = t.last; entries = t.entries.items; used = t.used.items }) };
}

impl Numbers {
    /// So many numbers, none of which is in use. Those from `first` on and below `last` can be given out. An error where memory is
    /// refused.
    pub fn new(alloc: Global, first: u32, last: u32, count: u32) -> Result<Numbers, Memory>
        ensures { IfOk result
            (λ t. t ≡ record { first = first; last = last; entries = replicate count None; used = replicate count false }) }
    {
        let entries = no_entries(alloc, count)?;
        let used = none_used(alloc, count)?;
        Ok(Numbers {
            first,
            last,
            entries,
            used,
        })
    }

    /// The entry of a number that is in use. None exactly where it is not.
    pub fn get(&self, number: u32) -> Option<Entry>
        ensures { result ≡ live_at self.now number }
    {
        if self.is_used(number) {
            self.entry(number)
        } else {
            None
        }
    }

    /// The least number of those that can be given out that is not in use. None exactly where each of them is.
    pub fn first_free(&self) -> Option<u32>
        ensures some { IfSome result (IsFirstFree self.now) }
        ensures none { IfNone result ((n : ℕ) → self.now.first ≤ n → n < self.now.last → live_at self.now n ≡ None → ⊥) }
    {
        let first = self.first();
        let last = self.last();
        for number in first..last {
            if self.is_free(number) {
                return Some(number);
            }
        }
        None
    }

    /// The number is in use, with this entry.
    pub fn give(&mut self, number: u32, entry: Entry)
        requires { number < length self.old.entries }
        ensures { self.new ≡ given number entry self.old }
    {
        self.entries[number as usize] = Some(entry);
        self.used[number as usize] = true;
    }

    /// The number is not in use. It keeps its entry until it is given another one.
    pub fn release(&mut self, number: u32)
        requires { number < length self.old.entries }
        ensures { self.new ≡ released number self.old }
    {
        self.used[number as usize] = false;
    }

    /// The numbers that are not in use keep no entry.
    pub fn forget_released(&mut self)
        ensures { ForgetsReleased self.old self.new }
    {
        for at in 0..self.entries.len() {
            forget_one(&mut self.entries, &self.used, at);
        }
    }

    /// Counts, by block, the numbers in use whose page is in it. The blocks have this number of pages, and the first of them this number
    /// on the medium.
    pub(crate) fn count_used(&self, pages: u32, first: u32, counts: &mut Vec<u32>)
        requires { 0 < pages }
        ensures length { length counts.new.items ≡ length counts.old.items }
        ensures counts { (i : ℕ) → i < length counts.old.items → count_at counts.new.items i ≡ used_in pages self.now (first + i) }
    {
        clear(counts);
        let from = self.first();
        let to = self.last();
        for number in from..to {
            count_one(counts, self.get(number), pages, first);
        }
    }

    /// The first number that is given out.
    pub fn first(&self) -> u32
        ensures { result ≡ self.now.first }
    {
        self.first
    }

    /// The one behind the last that is given out.
    pub fn last(&self) -> u32
        ensures { result ≡ self.now.last }
    {
        self.last
    }

    /// What the number was last given.
    fn entry(&self, number: u32) -> Option<Entry>
        ensures { result ≡ entry_at self.now number }
    {
        match self.entries.get(number as usize) {
            Some(entry) => *entry,
            None => None,
        }
    }

    fn is_used(&self, number: u32) -> bool
        ensures { result ≡ slice_index_or self.now.used number false }
    {
        match self.used.get(number as usize) {
            Some(used) => *used,
            None => false,
        }
    }

    /// Whether the number has no entry in use.
    fn is_free(&self, number: u32) -> bool
        ensures yes { result ≡ true → live_at self.now number ≡ None }
        ensures no { result ≡ false → live_at self.now number ≡ None → ⊥ }
    {
        match self.get(number) {
            Some(_) => false,
            None => true,
        }
    }
}

fn no_entries(alloc: Global, count: u32) -> Result<Vec<Option<Entry>>, Memory>
    ensures { IfOk result (λ v. v.items ≡ replicate count None) }
{
    Ok(vec![in alloc; None; count as usize]?)
}

fn none_used(alloc: Global, count: u32) -> Result<Vec<bool>, Memory>
    ensures { IfOk result (λ v. v.items ≡ replicate count false) }
{
    Ok(vec![in alloc; false; count as usize]?)
}

/// The number at this place keeps its entry only where it is in use.
fn forget_one(entries: &mut Vec<Option<Entry>>, used: &Vec<bool>, at: usize)
    requires within { at < length entries.old.items }
    requires same { length used.now.items ≡ length entries.old.items }
    ensures { entries.new.items
        ≡ slice_set entries.old.items at (cond (slice_index_or used.now.items at false) (slice_index_or entries.old.items at None) None) }
{
    if !used[at] {
        entries[at] = None;
    }
}

fn clear(counts: &mut Vec<u32>)
    ensures length { length counts.new.items ≡ length counts.old.items }
    ensures clear { (i : ℕ) → count_at counts.new.items i ≡ 0 }
{
    for at in 0..counts.len() {
        counts[at] = 0;
    }
}

/// Counts the page of an entry in its block.
fn count_one(counts: &mut Vec<u32>, entry: Option<Entry>, pages: u32, first: u32)
    requires some { 0 < pages }
    requires fits { (i : ℕ) → count_at counts.old.items i + 1 < 2 ^ 32 }
    ensures length { length counts.new.items ≡ length counts.old.items }
    ensures counts { (i : ℕ) → i < length counts.old.items
        → count_at counts.new.items i ≡ count_at counts.old.items i + cond (is_in pages (first + i) entry) 1 0 }
{
    let Some(entry) = entry else {
        return;
    };
    let block = entry.page / pages;
    if block < first {
        return;
    }
    let at = (block - first) as usize;
    if at < counts.len() {
        counts[at] += 1;
    }
}
