//! Sets of numbers, such as the names of pages or write sequence numbers: most are kept at places, each by its remainder.
ghost use Rattle.std.specs.Prelude.{◌≡◌, ◌<◌, ◌||◌, ◌==◌, ℕ, None, false, true, length, replicate, slice_index_or, IfOk, OnOk};
ghost use Rattle.nl_recover_pointers.specs.Numbers.{AddsNumber, HasNone, has_number, is_it, is_kept, place_in};

use nl_field::Memory;
use std::alloc::Global;
use std::collections::BTreeSet;

/// A set of numbers.
#[derive(Drop)]
pub struct Numbers {
    /// At each place a number with that remainder, if there is one.
    pub kept: Vec<Option<u64>>,
    /// The other numbers.
    pub more: BTreeSet<u64>,
}

/// The place of a number among so many.
pub fn place_of(number: u64, count: usize) -> usize
    ensures { result ≡ place_in count number }
{
    (number % (count as u64).max(1)) as usize
}

/// So many free places.
pub fn free_places(alloc: Global, count: usize) -> Result<Vec<Option<u64>>, Memory>
    ensures { IfOk result (λ v. v.items ≡ replicate count None) }
{
    Ok(vec![in alloc; None; count]?)
}

/// Whether there is a place, and it is free.
pub fn is_free(kept: &Vec<Option<u64>>, at: usize) -> bool
    ensures inside { result ≡ true → at < length kept.now.items }
    ensures free { result ≡ true → slice_index_or kept.now.items at None ≡ None }
{
    match kept.get(at) {
        Some(one) => one.is_none(),
        None => false,
    }
}

/// What is kept at a place, none where there is no such place.
pub fn kept_at(kept: &Vec<Option<u64>>, at: usize) -> Option<u64>
    ensures { result ≡ slice_index_or kept.now.items at None }
{
    match kept.get(at) {
        Some(one) => *one,
        None => None,
    }
}

/// Whether this is the number.
pub fn is_it(number: u64, kept: Option<u64>) -> bool
    ensures { result ≡ is_it number kept }
{
    match kept {
        Some(other) => other == number,
        None => false,
    }
}

// Keeps a number at its place, where that is free. Answers whether it is.
fn keep(kept: &mut Vec<Option<u64>>, number: u64) -> bool
    ensures kept { result ≡ true → (n : ℕ) → is_kept kept.new.items n ≡ (number == n || is_kept kept.old.items n) }
    ensures same { result ≡ false → kept.new.items ≡ kept.old.items }
{
    let at = place_of(number, kept.len());
    if !is_free(kept, at) {
        return false;
    }
    kept[at] = Some(number);
    true
}

fn is_kept(kept: &Vec<Option<u64>>, number: u64) -> bool
    ensures { result ≡ is_kept kept.now.items number }
{
    is_it(number, kept_at(kept, place_of(number, kept.len())))
}

impl Numbers {
    /// No numbers, with so many places. `Memory` where there is no room for those.
    pub fn new(alloc: Global, count: usize) -> Result<Numbers, Memory>
        ensures { IfOk result HasNone }
    {
        let kept = free_places(alloc, count)?;
        let more = BTreeSet::new(alloc);
        Ok(Numbers { kept, more })
    }

    /// Whether a number is one of them.
    pub fn contains(&self, number: u64) -> bool
        ensures { result ≡ has_number self.now number }
    {
        is_kept(&self.kept, number) || self.more.contains(&number)
    }

    /// Adds a number.
    pub fn add(&mut self, number: u64) -> Result<(), Memory>
        ensures { OnOk result (AddsNumber self.old self.new number) }
    {
        if keep(&mut self.kept, number) {
            return Ok(());
        }
        self.more.insert(number)?;
        Ok(())
    }
}
