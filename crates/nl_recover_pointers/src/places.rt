//! The pages of the physical segment by number, each with its write sequence number.
ghost use Rattle.std.specs.Prelude.{◌≡◌, ◌==◌, ◌&&◌, ◌||◌, ℕ, None, false, is_some, not, slice_index_or, true, IfOk, OnOk};
ghost use Rattle.nl_field.specs.ScanList.{physical_seen};
ghost use Rattle.nl_field.specs.SpareRecord.{stamp_of};
ghost use Rattle.nl_recover_pointers.specs.Numbers.{is_it};
ghost use Rattle.nl_recover_pointers.specs.Places.{HasNoPlace, KnowsPlaces, has_place, is_at, is_file};

use crate::numbers::{free_places, is_free, is_it, kept_at};
use crate::pages::{is_physical, stamp_on};
use nl_field::{Memory, Pointer, Seen, Shape};
use nl_scan::ScanTables;
use std::alloc::Global;
use std::collections::BTreeSet;

/// The pages of the physical segment by number.
#[derive(Drop)]
pub struct Places {
    /// Of each page number the write sequence number of a page with it, if there is one.
    pub kept: Vec<Option<u64>>,
    /// The numbers of the other pages.
    pub pages: BTreeSet<u32>,
    /// Each of the other pages with its write sequence number.
    pub stamped: BTreeSet<(u32, u64)>,
}

// Keeps a page, where none of its number is kept. Answers whether it is.
fn keep(kept: &mut Vec<Option<u64>>, page: u32, stamp: u64) -> bool
    ensures pages { result ≡ true
        → (p : ℕ) → is_some (slice_index_or kept.new.items p None) ≡ (is_some (slice_index_or kept.old.items p None) || page == p) }
    ensures stamped { result ≡ true → (p s : ℕ)
        → is_it s (slice_index_or kept.new.items p None) ≡ (is_it s (slice_index_or kept.old.items p None) || (page == p && stamp == s)) }
    ensures same { result ≡ false → kept.new.items ≡ kept.old.items }
{
    if !is_free(kept, page as usize) {
        return false;
    }
    kept[page as usize] = Some(stamp);
    true
}

impl Places {
    /// No pages, with places for those of a volume.
    fn new(alloc: Global, shape: &Shape) -> Result<Places, Memory>
        ensures { IfOk result HasNoPlace }
    {
        let kept = free_places(alloc, shape.blocks as usize * shape.pages as usize)?;
        let pages = BTreeSet::new(alloc);
        let stamped = BTreeSet::new(alloc);
        Ok(Places {
            kept,
            pages,
            stamped,
        })
    }

    fn add(&mut self, page: u32, stamp: u64) -> Result<(), Memory>
        ensures pages { OnOk result ((p : ℕ) → has_place self.new p ≡ (has_place self.old p || page == p)) }
        ensures stamped { OnOk result ((p s : ℕ) → is_at self.new p s ≡ (is_at self.old p s || (page == p && stamp == s))) }
    {
        if keep(&mut self.kept, page, stamp) {
            return Ok(());
        }
        self.pages.insert(page)?;
        self.stamped.insert((page, stamp))?;
        Ok(())
    }

    // Adds a page, where it is one of the physical segment.
    fn see(&mut self, shape: &Shape, seen: &Seen) -> Result<(), Memory>
        ensures pages { OnOk result ((p : ℕ) → has_place self.new p
            ≡ (has_place self.old p || (is_file shape.now seen.now && seen.now.page == p))) }
        ensures stamped { OnOk result ((p s : ℕ) → is_at self.new p s
            ≡ (is_at self.old p s || (is_file shape.now seen.now && (seen.now.page == p && stamp_of seen.now.rec == s)))) }
    {
        if !is_physical(shape, seen) {
            return Ok(());
        }
        self.add(seen.page, stamp_on(&seen.rec))?;
        Ok(())
    }

    /// The numbers of the pages of the physical segment that a scan saw, each also with its write sequence number. `Memory` where there is
    /// no room for them.
    pub fn of(alloc: Global, shape: &Shape, scan: &ScanTables) -> Result<Places, Memory>
        ensures { IfOk result (KnowsPlaces (physical_seen shape.now scan.now.seen)) }
    {
        let mut places = Places::new(alloc, shape)?;
        'seen: for at in 0..scan.len() {
            places.see(shape, scan.get(at))?;
        }
        Ok(places)
    }

    /// Whether the page of its name has the pointer's write sequence number.
    pub fn holds(&self, pointer: &Pointer) -> bool
        ensures { result ≡ is_at self.now pointer.now.name pointer.now.stamp }
    {
        is_it(pointer.stamp, kept_at(&self.kept, pointer.name as usize))
            || self.stamped.contains(&(pointer.name, pointer.stamp))
    }

    /// Whether there is a page of this number.
    fn has(&self, page: u32) -> bool
        ensures { result ≡ has_place self.now page }
    {
        kept_at(&self.kept, page as usize).is_some() || self.pages.contains(&page)
    }

    /// Whether the page of its name has the pointer's write sequence number, or there is no such page.
    pub fn owns(&self, pointer: &Pointer) -> bool
        ensures { result ≡ (is_at self.now pointer.now.name pointer.now.stamp || not (has_place self.now pointer.now.name)) }
    {
        self.holds(pointer) || !self.has(pointer.name)
    }
}
