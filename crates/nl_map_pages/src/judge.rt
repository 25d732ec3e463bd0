//! What decides how a written page is found.
ghost use Rattle.std.specs.Prelude.{◌≡◌, ◌<◌, ◌==◌, ℕ};
ghost use Rattle.std.specs.List.{list_any};
ghost use Rattle.nl_field.specs.Page.{Image};
ghost use Rattle.nl_map_pages.specs.Judging.{IsLiveOf};
ghost use Rattle.nl_map_pages.specs.Marks.{is_page, physical_mark, spelled_mark, virtual_mark};

use crate::look::Mark;
use crate::virtuals::{is_outdated, read_under, virtual_end};
use nl_field::{Seen, Shape, SpareRec};
use std::collections::BTreeSet;

/// Which pages an opening reads.
#[derive(Drop)]
pub struct Live {
    pub shape: Shape,
    /// The pages of the virtual segment.
    pub virtuals: Vec<Seen>,
    /// The spare block of the virtual segment.
    pub spare: Option<u32>,
    /// The pages at which an opening finds the pointers of files.
    pub places: BTreeSet<u32>,
    /// The write sequence numbers of those pointers.
    pub stamps: BTreeSet<u64>,
}

fn is_page(page: u32, other: Option<u32>) -> bool
    ensures { result ≡ is_page page other }
{
    match other {
        Some(other) => other == page,
        None => false,
    }
}

impl Live {
    fn virtual_mark(&self, page: u32, address: u32, stamp: u64) -> Mark
        requires { 0 < self.now.shape.pages }
        ensures { (image : Image) → IsLiveOf image self.now → result ≡ virtual_mark image page address stamp }
    {
        let read = read_under(&self.virtuals, self.shape.pages, self.spare, address);
        if is_page(page, read) {
            return Mark::Live;
        }
        if is_outdated(&self.virtuals, address, stamp) {
            return Mark::Dead;
        }
        Mark::OldCopy
    }

    fn physical_mark(&self, page: u32, stamp: u64) -> Mark
        ensures { (image : Image) → IsLiveOf image self.now → result ≡ physical_mark image page stamp }
    {
        if self.places.contains(&page) {
            Mark::Live
        } else if self.stamps.contains(&stamp) {
            Mark::OldCopy
        } else {
            Mark::Dead
        }
    }

    /// How a page is found whose spare bytes spell this record, or none.
    pub fn mark(&self, page: u32, rec: Option<SpareRec>) -> Mark
        requires { 0 < self.now.shape.pages }
        ensures { (image : Image) → IsLiveOf image self.now → result ≡ spelled_mark image page rec }
    {
        let is_low = (page as u64) < virtual_end(&self.shape);
        match rec {
            None => Mark::Dead,
            Some(SpareRec::Virtual { vaddr, stamp, .. }) => {
                if is_low && vaddr < self.shape.vaddrs {
                    self.virtual_mark(page, vaddr, stamp)
                } else {
                    Mark::Dead
                }
            }
            Some(SpareRec::Physical { stamp, .. }) => {
                if is_low {
                    Mark::Dead
                } else {
                    self.physical_mark(page, stamp)
                }
            }
        }
    }
}
