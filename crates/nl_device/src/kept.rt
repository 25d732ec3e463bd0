// What a device keeps of the scan of its start.
ghost use Rattle.std.specs.Prelude.{◌≡◌, ◌*◌, ◌+◌, ◌<◌, ◌^◌, ◌++◌, ◌∷◌, [], All, IfOk, OnOk, Some, length};
ghost use Rattle.std.specs.List.{AllPairs};
ghost use Rattle.std.specs.Ordering.{nat_cmp};
ghost use Rattle.std.specs.BTreeMap.{get, Updates};
ghost use Rattle.nl_device.specs.Copies.{noted};
ghost use Rattle.nl_device.specs.Kept.{kept_from, kept_of_scan};
ghost use Rattle.nl_scan.specs.Tables.{IsSeen};

mod copies;
mod page;
mod places;
mod retain;
mod spare;

use copies::Copies;
use nl_field::{Memory, Shape, SpareRec};
use nl_scan::{ScanTables, Seen};
use page::KeptPage;
use std::alloc::Global;
use std::collections::BTreeMap;
use std::marker::Model;

/// What is kept of a scan until the opening is done: the readable pages of the physical segment. It has room for the marks that
/// the opening makes.
#[derive(Drop)]
pub(crate) struct Kept {
    first: u32,
    size: u32,
    pages: Vec<KeptPage>,
    copies: BTreeMap<u64, Copies>,
    /// Of each block of the segment, whether it has a needed page with no copy in another block.
    alone: Vec<bool>,
}

impl Model for Kept {
    ghost use Rattle.nl_device.specs.Kept.{KeptPages, AreKeptPages};
    ghost use Rattle.std.specs.Prelude.{length};

    ghost Value = { KeptPages };

    ghost view = { λ k. record { first = k.first; count = length k.alone.items; size = k.size; pages = k.pages.items } };

    ghost invariant = { λ k. AreKeptPages (record {
      first = k.first;
      count = length k.alone.items;
      size = k.size;
      pages = k.pages.items;
    }) k.copies };
}

impl Kept {
    /// The pages of the physical segment that a scan saw.
    pub(crate) fn of(alloc: Global, tables: &ScanTables, shape: &Shape) -> Result<Kept, Memory>
        requires some { 0 < shape.now.pages }
        requires few { shape.now.vblocks + shape.now.pblocks < 2 ^ 32 }
        requires rising { AllPairs (λ a b. a.page < b.page) tables.now.seen }
        requires within { All (IsSeen ((shape.now.vblocks + shape.now.pblocks) * shape.now.pages)) tables.now.seen }
        ensures { IfOk result (λ k. k ≡ kept_of_scan shape.now tables.now.seen) }
    {
        let low = shape.vblocks as u64 * shape.pages as u64;
        let mut pages = Vec::new(alloc);
        let mut copies = BTreeMap::new(alloc);
        'seen: for at in 0..tables.len() {
            match kept_from(low, tables.get(at)) {
                Some(page) => {
                    note(&mut copies, &page, shape.pages)?;
                    pages.push(page)?;
                }
                None => {}
            }
        }
        Ok(Kept {
            first: shape.vblocks,
            size: shape.pages,
            pages,
            copies,
            alone: vec![in alloc; false; shape.pblocks as usize]?,
        })
    }
}

/// A page from that number on that has a record of the physical kind.
fn kept_from(low: u64, seen: &Seen) -> Option<KeptPage>
    ensures { result ≡ kept_from low seen.now }
{
    match seen.rec {
        SpareRec::Physical { tag, stamp, .. } if low <= seen.page as u64 => Some(KeptPage {
            page: seen.page,
            stamp,
            tag,
        }),
        SpareRec::Physical { .. } | SpareRec::Virtual { .. } => None,
    }
}

/// Notes a page among the copies of its stamp.
fn note(copies: &mut BTreeMap<u64, Copies>, page: &KeptPage, size: u32) -> Result<(), Memory>
    requires { 0 < size }
    ensures { OnOk result (Updates nat_cmp copies.old copies.new page.now.stamp
        (Some (noted size page.now.page (get nat_cmp copies.old page.now.stamp)))) }
{
    let noted = match copies.get(&page.stamp) {
        Some(seen) => seen.with(page.page, size),
        None => Copies::first(page.page),
    };
    copies.insert(page.stamp, noted)?;
    Ok(())
}
