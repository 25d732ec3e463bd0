//! The pointers of a file from a page index on are taken away.
ghost use Rattle.std.specs.Prelude.{◌≡◌, ◌≢◌, ◌≤◌, ◌<◌, ◌++◌, ◌-◌, [], List, ℕ, IsSome, IsTrue, true, false, length, replicate, take, unwrap_or};
ghost use Rattle.nl_field.specs.Pointers.{no_pointer};
ghost use Rattle.nl_field.specs.declared.inode.InodeRec.{InodeRec as Rec};
ghost use Rattle.nl_meta.specs.Pages.{has_room, page_of};
ghost use Rattle.nl_meta.specs.Steps.{with_dirty};
ghost use Rattle.nl_indirect.specs.Ranges.{HasRange, IsFileRecord, address_of, slot_of};
ghost use Rattle.nl_indirect.specs.Truncating.{CutsSlots, NoneBefore, StaysBefore, TruncatesPointers};

use crate::page::{clear_from, has_before};
use nl_field::{InodeRec, Pointer};
use nl_meta::Meta;

const DIRECT: u32 = 8;

const SLOTS: u32 = 256;

const NONE: Pointer = Pointer { name: 0, stamp: 0 };

/// Takes away the pointers of a file from a page index on. A range without pointers has no address any more; what its page holds
/// stays as it was. The page of the index is looked at, and may become dirty, only where the index is not the first of its range.
pub fn truncate(rec: &mut InodeRec, meta: &mut Meta, from: u32)
    requires within { from ≤ 4104 }
    requires file { IsFileRecord rec.old }
    requires range { slot_of from ≢ 0 → HasRange (page_of meta.old) rec.old from }
    requires room { slot_of from ≢ 0 → address_of rec.old from ≢ 0 → has_room meta.old (address_of rec.old from) ≡ true }
    ensures { TruncatesPointers from rec.old rec.new meta.old meta.new }
{
    if from < DIRECT {
        drop_direct(rec, from as usize);
        drop_ranges(rec, 0);
        return;
    }
    let range = ((from - DIRECT) / SLOTS) as usize;
    if stays(rec, meta, from) {
        cut(meta, rec.addresses[range], (from - DIRECT) % SLOTS);
        drop_ranges(rec, range + 1);
    } else {
        drop_ranges(rec, range);
    }
}

// Whether the range of an index has a pointer before the index.
fn stays(rec: &InodeRec, meta: &Meta, from: u32) -> bool
    requires high { 8 ≤ from }
    requires within { from ≤ 4104 }
    requires range { slot_of from ≢ 0 → HasRange (page_of meta.now) rec.now from }
    ensures some { result ≡ true → (slot_of from ≢ 0) × StaysBefore meta.now rec.now from }
    ensures none { result ≡ false → NoneBefore meta.now rec.now from }
{
    let slot = (from - DIRECT) % SLOTS;
    if slot == 0 {
        return false;
    }
    let address = rec.addresses[((from - DIRECT) / SLOTS) as usize];
    address != 0 && has_before(meta.page(address), slot)
}

// The pointers of the record from an index on are none.
fn drop_direct(rec: &mut InodeRec, from: usize)
    requires within { from ≤ 8 }
    requires eight { length rec.old.direct ≡ 8 }
    ensures { rec.new ≡ record rec.old { direct = take from rec.old.direct ++ replicate (8 - from) no_pointer } }
{
    rec.direct[from..].fill(NONE);
}

// The addresses of the record from a range on are none.
fn drop_ranges(rec: &mut InodeRec, first: usize)
    requires within { first ≤ 16 }
    requires sixteen { length rec.old.addresses ≡ 16 }
    ensures { rec.new ≡ record rec.old { addresses = take first rec.old.addresses ++ replicate (16 - first) 0 } }
{
    rec.addresses[first..].fill(0);
}

// The slots of a resident page from one on have no pointer, and the page is dirty.
fn cut(meta: &mut Meta, address: u32, slot: u32)
    requires slot { slot < 256 }
    requires there { IsSome (page_of meta.old address) }
    requires whole { length (unwrap_or (page_of meta.old address) []) ≡ 4096 }
    requires room { has_room meta.old address ≡ true }
    ensures { (bytes : List ℕ) × CutsSlots slot (unwrap_or (page_of meta.old address) []) bytes
        × (meta.new ≡ with_dirty meta.old address bytes) }
{
    match meta.page_mut(address) {
        Some(page) => clear_from(page, slot),
        None => unreachable!(),
    }
}
