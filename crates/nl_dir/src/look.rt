//! Entries of a directory are found by name and by place.
ghost use Rattle.std.specs.Prelude.{◌≡◌, ◌<◌, ◌≤◌, IsTrue, MatchOption, Some, slice_get};
ghost use Rattle.nl_field.specs.Inode.{is_inode};
ghost use Rattle.nl_field.specs.declared.entry.EntryRec.{EntryRec as Entry};
ghost use Rattle.nl_meta.specs.Nodes.{address_of_place, entries_of_inode, entry_named};
ghost use Rattle.nl_meta.specs.Pages.{page_of};
ghost use Rattle.nl_dir.specs.Directory.{HasPlaces, IsDirectory};
ghost use Rattle.nl_dir.specs.Looking.{IsNamedAt, NoneNamed};

use crate::page::{entry_in, slot_name, slot_named};
use nl_field::{EntryRec, InodeRec, Kind, PageBuf};
use nl_meta::Meta;

/// The entry of a name. None exactly where no entry has it. It looks at each entry once at most.
pub fn find(rec: &InodeRec, meta: &Meta, name: &[u8]) -> Option<EntryRec>
    requires { IsDirectory (page_of meta.now) rec.now }
    ensures { result ≡ entry_named (page_of meta.now) rec.now name.now }
{
    match place_of(rec, meta, name) {
        Some(place) => Some(entry_at(rec, meta, place)),
        None => None,
    }
}

/// The entry at a place, counted from 0.
pub fn entry_at(rec: &InodeRec, meta: &Meta, place: u32) -> EntryRec
    requires directory { IsDirectory (page_of meta.now) rec.now }
    requires below { place < rec.now.size }
    ensures { slice_get (entries_of_inode (page_of meta.now) rec.now) place ≡ Some result }
{
    entry_in(page_at(rec, meta, place), place % 64)
}

/// The name of the entry at a place, counted from 0, as its page has it.
pub fn name_at<'a>(rec: &InodeRec, meta: &'a Meta, place: u32) -> &'a [u8]
    requires directory { IsDirectory (page_of meta.now) rec.now }
    requires below { place < rec.now.size }
    ensures { (entry : Entry) × (slice_get (entries_of_inode (page_of meta.now) rec.now) place ≡ Some entry) × (result.now ≡ entry.name) }
{
    slot_name(page_at(rec, meta, place), place % 64)
}

// The place of a name. Each page is looked up once.
pub(crate) fn place_of(rec: &InodeRec, meta: &Meta, name: &[u8]) -> Option<u32>
    requires { IsDirectory (page_of meta.now) rec.now }
    ensures { MatchOption result (NoneNamed (page_of meta.now) rec.now rec.now.size name.now)
        (IsNamedAt (page_of meta.now) rec.now name.now) }
{
    let count = count(rec);
    for row in 0..count.div_ceil(64) {
        let first = 64 * row;
        if let Some(slot) = slot_named(page_at(rec, meta, first), (count - first).min(64), name) {
            return Some(first + slot);
        }
    }
    None
}

// How many entries a directory has.
pub(crate) fn count(rec: &InodeRec) -> u32
    requires dir { rec.now.kind ≡ Kind.Dir }
    requires spelled { IsTrue (is_inode rec.now) }
    ensures value { result ≡ rec.now.size }
    ensures few { result ≤ 1024 }
{
    rec.size as u32
}

// The page of a place.
pub(crate) fn page_at<'a>(rec: &InodeRec, meta: &'a Meta, place: u32) -> &'a PageBuf
    requires places { HasPlaces (page_of meta.now) rec.now }
    requires below { place < rec.now.size }
    ensures { page_of meta.now (address_of_place rec.now place) ≡ Some result.now.main }
{
    meta.page(address_at(rec, place))
}

// The address of a place.
pub(crate) fn address_at(rec: &InodeRec, place: u32) -> u32
    requires { place < 1024 }
    ensures { result ≡ address_of_place rec.now place }
{
    rec.addresses[place as usize / 64]
}
