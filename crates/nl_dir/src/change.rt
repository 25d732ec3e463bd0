//! An entry is put into a directory, or removed from it.
ghost use Rattle.std.specs.Prelude.{◌≡◌, ◌<◌, IsSome, None, Some};
ghost use Rattle.nl_meta.specs.Nodes.{entry_named};
ghost use Rattle.nl_meta.specs.Pages.{page_of};
ghost use Rattle.nl_dir.specs.Changes.{InsertsEntry, RemovesDirectoryEntry};
ghost use Rattle.nl_dir.specs.Directory.{FitsFresh, HasPlaces, HasRoomForDirty, IsDirectory, given_up, longer};
ghost use Rattle.nl_dir.specs.Slots.{DropsLast, FillsPlace};

use crate::look::{address_at, count, page_at, place_of};
use crate::page::{bytes_in, hold, put_bytes, put_entry};
use nl_field::{EntryRec, InodeRec};
use nl_meta::Meta;

/// Puts an entry behind those of a directory that has fewer than 1024, none under its name. The address of a new page is given
/// exactly where the last page is full; whatever its page had, it is zero behind the entry. The page of the entry is dirty, and no
/// other one changes.
pub fn insert(rec: &mut InodeRec, meta: &mut Meta, entry: &EntryRec, fresh: Option<u32>)
    requires directory { IsDirectory (page_of meta.old) rec.old }
    requires few { rec.old.size < 1024 }
    requires absent { entry_named (page_of meta.old) rec.old entry.now.name ≡ None }
    requires room { HasRoomForDirty 1 meta.old }
    requires fresh { FitsFresh meta.old rec.old fresh }
    ensures { InsertsEntry entry.now fresh rec.old rec.new meta.old meta.new }
{
    match fresh {
        Some(vaddr) => put_first(rec, meta, entry, vaddr),
        None => put_behind(rec, meta, entry),
    }
    lengthen(rec, fresh);
}

// The entry is the first one of a new page.
fn put_first(rec: &InodeRec, meta: &mut Meta, entry: &EntryRec, vaddr: u32)
    requires directory { IsDirectory (page_of meta.old) rec.now }
    requires few { rec.now.size < 1024 }
    requires absent { entry_named (page_of meta.old) rec.now entry.now.name ≡ None }
    requires room { HasRoomForDirty 1 meta.old }
    requires fresh { FitsFresh meta.old rec.now (Some vaddr) }
    ensures { InsertsEntry entry.now (Some vaddr) rec.now (longer rec.now (Some vaddr)) meta.old meta.new }
{
    hold(meta, vaddr);
    put_entry(meta, vaddr, 0, entry, true);
}

// The entry is not the first one of its page.
fn put_behind(rec: &InodeRec, meta: &mut Meta, entry: &EntryRec)
    requires directory { IsDirectory (page_of meta.old) rec.now }
    requires few { rec.now.size < 1024 }
    requires absent { entry_named (page_of meta.old) rec.now entry.now.name ≡ None }
    requires room { HasRoomForDirty 1 meta.old }
    requires fresh { FitsFresh meta.old rec.now None }
    ensures { InsertsEntry entry.now None rec.now (longer rec.now None) meta.old meta.new }
{
    let place = count(rec);
    put_entry(meta, address_at(rec, place), place % 64, entry, false);
}

// The record has one place more, which begins the page of a new address where one is given.
fn lengthen(rec: &mut InodeRec, fresh: Option<u32>)
    requires { rec.old.size < 1024 }
    ensures { rec.new ≡ longer rec.old fresh }
{
    if let Some(vaddr) = fresh {
        rec.addresses[rec.size as usize / 64] = vaddr;
    }
    rec.size += 1;
}

/// Removes the entry of a name that is there; the last entry takes its place. Tells the address of the page that is given up, exactly
/// where the last entry was the only one of its page; what that page has, nobody needs. The pages of the two places that change are
/// dirty, and no other one changes.
pub fn remove(rec: &mut InodeRec, meta: &mut Meta, name: &[u8]) -> Option<u32>
    requires directory { IsDirectory (page_of meta.old) rec.old }
    requires there { IsSome (entry_named (page_of meta.old) rec.old name.now) }
    requires room { HasRoomForDirty 2 meta.old }
    ensures { RemovesDirectoryEntry name.now result rec.old rec.new meta.old meta.new }
{
    match place_of(rec, meta, name) {
        Some(place) => {
            fill(rec, meta, place);
            drop_last(rec, meta)
        }
        None => unreachable!(),
    }
}

// The last entry stands at this place too.
fn fill(rec: &InodeRec, meta: &mut Meta, place: u32)
    requires places { HasPlaces (page_of meta.old) rec.now }
    requires below { place < rec.now.size }
    requires room { HasRoomForDirty 2 meta.old }
    ensures filled { FillsPlace place rec.now meta.old meta.new }
    ensures places { HasPlaces (page_of meta.new) rec.now }
    ensures room { HasRoomForDirty 1 meta.new }
{
    let last = count(rec) - 1;
    if place != last {
        let bytes = bytes_in(page_at(rec, meta, last), last % 64);
        put_bytes(meta, address_at(rec, place), place % 64, &bytes);
    }
}

// The directory is one place shorter. Tells the address of the page that is given up.
fn drop_last(rec: &mut InodeRec, meta: &mut Meta) -> Option<u32>
    requires places { HasPlaces (page_of meta.old) rec.old }
    requires some { 0 < rec.old.size }
    requires room { HasRoomForDirty 1 meta.old }
    ensures dropped { DropsLast rec.old rec.new meta.old meta.new }
    ensures places { HasPlaces (page_of meta.new) rec.new }
    ensures given { result ≡ given_up rec.old }
{
    let last = count(rec) - 1;
    let gone = address_at(rec, last);
    rec.size -= 1;
    if last % 64 == 0 {
        rec.addresses[last as usize / 64] = 0;
        Some(gone)
    } else {
        put_bytes(meta, gone, last % 64, &[0; 64]);
        None
    }
}
