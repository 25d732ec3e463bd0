//! A page index of a file gets a pointer, with a page for its range where that has none.
ghost use Rattle.std.specs.Prelude.{◌≡◌, ◌≢◌, ◌↔◌, ◌<◌, ◌≤◌, ◌+◌, ◌^◌, ◌++◌, IfSome, IsSome, IsTrue, Some, true, length};
ghost use Rattle.nl_field.specs.Spelling.{is_stamp};
ghost use Rattle.nl_field.specs.declared.pointer.Pointer.{Pointer as PointerOf};
ghost use Rattle.nl_meta.specs.Committed.{VirtualMap};
ghost use Rattle.nl_meta.specs.Nodes.{pointer_at};
ghost use Rattle.nl_meta.specs.Pages.{has_room, page_of};
ghost use Rattle.nl_meta.specs.Running.{running_over};
ghost use Rattle.nl_indirect.specs.Ranges.{HasRange, IsFileRecord, address_of};
ghost use Rattle.nl_indirect.specs.Storing.{BeginsRange, IsForNew, Stores};
ghost use Rattle.nl_indirect.specs.declared.answer.Stored.TheVariants.{Done};
ghost use Rattle.nl_files.specs.Installing.{FreeAreNewToFile, HasFree, Installs, TakesLeastAddress};
ghost use Rattle.nl_files.specs.Spans.{as_list};

use crate::gathering::add;
use nl_field::{InodeRec, Pointer, PointerList};
use nl_indirect::{lookup, page_address, store};
use nl_inode::Nodes;
use nl_meta::Meta;

const DIRECT: u32 = 8;

/// Gives a page index of a file a pointer. The page of its range, where there is one, is resident and may become dirty; a range
/// without a page gets one at the least free address of the pool. The pointer that the index had stands behind those of a list that
/// has room for it. The node's page is not written.
pub fn install(
    meta: &mut Meta,
    nodes: &mut Nodes,
    rec: &mut InodeRec,
    index: u32,
    to: Pointer,
    freeing: &mut PointerList,
)
    requires within { index < 4104 }
    requires file { IsFileRecord rec.old }
    requires range { HasRange (page_of meta.old) rec.old index }
    requires to { IsTrue (is_stamp to.stamp) }
    requires room { address_of rec.old index ≢ 0 → has_room meta.old (address_of rec.old index) ≡ true }
    requires free { FreeAreNewToFile nodes.old meta.old rec.old }
    requires fresh { BeginsRange rec.old index (Some to) → HasFree nodes.old }
    requires place { 0 < freeing.old.room }
    requires few { length freeing.old.items + 1 < 2 ^ 32 }
    ensures installed { Installs index to rec.old rec.new meta.old meta.new nodes.old nodes.new }
    ensures freeing { (device : VirtualMap)
        → freeing.new.items ≡ freeing.old.items ++ as_list (pointer_at (running_over device meta.old) rec.old index) }
    ensures left { length freeing.old.items + freeing.old.room ≤ length freeing.new.items + freeing.new.room }
{
    let fresh = fresh_for(nodes, rec, index);
    replace(meta, rec, index, to, fresh, freeing);
}

// The index has the pointer, and the one that it had stands behind those of the list.
pub(crate) fn replace(
    meta: &mut Meta,
    rec: &mut InodeRec,
    index: u32,
    to: Pointer,
    fresh: Option<u32>,
    freeing: &mut PointerList,
)
    requires within { index < 4104 }
    requires file { IsFileRecord rec.old }
    requires range { HasRange (page_of meta.old) rec.old index }
    requires to { IsTrue (is_stamp to.stamp) }
    requires room { address_of rec.old index ≢ 0 → has_room meta.old (address_of rec.old index) ≡ true }
    requires begins { IsSome fresh ↔ BeginsRange rec.old index (Some to) }
    requires fresh { IfSome fresh (IsForNew meta.old rec.old) }
    requires place { 0 < freeing.old.room }
    requires few { length freeing.old.items + 1 < 2 ^ 32 }
    ensures stored { Stores index to fresh rec.old rec.new meta.old meta.new Done }
    ensures freeing { (device : VirtualMap)
        → freeing.new.items ≡ freeing.old.items ++ as_list (pointer_at (running_over device meta.old) rec.old index) }
    ensures left { length freeing.old.items + freeing.old.room ≤ length freeing.new.items + freeing.new.room }
{
    let had = lookup(rec, meta, index);
    store(rec, meta, index, Some(to), fresh);
    if let Some(pointer) = had {
        add(freeing, pointer);
    }
}

// Takes an address for a new page, where the range of the index has none.
fn fresh_for(nodes: &mut Nodes, rec: &InodeRec, index: u32) -> Option<u32>
    requires within { index < 4104 }
    requires fresh { (to : PointerOf) → BeginsRange rec.now index (Some to) → HasFree nodes.old }
    ensures begins { (to : PointerOf) → IsSome result ↔ BeginsRange rec.now index (Some to) }
    ensures taken { TakesLeastAddress result nodes.old nodes.new }
{
    if index < DIRECT {
        return None;
    }
    let address = page_address(rec, index);
    if address != 0 {
        return None;
    }
    nodes.take_pool()
}
