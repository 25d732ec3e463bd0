//! The pointer of a file at a page index: it is looked up, and stored.
ghost use Rattle.std.specs.Prelude.{◌≡◌, ◌≢◌, ◌↔◌, ◌<◌, [], ℕ, IfSome, IsSome, IsTrue, Some, true, length, unwrap_or};
ghost use Rattle.nl_field.specs.Bytes.{zeros};
ghost use Rattle.nl_field.specs.Pointers.{is_pointer, pointer_bytes, pointer_of};
ghost use Rattle.nl_field.specs.Spelling.{is_stamp};
ghost use Rattle.nl_meta.specs.Committed.{VirtualMap};
ghost use Rattle.nl_meta.specs.Nodes.{pointer_at};
ghost use Rattle.nl_meta.specs.Pages.{Pages, has_room, page_of};
ghost use Rattle.nl_meta.specs.Running.{running_over};
ghost use Rattle.nl_meta.specs.SlotLaws.{with_slot};
ghost use Rattle.nl_meta.specs.Steps.{Freshens, with_dirty};
ghost use Rattle.nl_indirect.specs.Ranges.{HasRange, IsFileRecord, address_of, some_pointer};
ghost use Rattle.nl_indirect.specs.Storing.{BeginsRange, IsForNew, Stores, or_none};

use crate::answer::Stored;
use crate::page::{has_other, read, some, write};
use nl_field::{InodeRec, Pointer};
use nl_meta::Meta;

const DIRECT: u32 = 8;

const SLOTS: u32 = 256;

const NONE: Pointer = Pointer { name: 0, stamp: 0 };

/// How many page indexes a file has: 8 in its node, and 16 ranges of 256.
pub const INDEXES: u32 = 4104;

/// The address of the page that has the pointer of a page index, of which a file has 4104. 0 where the node has it, or where the
/// range of 256 indexes has no page.
pub fn page_address(rec: &InodeRec, index: u32) -> u32
    requires { index < 4104 }
    ensures { result ≡ address_of rec.now index }
{
    if index < DIRECT {
        0
    } else {
        rec.addresses[((index - DIRECT) / SLOTS) as usize]
    }
}

/// The pointer of a file at a page index. None exactly where there is no page. The page that has the pointer, where one has it, is
/// resident.
pub fn lookup(rec: &InodeRec, meta: &Meta, index: u32) -> Option<Pointer>
    requires within { index < 4104 }
    requires range { HasRange (page_of meta.now) rec.now index }
    ensures value { result ≡ some_pointer (pointer_at (page_of meta.now) rec.now index) }
    ensures running { (device : VirtualMap) → result ≡ some_pointer (pointer_at (running_over device meta.now) rec.now index) }
{
    if index < DIRECT {
        return some(rec.direct[index as usize]);
    }
    let address = rec.addresses[((index - DIRECT) / SLOTS) as usize];
    if address == 0 {
        return None;
    }
    read(meta.page(address), (index - DIRECT) % SLOTS)
}

/// Gives a page index of a file a pointer, or none. Where its range has a page, that is resident and may become dirty. `fresh` is
/// there exactly where the range gets its first pointer: it becomes the address of a new page of zeros, which has that pointer.
/// `Emptied` tells the page of a range that lost its last pointer; what it holds stays as it was.
pub fn store(
    rec: &mut InodeRec,
    meta: &mut Meta,
    index: u32,
    to: Option<Pointer>,
    fresh: Option<u32>,
) -> Stored
    requires within { index < 4104 }
    requires file { IsFileRecord rec.old }
    requires range { HasRange (page_of meta.old) rec.old index }
    requires room { address_of rec.old index ≢ 0 → has_room meta.old (address_of rec.old index) ≡ true }
    requires to { IfSome to (λ p. IsTrue (is_stamp p.stamp)) }
    requires begins { IsSome fresh ↔ BeginsRange rec.old index to }
    requires fresh { IfSome fresh (λ a. IsForNew meta.old rec.old a) }
    ensures { Stores index (or_none to) fresh rec.old rec.new meta.old meta.new result }
{
    if index < DIRECT {
        rec.direct[index as usize] = to.unwrap_or(NONE);
        return Stored::Done;
    }
    let range = ((index - DIRECT) / SLOTS) as usize;
    let slot = (index - DIRECT) % SLOTS;
    let address = rec.addresses[range];
    if let Some(new) = fresh {
        begin(meta, new, slot, &to.unwrap_or(NONE));
        rec.addresses[range] = new;
        return Stored::Done;
    }
    if address == 0 {
        return Stored::Done;
    }
    if to.is_none() && !has_other(meta.page(address), slot) {
        rec.addresses[range] = 0;
        return Stored::Emptied(address);
    }
    put(meta, address, slot, &to.unwrap_or(NONE));
    Stored::Done
}

// The pointer stands in this slot of a resident page, which is dirty.
fn put(meta: &mut Meta, address: u32, slot: u32, pointer: &Pointer)
    requires slot { slot < 256 }
    requires there { IsSome (page_of meta.old address) }
    requires room { has_room meta.old address ≡ true }
    requires spelled { IsTrue (is_pointer pointer.now) }
    ensures page { meta.new
        ≡ with_dirty meta.old address (with_slot 16 slot (pointer_bytes pointer.now) (unwrap_or (page_of meta.old address) [])) }
    ensures whole { length (unwrap_or (page_of meta.old address) []) ≡ 4096 }
    ensures back { pointer_of (pointer_bytes pointer.now) ≡ Some pointer.now }
{
    match meta.page_mut(address) {
        Some(page) => write(page, slot, pointer),
        None => unreachable!(),
    }
}

// The pointer stands in this slot of a new page of zeros.
#[tactic(auto, using(crate::proofs::Fresh::new_has_room))]
fn begin(meta: &mut Meta, address: u32, slot: u32, pointer: &Pointer)
    requires slot { slot < 256 }
    requires inside { address < length meta.old.running }
    requires room { has_room meta.old address ≡ true }
    requires spelled { IsTrue (is_pointer pointer.now) }
    ensures page { (blank : Pages) × Freshens address meta.old blank
        × (meta.new ≡ with_dirty blank address (with_slot 16 slot (pointer_bytes pointer.now) (zeros 4096))) }
    ensures back { pointer_of (pointer_bytes pointer.now) ≡ Some pointer.now }
{
    meta.fresh(address);
    put(meta, address, slot, pointer);
}
