//! The pointers of all files, gathered in the order of nodes and indexes, whatever their addresses lead to.
ghost use Rattle.std.specs.Prelude.{◌≡◌, ◌+◌, ◌*◌, ◌<◌, ◌≤◌, ◌^◌, ◌++◌, length, IfOk, OnOk};
ghost use Rattle.nl_field.specs.Numbers.{ShapeBounds};
ghost use Rattle.nl_field.specs.Pointers.{pointer_fields};
ghost use Rattle.nl_meta.specs.Nodes.{held_in, inode_at, pointer_at, pointer_in_page, slot_in};
ghost use Rattle.nl_meta.specs.Pages.{page_of};
ghost use Rattle.nl_recover.specs.Held.{held_from, held_index, pointers_at_node};

use nl_field::numbers::pointer_from;
use nl_field::{InodeRec, Kind, Memory, PageBuf, Pointer, Shape, Tag};
use nl_meta::Meta;
use nl_recover_pointers::{HeldList, HeldPointer};
use std::alloc::Global;

const NONE: Pointer = Pointer { name: 0, stamp: 0 };

/// The pointers of all files, in the order of nodes and indexes. A page that is not there has none, and any other one those that its bytes
/// are read as, spelled or not.
pub(crate) fn held_pointers(alloc: Global, shape: &Shape, meta: &Meta) -> Result<HeldList, Memory>
    requires { ShapeBounds shape.now }
    ensures { IfOk result (λ h. h ≡ held_in shape.now (page_of meta.now)) }
{
    let mut held = HeldList::new(alloc);
    for ino in 0..shape.nodes {
        node_held(&mut held, meta, ino)?;
    }
    Ok(held)
}

fn node_held(held: &mut HeldList, meta: &Meta, ino: u32) -> Result<(), Memory>
    requires few { length held.old + 4104 < 2 ^ 32 }
    ensures held { OnOk result (held.new ≡ held.old ++ pointers_at_node (page_of meta.now) ino) }
    ensures longer { length held.new ≤ length held.old + 4104 }
{
    match inode(meta, ino) {
        Some(rec) => match rec.kind {
            Kind::File => {
                file_held(held, meta, ino, &rec)?;
                Ok(())
            }
            Kind::Dir => Ok(()),
            Kind::Unused => Ok(()),
        },
        None => Ok(()),
    }
}

// The record of a node that the resident pages have.
fn inode(meta: &Meta, ino: u32) -> Option<InodeRec>
    ensures { result ≡ inode_at (page_of meta.now) ino }
{
    let vaddr = 67 + ino / 16;
    if meta.resident(vaddr) {
        InodeRec::of(meta.page(vaddr), 256 * (ino % 16))
    } else {
        None
    }
}

fn file_held(held: &mut HeldList, meta: &Meta, ino: u32, rec: &InodeRec) -> Result<(), Memory>
    requires few { length held.old + 4104 < 2 ^ 32 }
    ensures held { OnOk result (held.new ≡ held.old ++ held_from (page_of meta.now) ino rec.now 0 4104) }
    ensures longer { length held.new ≤ length held.old + 4104 }
{
    some_held(held, meta, ino, rec, 0, 8)?;
    for range in 0..16 {
        range_held(held, meta, ino, rec, range)?;
    }
    Ok(())
}

// The 256 pointers of a range.
fn range_held(
    held: &mut HeldList,
    meta: &Meta,
    ino: u32,
    rec: &InodeRec,
    range: u32,
) -> Result<(), Memory>
    requires inside { range < 16 }
    requires few { length held.old + 256 < 2 ^ 32 }
    ensures held { OnOk result (held.new ≡ held.old ++ held_from (page_of meta.now) ino rec.now (8 + 256 * range) 256) }
    ensures longer { length held.new ≤ length held.old + 256 }
{
    if rec.addresses[range as usize] == 0 {
        return Ok(());
    }
    some_held(held, meta, ino, rec, 8 + 256 * range, 256)?;
    Ok(())
}

// The pointers of so many indexes.
fn some_held(
    held: &mut HeldList,
    meta: &Meta,
    ino: u32,
    rec: &InodeRec,
    from: u32,
    count: u32,
) -> Result<(), Memory>
    requires inside { from + count ≤ 4104 }
    requires few { length held.old + count < 2 ^ 32 }
    ensures held { OnOk result (held.new ≡ held.old ++ held_from (page_of meta.now) ino rec.now from count) }
    ensures longer { length held.new ≤ length held.old + count }
{
    for i in 0..count {
        one_held(held, meta, ino, rec, from + i)?;
    }
    Ok(())
}

fn one_held(
    held: &mut HeldList,
    meta: &Meta,
    ino: u32,
    rec: &InodeRec,
    index: u32,
) -> Result<(), Memory>
    requires inside { index < 4104 }
    requires few { length held.old + 1 < 2 ^ 32 }
    ensures held { OnOk result (held.new ≡ held.old ++ held_index (page_of meta.now) ino rec.now index) }
    ensures longer { length held.new ≤ length held.old + 1 }
{
    let pointer = pointer_at(rec, meta, index);
    if pointer.is_none() {
        return Ok(());
    }
    held.push(HeldPointer {
        size: rec.size,
        tag: Tag {
            ino,
            generation: rec.generation,
            index,
        },
        pointer,
    })?;
    Ok(())
}

// The pointer of a file at an index.
fn pointer_at(rec: &InodeRec, meta: &Meta, index: u32) -> Pointer
    requires { index < 4104 }
    ensures { result ≡ pointer_at (page_of meta.now) rec.now index }
{
    if index < 8 {
        rec.direct[index as usize]
    } else {
        pointer_on(
            meta,
            rec.addresses[((index - 8) / 256) as usize],
            (index - 8) % 256,
        )
    }
}

// The pointer in a slot of the page of an address, none where there is no page.
fn pointer_on(meta: &Meta, address: u32, slot: u32) -> Pointer
    requires { slot < 256 }
    ensures { result ≡ pointer_in_page (page_of meta.now) address slot }
{
    if address == 0 {
        return NONE;
    }
    if meta.resident(address) {
        pointer_in(meta.page(address), slot)
    } else {
        NONE
    }
}

fn pointer_in(page: &PageBuf, slot: u32) -> Pointer
    requires { slot < 256 }
    ensures { result ≡ pointer_fields (slot_in 16 slot page.now.main) }
{
    let at = 16 * slot as usize;
    pointer_from(&page.main()[at..at + 16])
}
