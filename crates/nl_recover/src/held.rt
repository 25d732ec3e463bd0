//! The pointers of all files, gathered in the order of nodes and indexes.
ghost use Rattle.std.specs.Prelude.{◌≡◌, ◌+◌, ◌*◌, ◌<◌, ◌≤◌, ◌^◌, ◌++◌, ℕ, length, IfOk, OnOk};
ghost use Rattle.nl_field.specs.Numbers.{ShapeBounds};
ghost use Rattle.nl_indirect.specs.Ranges.{HasRange, IsFileRecord};
ghost use Rattle.nl_meta.specs.Consistent.{AddressesRight};
ghost use Rattle.nl_meta.specs.Nodes.{held_in};
ghost use Rattle.nl_meta.specs.Pages.{page_of};
ghost use Rattle.nl_recover.specs.Held.{pointers_at_node, held_from, held_index};

use crate::look::inode;
use nl_field::{InodeRec, Kind, Memory, Shape, Tag};
use nl_indirect::lookup;
use nl_meta::Meta;
use nl_recover_pointers::{HeldList, HeldPointer};
use std::alloc::Global;

/// The pointers of all files, in the order of nodes and indexes, where each address of a node is right.
pub fn held_pointers(alloc: Global, shape: &Shape, meta: &Meta) -> Result<HeldList, Memory>
    requires bounds { ShapeBounds shape.now }
    requires addresses { AddressesRight shape.now (page_of meta.now) }
    ensures { IfOk result (λ h. h ≡ held_in shape.now (page_of meta.now)) }
{
    let mut held = HeldList::new(alloc);
    for ino in 0..shape.nodes {
        node_held(&mut held, shape, meta, ino)?;
    }
    Ok(held)
}

fn node_held(held: &mut HeldList, shape: &Shape, meta: &Meta, ino: u32) -> Result<(), Memory>
    requires bounds { ShapeBounds shape.now }
    requires addresses { AddressesRight shape.now (page_of meta.now) }
    requires below { ino < shape.now.nodes }
    requires few { length held.old + 4104 < 2 ^ 32 }
    ensures held { OnOk result (held.new ≡ held.old ++ pointers_at_node (page_of meta.now) ino) }
    ensures longer { length held.new ≤ length held.old + 4104 }
{
    match inode(meta, ino) {
        Some(rec) => match rec.kind {
            Kind::File => {
                file_held(held, meta, ino, &rec)?;
                Ok(())
            }
            Kind::Dir => Ok(()),
            Kind::Unused => Ok(()),
        },
        None => Ok(()),
    }
}

fn file_held(held: &mut HeldList, meta: &Meta, ino: u32, rec: &InodeRec) -> Result<(), Memory>
    requires file { IsFileRecord rec.now }
    requires ranges { (i : ℕ) → HasRange (page_of meta.now) rec.now i }
    requires few { length held.old + 4104 < 2 ^ 32 }
    ensures held { OnOk result (held.new ≡ held.old ++ held_from (page_of meta.now) ino rec.now 0 4104) }
    ensures longer { length held.new ≤ length held.old + 4104 }
{
    some_held(held, meta, ino, rec, 0, 8)?;
    for range in 0..16 {
        range_held(held, meta, ino, rec, range)?;
    }
    Ok(())
}

// The 256 pointers of a range.
fn range_held(
    held: &mut HeldList,
    meta: &Meta,
    ino: u32,
    rec: &InodeRec,
    range: u32,
) -> Result<(), Memory>
    requires file { IsFileRecord rec.now }
    requires ranges { (i : ℕ) → HasRange (page_of meta.now) rec.now i }
    requires inside { range < 16 }
    requires few { length held.old + 256 < 2 ^ 32 }
    ensures held { OnOk result (held.new ≡ held.old ++ held_from (page_of meta.now) ino rec.now (8 + 256 * range) 256) }
    ensures longer { length held.new ≤ length held.old + 256 }
{
    if rec.addresses[range as usize] == 0 {
        return Ok(());
    }
    some_held(held, meta, ino, rec, 8 + 256 * range, 256)?;
    Ok(())
}

// The pointers of so many indexes.
fn some_held(
    held: &mut HeldList,
    meta: &Meta,
    ino: u32,
    rec: &InodeRec,
    from: u32,
    count: u32,
) -> Result<(), Memory>
    requires ranges { (i : ℕ) → HasRange (page_of meta.now) rec.now i }
    requires inside { from + count ≤ 4104 }
    requires few { length held.old + count < 2 ^ 32 }
    ensures held { OnOk result (held.new ≡ held.old ++ held_from (page_of meta.now) ino rec.now from count) }
    ensures longer { length held.new ≤ length held.old + count }
{
    for i in 0..count {
        one_held(held, meta, ino, rec, from + i)?;
    }
    Ok(())
}

fn one_held(
    held: &mut HeldList,
    meta: &Meta,
    ino: u32,
    rec: &InodeRec,
    index: u32,
) -> Result<(), Memory>
    requires range { HasRange (page_of meta.now) rec.now index }
    requires inside { index < 4104 }
    requires few { length held.old + 1 < 2 ^ 32 }
    ensures held { OnOk result (held.new ≡ held.old ++ held_index (page_of meta.now) ino rec.now index) }
    ensures longer { length held.new ≤ length held.old + 1 }
{
    match lookup(rec, meta, index) {
        Some(pointer) => {
            held.push(HeldPointer {
                size: rec.size,
                tag: Tag {
                    ino,
                    generation: rec.generation,
                    index,
                },
                pointer,
            })?;
            Ok(())
        }
        None => Ok(()),
    }
}
