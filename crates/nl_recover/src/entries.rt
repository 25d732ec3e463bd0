//! The phase of a walk that looks at the entries of directories.
ghost use Rattle.std.specs.Prelude.{◌≡◌, ◌==◌, ◌<◌, ◌≤◌, ◌*◌, ℕ, [], false, length, bytes_eq, slice_index_or, IfOk, IsTrue, Some};
ghost use Rattle.std.specs.Int.{div_ceil};
ghost use Rattle.std.specs.List.{list_any};
ghost use Rattle.nl_field.specs.Inode.{is_inode};
ghost use Rattle.nl_field.specs.Numbers.{ShapeBounds};
ghost use Rattle.nl_meta.specs.Nodes.{address_of_place, inode_at, slot_in};
ghost use Rattle.nl_meta.specs.Pages.{page_of};
ghost use Rattle.nl_meta.specs.Walk.{entry_fault, has_generation, places_of};
ghost use Rattle.nl_recover.specs.Entries.{NamesEntry, NamesSlot, PassesPlaces, is_bad_entry, named_by, place_there, places_in};

use crate::look::{are_zero, inode};
use nl_field::{EntryRec, InodeRec, Kind, Memory, Name, PageBuf, Shape};
use nl_meta::Meta;
use std::alloc::Global;

/// The first directory with an entry at fault, or with something behind its last entry.
pub fn entry_fault(alloc: Global, shape: &Shape, meta: &Meta) -> Result<Option<u32>, Memory>
    requires { ShapeBounds shape.now }
    ensures { IfOk result (λ o. o ≡ entry_fault shape.now (page_of meta.now)) }
{
    let mut nodes = vec![in alloc; false; shape.nodes as usize]?;
    let mut names = Vec::new(alloc);
    first_fault(shape, meta, &mut nodes, &mut names)
}

fn first_fault(
    shape: &Shape,
    meta: &Meta,
    nodes: &mut Vec<bool>,
    names: &mut Vec<Name>,
) -> Result<Option<u32>, Memory>
    requires bounds { ShapeBounds shape.now }
    requires size { length nodes.old.items ≡ shape.now.nodes }
    requires none { (k : ℕ) → slice_index_or nodes.old.items k false ≡ false }
    ensures { IfOk result (λ o. o ≡ entry_fault shape.now (page_of meta.now)) }
{
    for ino in 0..shape.nodes {
        match node_fault(shape, meta, nodes, names, ino) {
            Ok(Some(dir)) => return Ok(Some(dir)),
            Ok(None) => {}
            Err(memory) => return Err(memory),
        }
    }
    Ok(None)
}

fn node_fault(
    shape: &Shape,
    meta: &Meta,
    nodes: &mut Vec<bool>,
    names: &mut Vec<Name>,
    ino: u32,
) -> Result<Option<u32>, Memory>
    requires bounds { ShapeBounds shape.now }
    requires size { length nodes.old.items ≡ shape.now.nodes }
    ensures size { length nodes.new.items ≡ length nodes.old.items }
    ensures passes { IfOk result (PassesPlaces shape.now (page_of meta.now) (named_by nodes.old.items [])
        (named_by nodes.new.items names.new.items) (places_in (page_of meta.now) ino (inode_at (page_of meta.now) ino))) }
{
    names.clear();
    match inode(meta, ino) {
        Some(rec) => match rec.kind {
            Kind::Dir => dir_fault(shape, meta, nodes, names, ino, &rec),
            Kind::File => Ok(None),
            Kind::Unused => Ok(None),
        },
        None => Ok(None),
    }
}

fn dir_fault(
    shape: &Shape,
    meta: &Meta,
    nodes: &mut Vec<bool>,
    names: &mut Vec<Name>,
    ino: u32,
    rec: &InodeRec,
) -> Result<Option<u32>, Memory>
    requires bounds { ShapeBounds shape.now }
    requires size { length nodes.old.items ≡ shape.now.nodes }
    requires dir { rec.now.kind ≡ Kind.Dir }
    requires spelled { IsTrue (is_inode rec.now) }
    ensures size { length nodes.new.items ≡ length nodes.old.items }
    ensures passes { IfOk result (PassesPlaces shape.now (page_of meta.now) (named_by nodes.old.items names.old.items)
        (named_by nodes.new.items names.new.items) (places_of (page_of meta.now) (ino, rec.now))) }
{
    for place in 0..place_count(rec) {
        match place_fault(shape, meta, nodes, names, ino, rec, place) {
            Ok(Some(dir)) => return Ok(Some(dir)),
            Ok(None) => {}
            Err(memory) => return Err(memory),
        }
    }
    Ok(None)
}

/// How many places the pages of a directory have.
pub(crate) fn place_count(rec: &InodeRec) -> u32
    requires dir { rec.now.kind ≡ Kind.Dir }
    requires spelled { IsTrue (is_inode rec.now) }
    ensures value { result ≡ 64 * div_ceil rec.now.size 64 }
    ensures few { result ≤ 1024 }
{
    64 * (rec.size as u32).div_ceil(64)
}

/// The address of a place.
pub(crate) fn address_at(rec: &InodeRec, place: u32) -> u32
    requires { place < 1024 }
    ensures { result ≡ address_of_place rec.now place }
{
    rec.addresses[place as usize / 64]
}

// A place of a directory, if its page is there.
fn place_fault(
    shape: &Shape,
    meta: &Meta,
    nodes: &mut Vec<bool>,
    names: &mut Vec<Name>,
    ino: u32,
    rec: &InodeRec,
    place: u32,
) -> Result<Option<u32>, Memory>
    requires bounds { ShapeBounds shape.now }
    requires size { length nodes.old.items ≡ shape.now.nodes }
    requires inside { place < 1024 }
    ensures size { length nodes.new.items ≡ length nodes.old.items }
    ensures passes { IfOk result (PassesPlaces shape.now (page_of meta.now) (named_by nodes.old.items names.old.items)
        (named_by nodes.new.items names.new.items) (place_there (page_of meta.now) ino rec.now place)) }
{
    let address = address_at(rec, place);
    if !meta.resident(address) {
        return Ok(None);
    }
    let is_entry = (place as u64) < rec.size;
    match slot_fault(
        shape,
        meta,
        nodes,
        names,
        meta.page(address),
        place % 64,
        is_entry,
    ) {
        Ok(true) => Ok(Some(ino)),
        Ok(false) => Ok(None),
        Err(memory) => Err(memory),
    }
}

// Whether a slot of a page is at fault, as an entry or behind the last one.
fn slot_fault(
    shape: &Shape,
    meta: &Meta,
    nodes: &mut Vec<bool>,
    names: &mut Vec<Name>,
    page: &PageBuf,
    slot: u32,
    is_entry: bool,
) -> Result<bool, Memory>
    requires size { length nodes.old.items ≡ shape.now.nodes }
    requires inside { slot < 64 }
    ensures size { length nodes.new.items ≡ length nodes.old.items }
    ensures slot { IfOk result (NamesSlot shape.now (page_of meta.now) (named_by nodes.old.items names.old.items)
        (named_by nodes.new.items names.new.items) is_entry (slot_in 64 slot page.now.main)) }
{
    if is_entry {
        name(shape, meta, nodes, names, EntryRec::of(page, 64 * slot))
    } else {
        Ok(!are_zero(page, 64 * slot as usize, 64))
    }
}

// The node and the name of an entry count as named, unless the entry is at fault.
fn name(
    shape: &Shape,
    meta: &Meta,
    nodes: &mut Vec<bool>,
    names: &mut Vec<Name>,
    entry: Option<EntryRec>,
) -> Result<bool, Memory>
    requires { length nodes.old.items ≡ shape.now.nodes }
    ensures size { length nodes.new.items ≡ length nodes.old.items }
    ensures names { IfOk result (NamesEntry shape.now (page_of meta.now) (named_by nodes.old.items names.old.items)
        (named_by nodes.new.items names.new.items) entry) }
{
    match entry {
        Some(entry) => {
            if is_bad(shape, meta, nodes, names, &entry) {
                return Ok(true);
            }
            let EntryRec {
                ino,
                generation: _,
                name,
            } = entry;
            nodes[ino as usize] = true;
            names.push(name)?;
            Ok(false)
        }
        None => Ok(true),
    }
}

fn is_bad(shape: &Shape, meta: &Meta, nodes: &[bool], names: &[Name], entry: &EntryRec) -> bool
    requires { length nodes.now ≡ shape.now.nodes }
    ensures value { result ≡ is_bad_entry shape.now (page_of meta.now) (named_by nodes.now names.now) (Some entry.now) }
    ensures inside { result ≡ false → entry.now.ino < shape.now.nodes }
{
    entry.ino == 0
        || shape.nodes <= entry.ino
        || !is_target(&inode(meta, entry.ino), entry.generation)
        || nodes[entry.ino as usize]
        || contains(names, entry.name.bytes())
}

// Whether a used node has the generation.
fn is_target(rec: &Option<InodeRec>, generation: u32) -> bool
    ensures { result ≡ has_generation generation rec.now }
{
    match rec {
        Some(rec) => rec.kind != Kind::Unused && rec.generation == generation,
        None => false,
    }
}

fn contains(names: &[Name], name: &[u8]) -> bool
    ensures { result ≡ list_any (λ n. bytes_eq n name.now) names.now }
{
    for other in names {
        if other.bytes() == name {
            return true;
        }
    }
    false
}
