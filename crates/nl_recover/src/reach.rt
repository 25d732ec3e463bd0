//! The phase of a walk that looks for used nodes which no chain of entries reaches from node 0.
ghost use Rattle.std.specs.Prelude.{◌≡◌, ◌<◌, ◌&&◌, ℕ, false, not, filter_map, length, replicate, slice_index_or, IfOk, IsTrue, OnOk, option_to_list};
ghost use Rattle.nl_field.specs.Inode.{is_inode};
ghost use Rattle.nl_field.specs.Numbers.{ShapeBounds};
ghost use Rattle.nl_meta.specs.Nodes.{inode_at};
ghost use Rattle.nl_meta.specs.Pages.{page_of};
ghost use Rattle.nl_meta.specs.Walk.{is_reached, naming_of, all_places, places_of, reach_fault};
ghost use Rattle.nl_recover.specs.Entries.{place_there};
ghost use Rattle.nl_recover.specs.Reaching.{is_used_record, reached_by, target_of, targets_of, with_node};
ghost use Rattle.nl_recover.specs.Scanning.{gathered};

use crate::entries::{address_at, place_count};
use crate::look::inode;
use nl_field::{EntryRec, InodeRec, Kind, Memory, Shape};
use nl_meta::Meta;
use std::alloc::Global;

/// The first used node that no chain of entries reaches from node 0.
pub fn reach_fault(alloc: Global, shape: &Shape, meta: &Meta) -> Result<Option<u32>, Memory>
    requires { ShapeBounds shape.now }
    ensures { IfOk result (λ o. o ≡ reach_fault shape.now (page_of meta.now)) }
{
    let marks = reach(alloc, shape, meta)?;
    Ok(first_unreached(shape, meta, &marks))
}

fn first_unreached(shape: &Shape, meta: &Meta, marks: &[bool]) -> Option<u32>
    requires size { length marks.now ≡ shape.now.nodes }
    requires marks { (n : ℕ) → n < shape.now.nodes
        → slice_index_or marks.now n false ≡ is_reached (filter_map naming_of (all_places shape.now (page_of meta.now))) shape.now.nodes n }
    ensures { result ≡ reach_fault shape.now (page_of meta.now) }
{
    for ino in 0..shape.nodes {
        if is_unmarked(meta, marks, ino) {
            return Some(ino);
        }
    }
    None
}

fn is_unmarked(meta: &Meta, marks: &[bool], ino: u32) -> bool
    requires { ino < length marks.now }
    ensures { result ≡ (is_used_record (inode_at (page_of meta.now) ino) && not (slice_index_or marks.now ino false)) }
{
    is_used(&inode(meta, ino)) && !marks[ino as usize]
}

// For each node, whether a chain of entries from node 0 reaches it.
fn reach(alloc: Global, shape: &Shape, meta: &Meta) -> Result<Vec<bool>, Memory>
    requires { ShapeBounds shape.now }
    ensures size { IfOk result (λ v. length v.items ≡ shape.now.nodes) }
    ensures marks { IfOk result (λ v. (n : ℕ) → n < shape.now.nodes
        → slice_index_or v.items n false ≡ is_reached (filter_map naming_of (all_places shape.now (page_of meta.now))) shape.now.nodes n) }
{
    let mut marks = unmarked(alloc, shape.nodes as usize)?;
    let mut queue = Vec::new(alloc);
    marks[0] = true;
    queue.push(0)?;
    let mut next = 0;
    while next < queue.len() {
        let dir = queue[next];
        visit(shape, meta, &mut marks, &mut queue, dir)?;
        next += 1;
    }
    Ok(marks)
}

fn unmarked(alloc: Global, count: usize) -> Result<Vec<bool>, Memory>
    ensures { IfOk result (λ v. v.items ≡ replicate count false) }
{
    Ok(vec![in alloc; false; count]?)
}

// Marks the nodes that the entries of a directory name.
fn visit(
    shape: &Shape,
    meta: &Meta,
    marks: &mut Vec<bool>,
    queue: &mut Vec<u32>,
    dir: u32,
) -> Result<(), Memory>
    requires { length marks.old.items ≡ shape.now.nodes }
    ensures size { length marks.new.items ≡ length marks.old.items }
    ensures visited { OnOk result (reached_by marks.new.items queue.new.items
        ≡ gathered (with_node shape.now.nodes) (reached_by marks.old.items queue.old.items) (targets_of (page_of meta.now) dir)) }
{
    match inode(meta, dir) {
        Some(rec) => match rec.kind {
            Kind::Dir => visit_places(shape, meta, marks, queue, dir, &rec),
            Kind::File => Ok(()),
            Kind::Unused => Ok(()),
        },
        None => Ok(()),
    }
}

fn visit_places(
    shape: &Shape,
    meta: &Meta,
    marks: &mut Vec<bool>,
    queue: &mut Vec<u32>,
    dir: u32,
    rec: &InodeRec,
) -> Result<(), Memory>
    requires size { length marks.old.items ≡ shape.now.nodes }
    requires dir { rec.now.kind ≡ Kind.Dir }
    requires spelled { IsTrue (is_inode rec.now) }
    ensures size { length marks.new.items ≡ length marks.old.items }
    ensures visited { OnOk result (reached_by marks.new.items queue.new.items
        ≡ gathered (with_node shape.now.nodes) (reached_by marks.old.items queue.old.items)
        (filter_map target_of (places_of (page_of meta.now) (dir, rec.now)))) }
{
    for place in 0..place_count(rec) {
        visit_place(shape, meta, marks, queue, dir, rec, place)?;
    }
    Ok(())
}

fn visit_place(
    shape: &Shape,
    meta: &Meta,
    marks: &mut Vec<bool>,
    queue: &mut Vec<u32>,
    dir: u32,
    rec: &InodeRec,
    place: u32,
) -> Result<(), Memory>
    requires size { length marks.old.items ≡ shape.now.nodes }
    requires inside { place < 1024 }
    ensures size { length marks.new.items ≡ length marks.old.items }
    ensures visited { OnOk result (reached_by marks.new.items queue.new.items
        ≡ gathered (with_node shape.now.nodes) (reached_by marks.old.items queue.old.items)
        (filter_map target_of (place_there (page_of meta.now) dir rec.now place))) }
{
    match target(meta, dir, rec, place) {
        Some(ino) => {
            mark(shape, marks, queue, ino)?;
            Ok(())
        }
        None => Ok(()),
    }
}

// The node that the entry at a place names.
fn target(meta: &Meta, dir: u32, rec: &InodeRec, place: u32) -> Option<u32>
    requires { place < 1024 }
    ensures { option_to_list result ≡ filter_map target_of (place_there (page_of meta.now) dir rec.now place) }
{
    let address = address_at(rec, place);
    if !meta.resident(address) {
        return None;
    }
    if rec.size <= place as u64 {
        return None;
    }
    match EntryRec::of(meta.page(address), 64 * (place % 64)) {
        Some(entry) => Some(entry.ino),
        None => None,
    }
}

// A node counts as reached.
fn mark(shape: &Shape, marks: &mut Vec<bool>, queue: &mut Vec<u32>, ino: u32) -> Result<(), Memory>
    requires { length marks.old.items ≡ shape.now.nodes }
    ensures size { length marks.new.items ≡ length marks.old.items }
    ensures marked { OnOk result (reached_by marks.new.items queue.new.items
        ≡ with_node shape.now.nodes (reached_by marks.old.items queue.old.items) ino) }
{
    if ino < shape.nodes && !marks[ino as usize] {
        marks[ino as usize] = true;
        queue.push(ino)?;
    }
    Ok(())
}

fn is_used(rec: &Option<InodeRec>) -> bool
    ensures { result ≡ is_used_record rec.now }
{
    match rec {
        Some(rec) => rec.kind != Kind::Unused,
        None => false,
    }
}
