//! The phases of a walk that look at the super page and at the records of nodes.
ghost use Rattle.std.specs.Prelude.{◌≡◌, ◌==◌, ◌&&◌, ◌||◌, not};
ghost use Rattle.std.specs.List.{list_all};
ghost use Rattle.nl_field.specs.Medium.{first_physical};
ghost use Rattle.nl_field.specs.Numbers.{ShapeBounds};
ghost use Rattle.nl_meta.specs.Nodes.{inode_at, is_physical_name, super_of_pages};
ghost use Rattle.nl_meta.specs.Pages.{page_of};
ghost use Rattle.nl_meta.specs.Walk.{inode_fault, is_good_inode, is_super_of, zero_where};
ghost use Rattle.nl_recover.specs.Phases.{is_bad_node};

use crate::look::{inode, is_zero_node, super_rec};
use nl_field::{InodeRec, Kind, Pointer, Shape, shape_of};
use nl_meta::Meta;

/// Address 0, where the super page spells no legal numbers of the volume.
pub fn super_fault(shape: &Shape, meta: &Meta) -> Option<u32>
    ensures { result ≡ zero_where (not (is_super_of shape.now (super_of_pages (page_of meta.now)))) }
{
    if is_super(shape, meta) { None } else { Some(0) }
}

fn is_super(shape: &Shape, meta: &Meta) -> bool
    ensures { result ≡ is_super_of shape.now (super_of_pages (page_of meta.now)) }
{
    match super_rec(meta) {
        Some(rec) => {
            rec.blocks == shape.blocks
                && rec.pages == shape.pages
                && shape_of(shape.blocks, shape.pages).is_some()
        }
        None => false,
    }
}

/// The first node whose record is no spelling or names a page outside the physical segment, or whose place behind the last node is
/// not zero, or node 0 where that is no directory.
pub fn inode_fault(shape: &Shape, meta: &Meta) -> Option<u32>
    requires { ShapeBounds shape.now }
    ensures { result ≡ inode_fault shape.now (page_of meta.now) }
{
    for ino in 0..16 * shape.inode_pages {
        if is_bad(shape, meta, ino) {
            return Some(ino);
        }
    }
    None
}

fn is_bad(shape: &Shape, meta: &Meta, ino: u32) -> bool
    requires { ShapeBounds shape.now }
    ensures { result ≡ is_bad_node shape.now (page_of meta.now) ino }
{
    if ino < shape.nodes {
        !is_good(shape, ino, &inode(meta, ino))
    } else {
        !is_zero_node(meta, ino)
    }
}

fn is_good(shape: &Shape, ino: u32, rec: &Option<InodeRec>) -> bool
    requires { ShapeBounds shape.now }
    ensures { result ≡ is_good_inode shape.now ino rec.now }
{
    match rec {
        Some(rec) => are_physical(shape, &rec.direct) && (ino != 0 || rec.kind == Kind::Dir),
        None => false,
    }
}

/// Whether each pointer is none, or names a page of the physical segment.
pub(crate) fn are_physical(shape: &Shape, pointers: &[Pointer]) -> bool
    requires { ShapeBounds shape.now }
    ensures { result ≡ list_all (is_physical_name shape.now) pointers.now }
{
    for pointer in pointers {
        if !is_physical(shape, pointer) {
            return false;
        }
    }
    true
}

/// Whether a pointer is none, or names a page of the physical segment.
pub(crate) fn is_physical(shape: &Shape, pointer: &Pointer) -> bool
    requires { ShapeBounds shape.now }
    ensures { result ≡ is_physical_name shape.now pointer.now }
{
    pointer.is_none()
        || first_physical_page(shape) <= pointer.name && pointer.name < shape.blocks * shape.pages
}

/// The first page of the physical segment.
pub(crate) fn first_physical_page(shape: &Shape) -> u32
    requires { ShapeBounds shape.now }
    ensures { result ≡ first_physical shape.now }
{
    shape.vblocks * shape.pages
}
