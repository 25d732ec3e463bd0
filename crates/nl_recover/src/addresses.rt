//! The phase of a walk that looks at the addresses of nodes.
ghost use Rattle.std.specs.Prelude.{◌≡◌, ◌<◌, ◌∷◌, ◌||◌, [], ℕ, false, length, slice_index_or, IfOk, MatchOption};
ghost use Rattle.nl_field.specs.Numbers.{ShapeBounds};
ghost use Rattle.nl_field.specs.Pointers.{indirect_of};
ghost use Rattle.nl_meta.specs.Nodes.{inode_at};
ghost use Rattle.nl_meta.specs.Pages.{page_of};
ghost use Rattle.nl_meta.specs.Walk.{is_good_indirect, pages_fault};
ghost use Rattle.nl_indirect.specs.Ranges.{pointer_in};
ghost use Rattle.nl_recover.specs.Addresses.{PassesAddresses, SpelledAt, addresses_in, is_bad_marked, is_bad_page, listed};

use crate::look::inode;
use crate::nodes::is_physical;
use nl_field::{Kind, Memory, PageBuf, Pointer, Shape};
use nl_meta::Meta;
use std::alloc::Global;

/// The first address of a used node that is not in the pool, or was used before, or has no page, or is a file's and has no pointers
/// there.
pub fn pages_fault(alloc: Global, shape: &Shape, meta: &Meta) -> Result<Option<u32>, Memory>
    requires { ShapeBounds shape.now }
    ensures { IfOk result (λ o. o ≡ pages_fault shape.now (page_of meta.now)) }
{
    let mut used = vec![in alloc; false; shape.vaddrs as usize]?;
    Ok(first_fault(shape, meta, &mut used))
}

fn first_fault(shape: &Shape, meta: &Meta, used: &mut Vec<bool>) -> Option<u32>
    requires bounds { ShapeBounds shape.now }
    requires size { length used.old.items ≡ shape.now.vaddrs }
    requires none { (k : ℕ) → slice_index_or used.old.items k false ≡ false }
    ensures { result ≡ pages_fault shape.now (page_of meta.now) }
{
    for ino in 0..shape.nodes {
        match node_fault(shape, meta, used, ino) {
            Some(address) => return Some(address),
            None => {}
        }
    }
    None
}

fn node_fault(shape: &Shape, meta: &Meta, used: &mut Vec<bool>, ino: u32) -> Option<u32>
    requires bounds { ShapeBounds shape.now }
    requires size { length used.old.items ≡ shape.now.vaddrs }
    ensures size { length used.new.items ≡ length used.old.items }
    ensures passes { PassesAddresses shape.now (page_of meta.now) used.old.items used.new.items
        (addresses_in ino (inode_at (page_of meta.now) ino)) result }
{
    match inode(meta, ino) {
        Some(rec) => match rec.kind {
            Kind::Unused => None,
            Kind::File => slots_fault(shape, meta, used, &rec.addresses, true),
            Kind::Dir => slots_fault(shape, meta, used, &rec.addresses, false),
        },
        None => None,
    }
}

fn slots_fault(
    shape: &Shape,
    meta: &Meta,
    used: &mut Vec<bool>,
    addresses: &[u32],
    of_file: bool,
) -> Option<u32>
    requires bounds { ShapeBounds shape.now }
    requires size { length used.old.items ≡ shape.now.vaddrs }
    ensures size { length used.new.items ≡ length used.old.items }
    ensures passes { PassesAddresses shape.now (page_of meta.now) used.old.items used.new.items (listed of_file addresses.now) result }
{
    for address in addresses {
        match slot_fault(shape, meta, used, *address, of_file) {
            Some(bad) => return Some(bad),
            None => {}
        }
    }
    None
}

// An address that is used now.
fn slot_fault(
    shape: &Shape,
    meta: &Meta,
    used: &mut Vec<bool>,
    address: u32,
    of_file: bool,
) -> Option<u32>
    requires bounds { ShapeBounds shape.now }
    requires size { length used.old.items ≡ shape.now.vaddrs }
    ensures size { length used.new.items ≡ length used.old.items }
    ensures passes { PassesAddresses shape.now (page_of meta.now) used.old.items used.new.items (listed of_file (address ∷ [])) result }
{
    if address == 0 {
        return None;
    }
    if is_bad(shape, meta, used, of_file, address) {
        return Some(address);
    }
    used[address as usize] = true;
    None
}

fn is_bad(shape: &Shape, meta: &Meta, used: &[bool], of_file: bool, address: u32) -> bool
    requires bounds { ShapeBounds shape.now }
    requires size { length used.now ≡ shape.now.vaddrs }
    ensures value { result ≡ is_bad_marked shape.now (page_of meta.now) used.now (of_file, address) }
    ensures inside { result ≡ false → address < shape.now.vaddrs }
{
    address < 67 + shape.inode_pages
        || shape.vaddrs <= address
        || used[address as usize]
        || is_bad_at(shape, meta, of_file, address)
}

fn is_bad_at(shape: &Shape, meta: &Meta, of_file: bool, address: u32) -> bool
    requires { ShapeBounds shape.now }
    ensures { result ≡ is_bad_page shape.now (page_of meta.now) of_file address }
{
    if meta.resident(address) {
        of_file && !are_pointers(shape, meta.page(address))
    } else {
        true
    }
}

/// Whether a page has pointers, each of which names a page of the physical segment.
fn are_pointers(shape: &Shape, page: &PageBuf) -> bool
    requires { ShapeBounds shape.now }
    ensures { result ≡ is_good_indirect shape.now (indirect_of page.now.main) }
{
    let _whole = page.main().len();
    let mut some = false;
    for slot in 0..256 {
        match pointer_at(shape, page, slot) {
            Some(pointer) => some = either(some, !pointer.is_none()),
            None => return false,
        }
    }
    some
}

fn either(a: bool, b: bool) -> bool
    ensures { result ≡ (a || b) }
{
    a || b
}

// The pointer that a slot of a page spells, where it is none or names a page of the physical segment.
fn pointer_at(shape: &Shape, page: &PageBuf, slot: u32) -> Option<Pointer>
    requires bounds { ShapeBounds shape.now }
    requires inside { slot < 256 }
    ensures { MatchOption result (SpelledAt shape.now page.now.main slot → ⊥)
        (λ p. SpelledAt shape.now page.now.main slot × (p ≡ pointer_in page.now.main slot)) }
{
    match Pointer::of(page, 16 * slot) {
        Some(pointer) => {
            if is_physical(shape, &pointer) {
                Some(pointer)
            } else {
                None
            }
        }
        None => None,
    }
}
