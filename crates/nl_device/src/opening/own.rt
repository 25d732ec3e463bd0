// The readable pages of the virtual segment, and those that hold the newest write of an address.
ghost use Rattle.std.specs.Prelude.{◌≡◌, ◌*◌, ◌<◌, ◌++◌, ◌∷◌, [], filter, length, max, slice_index_or, slice_set, All, IfOk, OnOk};
ghost use Rattle.std.specs.List.{cons_option};
ghost use Rattle.nl_device.specs.Opening.{Tabulates, greatest_of, is_newest, own_in, own_of, owns_of, spread_in};
ghost use Rattle.nl_device.specs.declared.opening.own.Own.{Own as OwnOf};

use crate::opening::spare::{Spread, no_spreads, note};
use nl_field::{Memory, Shape, SpareRec};
use nl_scan::{ScanTables, Seen};
use std::alloc::Global;

/// A page of a virtual address, and its write sequence number.
#[derive(Clone, Copy, Debug, PartialEq, Eq)]
pub struct Own {
    pub page: u32,
    pub vaddr: u32,
    pub stamp: u64,
}

fn own_in(shape: &Shape, page: u32, rec: &SpareRec) -> Option<Own>
    ensures { result ≡ own_in shape.now page rec.now }
{
    match *rec {
        SpareRec::Virtual { vaddr, stamp, .. } => {
            if vaddr < shape.vaddrs {
                Some(Own { page, vaddr, stamp })
            } else {
                None
            }
        }
        SpareRec::Physical { .. } => None,
    }
}

fn own_of(shape: &Shape, seen: &Seen) -> Option<Own>
    ensures { result ≡ own_of shape.now seen.now }
{
    if (seen.page as u64) < shape.vblocks as u64 * shape.pages as u64 {
        own_in(shape, seen.page, &seen.rec)
    } else {
        None
    }
}

fn put(owns: &mut Vec<Own>, own: Option<Own>) -> Result<(), Memory>
    ensures { OnOk result (owns.new.items ≡ owns.old.items ++ cons_option own []) }
{
    if let Some(own) = own {
        owns.push(own)?;
    }
    Ok(())
}

/// The readable pages of the virtual segment, in rising order.
pub fn owns(alloc: Global, tables: &ScanTables, shape: &Shape) -> Result<Vec<Own>, Memory>
    ensures items { IfOk result (λ v. v.items ≡ owns_of shape.now tables.now.seen) }
    ensures below { IfOk result (λ v. All (λ (o : OwnOf). o.vaddr < shape.now.vaddrs) v.items) }
{
    let mut owns = Vec::new(alloc);
    for at in 0..tables.len() {
        put(&mut owns, own_of(shape, tables.get(at)))?;
    }
    Ok(owns)
}

fn raise(greatest: &mut Vec<u64>, own: &Own)
    requires { own.now.vaddr < length greatest.old.items }
    ensures { greatest.new.items
        ≡ slice_set greatest.old.items own.now.vaddr (max (slice_index_or greatest.old.items own.now.vaddr 0) own.now.stamp) }
{
    let at = own.vaddr as usize;
    greatest[at] = greatest[at].max(own.stamp);
}

/// The greatest write sequence number of each address, 0 where it has no page.
pub fn greatest(alloc: Global, owns: &Vec<Own>, count: u32) -> Result<Vec<u64>, Memory>
    requires { All (λ (o : OwnOf). o.vaddr < count) owns.now.items }
    ensures { IfOk result (λ g. Tabulates count 0 (greatest_of owns.now.items) g.items) }
{
    let mut greatest = vec![in alloc; 0; count as usize]?;
    for own in owns {
        raise(&mut greatest, own);
    }
    Ok(greatest)
}

// The page is needed too, where its write sequence number is the greatest of its address.
fn add_newest(needed: &mut Vec<Own>, own: &Own, greatest: &Vec<u64>) -> Result<(), Memory>
    requires { own.now.vaddr < length greatest.now.items }
    ensures { OnOk result (needed.new.items ≡ needed.old.items ++ filter (is_newest greatest.now.items) (own.now ∷ [])) }
{
    if own.stamp == greatest[own.vaddr as usize] {
        needed.push(*own)?;
    }
    Ok(())
}

/// The pages with the greatest write sequence number of their address.
pub fn needed(alloc: Global, owns: &Vec<Own>, greatest: &Vec<u64>) -> Result<Vec<Own>, Memory>
    requires { All (λ (o : OwnOf). o.vaddr < length greatest.now.items) owns.now.items }
    ensures items { IfOk result (λ v. v.items ≡ filter (is_newest greatest.now.items) owns.now.items) }
    ensures below { IfOk result (λ v. All (λ (o : OwnOf). o.vaddr < length greatest.now.items) v.items) }
{
    let mut needed = Vec::new(alloc);
    for own in owns {
        add_newest(&mut needed, own, greatest)?;
    }
    Ok(needed)
}

/// In which blocks the pages of each address lie.
pub fn spreads(
    alloc: Global,
    needed: &Vec<Own>,
    pages: u32,
    count: u32,
) -> Result<Vec<Spread>, Memory>
    requires some { 0 < pages }
    requires below { All (λ (o : OwnOf). o.vaddr < count) needed.now.items }
    ensures { IfOk result (λ s. Tabulates count Spread.Nowhere (spread_in pages needed.now.items) s.items) }
{
    let mut spreads = no_spreads(alloc, count)?;
    for own in needed {
        note(&mut spreads, own.vaddr, own.page / pages);
    }
    Ok(spreads)
}
