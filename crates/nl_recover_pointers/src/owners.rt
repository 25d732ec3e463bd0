//! From which offset on the pages of a write sequence number and an owner are zero, gathered from a scan.
ghost use Rattle.std.specs.Prelude.{◌≡◌, ◌*◌, ◌-◌, ◌<◌, IfOk, None, OnOk, Some, false, length, replicate, slice_index_or, true};
ghost use Rattle.std.specs.BTreeMap.{get, Updates};
ghost use Rattle.nl_field.specs.ScanList.{physical_seen};
ghost use Rattle.nl_meta.specs.Walk.{tag_eq};
ghost use Rattle.nl_recover_pointers.specs.Owners.{AddsOwned, AreOwned, HasNoOwner, KeepsOwned, SeesOwned, is_zero_from, key_cmp, key_of};
ghost use Rattle.nl_recover_pointers.specs.Owners.{more_zeros, owned_by, owned_in, zeros_and, zeros_at, zeros_kept, zeros_of};

use crate::HeldPointer;
use crate::numbers::place_of;
use crate::pages::virtual_end;
use nl_field::{Memory, Seen, Shape, SpareRec, Tag};
use nl_scan::ScanTables;
use std::alloc::Global;
use std::collections::BTreeMap;

/// A write sequence number and an owner: the node, its generation, and the index of the page.
pub type PageKey = (u64, u32, u32, u32);

/// The write sequence number and the owner of a page, and the offset from which on it is zero.
#[derive(Clone, Copy, Debug, PartialEq, Eq)]
pub struct Owned {
    pub stamp: u64,
    pub tag: Tag,
    pub zeros: u32,
}

/// Of each write sequence number and owner, the greatest offset from which a page with both is zero.
#[derive(Drop)]
pub struct Zeros {
    /// At each place a page whose write sequence number has that remainder, if there is one.
    pub kept: Vec<Option<Owned>>,
    /// The offsets of the other pages.
    pub more: BTreeMap<PageKey, u32>,
}

fn key_of(stamp: u64, tag: &Tag) -> PageKey
    ensures { result ≡ key_of stamp tag.now }
{
    (stamp, tag.ino, tag.generation, tag.index)
}

/// Notes that a page with this key is zero from an offset on.
fn note(zeros: &mut BTreeMap<PageKey, u32>, key: PageKey, from: u32) -> Result<(), Memory>
    ensures { OnOk result (Updates key_cmp zeros.old zeros.new key (Some (more_zeros (get key_cmp zeros.old key) from))) }
{
    let greatest = match zeros.get(&key) {
        Some(other) => from.max(*other),
        None => from,
    };
    zeros.insert(key, greatest)?;
    Ok(())
}

fn free_places(alloc: Global, count: usize) -> Result<Vec<Option<Owned>>, Memory>
    ensures { IfOk result (λ v. v.items ≡ replicate count None) }
{
    Ok(vec![in alloc; None; count]?)
}

fn is_free(kept: &Vec<Option<Owned>>, at: usize) -> bool
    ensures inside { result ≡ true → at < length kept.now.items }
    ensures free { result ≡ true → slice_index_or kept.now.items at None ≡ None }
{
    match kept.get(at) {
        Some(one) => one.is_none(),
        None => false,
    }
}

// Keeps a page at the place of its write sequence number, where that is free. Answers whether it is.
fn keep(kept: &mut Vec<Option<Owned>>, owned: Owned) -> bool
    ensures kept { result ≡ true → KeepsOwned kept.old.items kept.new.items owned }
    ensures same { result ≡ false → kept.new.items ≡ kept.old.items }
{
    let at = place_of(owned.stamp, kept.len());
    if !is_free(kept, at) {
        return false;
    }
    kept[at] = Some(owned);
    true
}

fn is_tag(tag: &Tag, other: &Tag) -> bool
    ensures { result ≡ tag_eq tag.now other.now }
{
    tag.ino == other.ino && tag.generation == other.generation && tag.index == other.index
}

// The offset of a page, where it has this write sequence number and this owner.
fn zeros_of(stamp: u64, tag: &Tag, owned: Option<Owned>) -> Option<u32>
    ensures { result ≡ zeros_of stamp tag.now owned }
{
    match owned {
        Some(owned) => {
            if owned.stamp == stamp && is_tag(tag, &owned.tag) {
                Some(owned.zeros)
            } else {
                None
            }
        }
        None => None,
    }
}

fn kept_at(kept: &Vec<Option<Owned>>, at: usize) -> Option<Owned>
    ensures { result ≡ slice_index_or kept.now.items at None }
{
    match kept.get(at) {
        Some(one) => *one,
        None => None,
    }
}

fn zeros_kept(kept: &Vec<Option<Owned>>, stamp: u64, tag: &Tag) -> Option<u32>
    ensures { result ≡ zeros_kept kept.now.items stamp tag.now }
{
    zeros_of(stamp, tag, kept_at(kept, place_of(stamp, kept.len())))
}

fn zeros_more(more: &BTreeMap<PageKey, u32>, stamp: u64, tag: &Tag) -> Option<u32>
    ensures { result ≡ get key_cmp more.now (key_of stamp tag.now) }
{
    match more.get(&key_of(stamp, tag)) {
        Some(zeros) => Some(*zeros),
        None => None,
    }
}

// The greater of two offsets.
fn zeros_and(zeros: Option<u32>, others: Option<u32>) -> Option<u32>
    ensures { result ≡ zeros_and zeros others }
{
    match zeros {
        Some(zeros) => match others {
            Some(other) => Some(zeros.max(other)),
            None => Some(zeros),
        },
        None => others,
    }
}

impl Zeros {
    /// Of no pages, with so many places.
    fn new(alloc: Global, count: usize) -> Result<Zeros, Memory>
        ensures { IfOk result HasNoOwner }
    {
        let kept = free_places(alloc, count)?;
        let more = BTreeMap::new(alloc);
        Ok(Zeros { kept, more })
    }

    fn add(&mut self, owned: Owned) -> Result<(), Memory>
        ensures { OnOk result (AddsOwned self.old self.new owned) }
    {
        if keep(&mut self.kept, owned) {
            return Ok(());
        }
        let key = key_of(owned.stamp, &owned.tag);
        note(&mut self.more, key, owned.zeros)?;
        Ok(())
    }

    // Adds a page, where it is one of the physical segment.
    fn see(&mut self, shape: &Shape, seen: &Seen) -> Result<(), Memory>
        ensures { OnOk result (SeesOwned self.old self.new (owned_in shape.now seen.now)) }
    {
        match owned_in(shape, seen) {
            Some(owned) => {
                self.add(owned)?;
                Ok(())
            }
            None => Ok(()),
        }
    }

    fn of(&self, stamp: u64, tag: &Tag) -> Option<u32>
        ensures { result ≡ zeros_at self.now stamp tag.now }
    {
        zeros_and(
            zeros_kept(&self.kept, stamp, tag),
            zeros_more(&self.more, stamp, tag),
        )
    }
}

// The number, the owner and the offset of a record of the physical kind.
fn owned_by(zeros: u32, rec: &SpareRec) -> Option<Owned>
    ensures { result ≡ owned_by zeros rec.now }
{
    match *rec {
        SpareRec::Virtual { .. } => None,
        SpareRec::Physical { tag, stamp, .. } => Some(Owned { stamp, tag, zeros }),
    }
}

// Those of a page, where it is one of the physical segment.
fn owned_in(shape: &Shape, seen: &Seen) -> Option<Owned>
    ensures { result ≡ owned_in shape.now seen.now }
{
    if virtual_end(shape) <= seen.page as u64 {
        owned_by(seen.zeros, &seen.rec)
    } else {
        None
    }
}

/// Of each write sequence number and owner, the greatest offset from which a page of the physical segment with both is zero.
pub fn owners(alloc: Global, shape: &Shape, scan: &ScanTables) -> Result<Zeros, Memory>
    ensures { IfOk result (AreOwned (physical_seen shape.now scan.now.seen)) }
{
    let mut zeros = Zeros::new(alloc, 2 * scan.len() as usize)?;
    'seen: for at in 0..scan.len() {
        zeros.see(shape, scan.get(at))?;
    }
    Ok(zeros)
}

/// Whether a page has the pointer's write sequence number and owner, and each such page is zero from the end of the file on.
pub fn has_page(zeros: &Zeros, held: &HeldPointer) -> bool
    ensures { result ≡ is_zero_from (held.now.size - 4096 * held.now.tag.index) (zeros_at zeros.now held.now.pointer.stamp held.now.tag) }
{
    match zeros.of(held.pointer.stamp, &held.tag) {
        Some(from) => from as u64 <= held.size.saturating_sub(4096 * held.tag.index as u64),
        None => false,
    }
}
