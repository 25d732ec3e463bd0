//! The walk of an opening: its phases in their order, over the resident pages and those that a scan saw.
ghost use Rattle.std.specs.Prelude.{◌≡◌, IfOk, None, option_map};
ghost use Rattle.nl_field.specs.Numbers.{ShapeBounds};
ghost use Rattle.nl_meta.specs.Consistent.{AddressesRight};
ghost use Rattle.nl_meta.specs.Nodes.{held_in};
ghost use Rattle.nl_meta.specs.Pages.{page_of};
ghost use Rattle.nl_meta.specs.Walk.{entry_fault, fault_in, first_fault, or_then, reach_fault, walk_over};
ghost use Rattle.nl_recover.specs.Held.{metadata_phases, pointer_phases};
ghost use Rattle.nl_recover.specs.Walking.{AnswersWalk, place_in};

use crate::addresses::pages_fault;
use crate::entries::entry_fault;
use crate::held::held_pointers;
use crate::nodes::{inode_fault, super_fault};
use crate::reach::reach_fault;
use crate::stamps::stamp_fault;
use nl_field::{Memory, Place, Shape, What};
use nl_meta::Meta;
use nl_recover_pointers::{HeldList, charge_fault, crowded_fault, name_fault, pointer_fault};
use nl_scan::ScanTables;
use std::alloc::Global;

/// What a walk answers: the first place at fault, or the pointers of all files where there is none.
#[derive(Debug, Drop)]
pub enum Outcome {
    /// No place is at fault. These are the pointers of all files.
    Sound(HeldList),
    /// The first place at fault.
    Damaged(Place),
}

/// Walks over the pages that are resident, beside those that a scan saw.
pub fn walk_pages(
    alloc: Global,
    shape: &Shape,
    meta: &Meta,
    scan: &ScanTables,
) -> Result<Outcome, Memory>
    requires { ShapeBounds shape.now }
    ensures { IfOk result (AnswersWalk shape.now (page_of meta.now) (walk_over shape.now (page_of meta.now) scan.now.seen)) }
{
    match metadata_fault(alloc, shape, meta, scan)? {
        Some(place) => Ok(Outcome::Damaged(place)),
        None => {
            let held = held_pointers(alloc, shape, meta)?;
            match held_fault(alloc, shape, meta, &held, scan)? {
                Some(place) => Ok(Outcome::Damaged(place)),
                None => Ok(Outcome::Sound(held)),
            }
        }
    }
}

/// The first fault of the phases that look at metadata alone.
fn metadata_fault(
    alloc: Global,
    shape: &Shape,
    meta: &Meta,
    scan: &ScanTables,
) -> Result<Option<Place>, Memory>
    requires { ShapeBounds shape.now }
    ensures value { IfOk result (λ o. o ≡ first_fault (fault_in shape.now (page_of meta.now) scan.now.seen) metadata_phases) }
    ensures sound { IfOk result (λ o. o ≡ None → AddressesRight shape.now (page_of meta.now)) }
{
    match at(super_fault(shape, meta), What::Super) {
        Some(place) => return Ok(Some(place)),
        None => {}
    }
    match at(stamp_fault(shape, scan), What::Stamp) {
        Some(place) => return Ok(Some(place)),
        None => {}
    }
    match at(inode_fault(shape, meta), What::Inode) {
        Some(place) => return Ok(Some(place)),
        None => {}
    }
    match at(pages_fault(alloc, shape, meta)?, What::Pages) {
        Some(place) => return Ok(Some(place)),
        None => {}
    }
    Ok(at(names_fault(alloc, shape, meta)?, What::Entry))
}

// The first directory or node at fault by the entries.
fn names_fault(alloc: Global, shape: &Shape, meta: &Meta) -> Result<Option<u32>, Memory>
    requires { ShapeBounds shape.now }
    ensures { IfOk result (λ o. o ≡ or_then (entry_fault shape.now (page_of meta.now)) (reach_fault shape.now (page_of meta.now))) }
{
    match entry_fault(alloc, shape, meta)? {
        Some(dir) => Ok(Some(dir)),
        None => Ok(reach_fault(alloc, shape, meta)?),
    }
}

// The first fault of the phases that look at pointers, of which these are all.
fn held_fault(
    alloc: Global,
    shape: &Shape,
    meta: &Meta,
    held: &HeldList,
    scan: &ScanTables,
) -> Result<Option<Place>, Memory>
    requires bounds { ShapeBounds shape.now }
    requires all { held.now ≡ held_in shape.now (page_of meta.now) }
    ensures { IfOk result (λ o. o ≡ first_fault (fault_in shape.now (page_of meta.now) scan.now.seen) pointer_phases) }
{
    match at(pointer_fault(alloc, shape, held, scan)?, What::Pointer) {
        Some(place) => return Ok(Some(place)),
        None => {}
    }
    match at(name_fault(alloc, shape, held, scan)?, What::Names) {
        Some(place) => return Ok(Some(place)),
        None => {}
    }
    match at(charge_fault(shape, held), What::Charges) {
        Some(place) => return Ok(Some(place)),
        None => {}
    }
    Ok(at(crowded_fault(alloc, shape, held, scan)?, What::Crowded))
}

fn at(place: Option<u32>, what: What) -> Option<Place>
    ensures { result ≡ option_map (place_in what) place }
{
    match place {
        Some(place) => Some(Place {
            place: u64::from(place),
            what,
        }),
        None => None,
    }
}
