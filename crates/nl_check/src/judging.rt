//! The phases of a walk, each of which is judged by itself, over the pages that are resident.
ghost use Rattle.std.specs.Prelude.{◌≡◌, ◌∷◌, [], ℕ, None, IfOk};
ghost use Rattle.nl_field.specs.FindingBits.{has_finding};
ghost use Rattle.nl_field.specs.Numbers.{ShapeBounds};
ghost use Rattle.nl_field.specs.declared.place.What.{What as WhatOf};
ghost use Rattle.nl_meta.specs.Nodes.{held_in, super_of_pages};
ghost use Rattle.nl_meta.specs.Pages.{page_of};
ghost use Rattle.nl_meta.specs.Walk.{entry_fault, fault_in, or_then, reach_fault};
ghost use Rattle.nl_check.specs.Checking.{Judges, count_in};
ghost use Rattle.nl_check.specs.Gathering.{AddsPhases, page_phases, pointer_phases, with_phase};

use crate::held::held_pointers;
use nl_field::{Findings, Memory, Shape, SuperRec, What};
use nl_meta::Meta;
use nl_recover::{entry_fault, inode_fault, pages_fault, reach_fault, stamp_fault, super_fault};
use nl_recover_pointers::{HeldList, charge_fault, crowded_fault, name_fault, pointer_fault};
use nl_scan::ScanTables;
use std::alloc::Global;

/// Which phases have a fault, over the pages that are resident, beside those that a scan saw: none after `super` or `inode`.
pub(crate) fn judge(
    alloc: Global,
    shape: &Shape,
    meta: &Meta,
    scan: &ScanTables,
) -> Result<Findings, Memory>
    requires { ShapeBounds shape.now }
    ensures { IfOk result (Judges (fault_in shape.now (page_of meta.now) scan.now.seen)) }
{
    let at = super_fault(shape, meta);
    if at.is_some() {
        return Ok(note(Findings::none(), What::Super, at));
    }
    let bits = note(Findings::none(), What::Stamp, stamp_fault(shape, scan));
    let at = inode_fault(shape, meta);
    if at.is_some() {
        return Ok(note(bits, What::Inode, at));
    }
    let bits = judge_pages(alloc, shape, meta, scan, bits)?;
    let held = held_pointers(alloc, shape, meta)?;
    let all = judge_pointers(alloc, shape, meta, &held, scan, bits)?;
    Ok(all)
}

// The phases that look at pages and entries.
fn judge_pages(
    alloc: Global,
    shape: &Shape,
    meta: &Meta,
    scan: &ScanTables,
    bits: Findings,
) -> Result<Findings, Memory>
    requires { ShapeBounds shape.now }
    ensures { IfOk result (AddsPhases (fault_in shape.now (page_of meta.now) scan.now.seen) page_phases bits) }
{
    let bits = note(bits, What::Pages, pages_fault(alloc, shape, meta)?);
    Ok(note(bits, What::Entry, names_fault(alloc, shape, meta)?))
}

// The first directory or node at fault by the entries.
fn names_fault(alloc: Global, shape: &Shape, meta: &Meta) -> Result<Option<u32>, Memory>
    requires { ShapeBounds shape.now }
    ensures { IfOk result (λ o. o ≡ or_then (entry_fault shape.now (page_of meta.now)) (reach_fault shape.now (page_of meta.now))) }
{
    match entry_fault(alloc, shape, meta)? {
        Some(dir) => Ok(Some(dir)),
        None => Ok(reach_fault(alloc, shape, meta)?),
    }
}

// The phases that look at pointers, of which these are all.
fn judge_pointers(
    alloc: Global,
    shape: &Shape,
    meta: &Meta,
    held: &HeldList,
    scan: &ScanTables,
    bits: Findings,
) -> Result<Findings, Memory>
    requires bounds { ShapeBounds shape.now }
    requires all { held.now ≡ held_in shape.now (page_of meta.now) }
    ensures { IfOk result (AddsPhases (fault_in shape.now (page_of meta.now) scan.now.seen) pointer_phases bits) }
{
    let bits = note(
        bits,
        What::Pointer,
        pointer_fault(alloc, shape, held, scan)?,
    );
    let bits = note(bits, What::Names, name_fault(alloc, shape, held, scan)?);
    let bits = note(bits, What::Charges, charge_fault(shape, held));
    Ok(note(
        bits,
        What::Crowded,
        crowded_fault(alloc, shape, held, scan)?,
    ))
}

// The findings, and that of a phase where it has a fault.
fn note(bits: Findings, what: What, at: Option<u32>) -> Findings
    ensures each { (other : WhatOf) → has_finding result other ≡ with_phase (has_finding bits) what at other }
    ensures none { at ≡ None → result ≡ bits }
{
    match at {
        Some(_) => {
            let mut bits = bits;
            bits.add(what);
            bits
        }
        None => bits,
    }
}

/// The count of calls that the super page tells, 0 where it spells none.
pub(crate) fn calls_in(meta: &Meta) -> u64
    ensures { result ≡ count_in (super_of_pages (page_of meta.now)) }
{
    match super_rec(meta) {
        Some(rec) => rec.count,
        None => 0,
    }
}

fn super_rec(meta: &Meta) -> Option<SuperRec>
    ensures { result ≡ super_of_pages (page_of meta.now) }
{
    if meta.resident(0) {
        SuperRec::of(meta.page(0), 0)
    } else {
        None
    }
}
