//! The phase of a walk that looks for pages of one write sequence number which do not agree.
ghost use Rattle.std.specs.Prelude.{◌≡◌};
ghost use Rattle.nl_field.specs.Numbers.{ShapeBounds};
ghost use Rattle.nl_field.specs.ScanList.{physical_seen, virtual_seen};
ghost use Rattle.nl_meta.specs.Walk.{or_then, stamp_fault};
ghost use Rattle.nl_recover.specs.Phases.{is_physical_apart, is_physical_page, is_virtual_apart, is_virtual_page};

use crate::nodes::first_physical_page;
use nl_field::{Seen, Shape, SpareRec};
use nl_scan::ScanTables;

/// The first page of the virtual segment that does not agree with a lower one of its write sequence number, else that of the
/// physical segment.
pub fn stamp_fault(shape: &Shape, scan: &ScanTables) -> Option<u32>
    requires { ShapeBounds shape.now }
    ensures { result ≡ or_then (stamp_fault (virtual_seen shape.now scan.now.seen)) (stamp_fault (physical_seen shape.now scan.now.seen)) }
{
    match first_virtual(shape, scan) {
        Some(page) => Some(page),
        None => first_in_files(shape, scan),
    }
}

fn first_virtual(shape: &Shape, scan: &ScanTables) -> Option<u32>
    requires { ShapeBounds shape.now }
    ensures { result ≡ stamp_fault (virtual_seen shape.now scan.now.seen) }
{
    for at in 0..scan.len() {
        let seen = scan.get(at);
        if is_virtual_apart(shape, seen) {
            return Some(seen.page);
        }
    }
    None
}

fn first_in_files(shape: &Shape, scan: &ScanTables) -> Option<u32>
    requires { ShapeBounds shape.now }
    ensures { result ≡ stamp_fault (physical_seen shape.now scan.now.seen) }
{
    for at in 0..scan.len() {
        let seen = scan.get(at);
        if is_file_apart(shape, seen) {
            return Some(seen.page);
        }
    }
    None
}

fn is_virtual_apart(shape: &Shape, seen: &Seen) -> bool
    requires { ShapeBounds shape.now }
    ensures { result ≡ is_virtual_apart shape.now seen.now }
{
    is_virtual(shape, seen) && !seen.agrees
}

fn is_file_apart(shape: &Shape, seen: &Seen) -> bool
    requires { ShapeBounds shape.now }
    ensures { result ≡ is_physical_apart shape.now seen.now }
{
    is_file_page(shape, seen) && !seen.agrees
}

fn is_virtual(shape: &Shape, seen: &Seen) -> bool
    requires { ShapeBounds shape.now }
    ensures { result ≡ is_virtual_page shape.now seen.now }
{
    match seen.rec {
        SpareRec::Virtual { vaddr, .. } => {
            seen.page < first_physical_page(shape) && vaddr < shape.vaddrs
        }
        SpareRec::Physical { .. } => false,
    }
}

fn is_file_page(shape: &Shape, seen: &Seen) -> bool
    requires { ShapeBounds shape.now }
    ensures { result ≡ is_physical_page shape.now seen.now }
{
    match seen.rec {
        SpareRec::Virtual { .. } => false,
        SpareRec::Physical { .. } => first_physical_page(shape) <= seen.page,
    }
}
