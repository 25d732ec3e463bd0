//! One pass over all pages of a medium, and what it tells.
#![tactic(auto)]

ghost use Rattle.std.specs.Prelude.{◌≡◌, ◌*◌, IsTrue, IfOk, Err};
ghost use Rattle.nl_field.specs.Numbers.{is_legal, shape_for};
ghost use Rattle.nl_nand.specs.Nand.{FaultsCounted, MediumOnlyRead};
ghost use Rattle.nl_scan.specs.Scans.{IfTables};
ghost use Rattle.nl_scan.specs.Tables.{IsTableOf, IsSeenTable, FitsMedium};
ghost use Rattle.nl_scan.specs.Passes.{IsPassBelow};

mod alike;
mod firsts;
mod pass;
mod super_seen;
mod tables;
mod zeros;

use crate::firsts::Stopped;
use crate::pass::{Pass, step};
pub use nl_field::Seen;
use nl_field::{PageBuf, Shape, shape_of};
use nl_nand::{Geometry, Nand};
use std::alloc::Global;
pub use tables::ScanTables;

/// What a scan answers.
#[derive(Debug, Drop)]
pub enum Scanned {
    Tables(ScanTables),
    /// A read failed. No page was read after it.
    Fault,
    Memory,
}

/// Reads each page of the medium, in rising order. A page whose write sequence number an earlier page of its segment has is
/// compared with the first of those, which is read again for it, and with the record that was seen there first.
pub fn scan<M: Nand>(alloc: Global, media: &mut M) -> Scanned
    ensures tables { M.tells → IfTables result (IsTableOf (M.contents media.old)) }
    ensures fits { IfTables result (FitsMedium (M.geometry media.old)) }
    ensures faults { FaultsCounted (M.read_faults media.old) (M.read_faults media.new) (result ≡ Scanned.Fault) }
    ensures only_reads { MediumOnlyRead M.geometry M.contents M.clock M.write_faults M.left media.old media.new }
{
    let geometry = media.geometry();
    match shape_of(geometry.blocks, geometry.pages) {
        Some(shape) => match pages(alloc, media, geometry, &shape) {
            Ok(pass) => Scanned::Tables(tables_of(pass)),
            Err(Stopped::Fault) => Scanned::Fault,
            Err(Stopped::Memory) => Scanned::Memory,
        },
        None => Scanned::Tables(ScanTables::of_pass(Vec::new(alloc), Vec::new(alloc), 0, 0)),
    }
}

fn tables_of(pass: Pass) -> ScanTables
    requires { IsSeenTable pass.seen.items pass.greatest }
    ensures { result ≡ record { seen = pass.seen.items; erased = pass.erased.items; version = pass.newest.version } }
{
    let Pass {
        seen,
        erased,
        virtuals: _,
        physicals: _,
        newest,
        greatest,
    } = pass;
    ScanTables::of_pass(seen, erased, newest.version, greatest)
}

/// Reads all pages.
fn pages<M: Nand>(
    alloc: Global,
    media: &mut M,
    geometry: Geometry,
    shape: &Shape,
) -> Result<Pass, Stopped>
    requires geometry { geometry ≡ M.geometry media.old }
    requires legal { IsTrue (is_legal geometry.blocks geometry.pages) }
    requires shape { shape.now ≡ shape_for geometry.blocks geometry.pages }
    ensures tables { M.tells → IfOk result
        (λ pass. IsTableOf (M.contents media.old)
        (record { seen = pass.seen.items; erased = pass.erased.items; version = pass.newest.version })) }
    ensures stands { IfOk result (IsPassBelow geometry shape.now (geometry.blocks * geometry.pages)) }
    ensures reads { MediumOnlyRead M.geometry M.contents M.clock M.write_faults M.left media.old media.new }
    ensures faults { FaultsCounted (M.read_faults media.old) (M.read_faults media.new) (result ≡ Err Stopped.Fault) }
{
    let Ok(mut pass) = Pass::new(alloc, geometry.blocks) else {
        return Err(Stopped::Memory);
    };
    let Ok(mut buf) = PageBuf::new(alloc) else {
        return Err(Stopped::Memory);
    };
    let Ok(mut other) = PageBuf::new(alloc) else {
        return Err(Stopped::Memory);
    };
    let count = geometry.blocks * geometry.pages;
    'pages: for page in 0..count {
        step(media, &mut pass, shape, page, &mut buf, &mut other)?;
    }
    Ok(pass)
}
