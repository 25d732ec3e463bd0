//! One pass over the pages of a medium, page by page.
ghost use Rattle.std.specs.Prelude.{◌≡◌, ◌↔◌, ◌<◌, ◌≤◌, ◌*◌, ◌+◌, ◌/◌, ◌∷◌, ◌++◌, ℕ, IsTrue, OnOk, IfOk, Err, [], length, max, slice_set, false};
ghost use Rattle.nl_field.specs.Page.{page_at, erased};
ghost use Rattle.nl_field.specs.Medium.{first_physical, shape_of_image};
ghost use Rattle.nl_field.specs.SpareRecord.{is_spare, stamp_of};
ghost use Rattle.nl_nand.specs.Nand.{FaultsCounted, MediumOnlyRead};
ghost use Rattle.nl_scan.specs.Passes.{AreFirsts, is_own_virtual, is_own_physical, Compared, NotedIn, Added, IsFreshPass, KnowsPages, KnowsBlocks, IsPassBelow};

use crate::firsts::{First, Stopped, note, stamp_on};
use crate::super_seen::SuperSeen;
use crate::zeros::zeros_of;
use nl_field::{Memory, PageBuf, Seen, Shape, SpareRec, spare_of};
use nl_nand::{Nand, ReadAnswer};
use std::alloc::Global;
use std::collections::BTreeMap;

/// What a pass over the pages has gathered so far.
#[derive(Drop)]
pub struct Pass {
    pub seen: Vec<Seen>,
    /// Of each block, whether all its pages so far are erased.
    pub erased: Vec<bool>,
    /// The first pages of the virtual segment, by stamp.
    pub virtuals: BTreeMap<u64, First>,
    /// The first pages of the physical segment, by stamp.
    pub physicals: BTreeMap<u64, First>,
    pub newest: SuperSeen,
    /// The greatest stamp, 0 where there is none.
    pub greatest: u64,
}

impl Pass {
    /// Before the first page of a medium of so many blocks.
    pub fn new(alloc: Global, blocks: u32) -> Result<Pass, Memory>
        ensures { IfOk result (IsFreshPass blocks) }
    {
        let erased = vec![in alloc; true; blocks as usize]?;
        Ok(Pass {
            seen: Vec::new(alloc),
            erased,
            virtuals: BTreeMap::new(alloc),
            physicals: BTreeMap::new(alloc),
            newest: SuperSeen::none(),
            greatest: 0,
        })
    }
}

// The number of the first physical page.
fn virtual_end(shape: &Shape) -> u64
    ensures { result ≡ first_physical shape.now }
{
    shape.vblocks as u64 * shape.pages as u64
}

fn is_virtual(shape: &Shape, page: u32, rec: &SpareRec) -> bool
    ensures { result ≡ is_own_virtual shape.now (record { page = page; rec = rec.now; main = [] }) }
{
    match *rec {
        SpareRec::Virtual { vaddr, .. } => {
            (page as u64) < virtual_end(shape) && vaddr < shape.vaddrs
        }
        SpareRec::Physical { .. } => false,
    }
}

fn is_physical(shape: &Shape, page: u32, rec: &SpareRec) -> bool
    ensures { result ≡ is_own_physical shape.now (record { page = page; rec = rec.now; main = [] }) }
{
    match *rec {
        SpareRec::Virtual { .. } => false,
        SpareRec::Physical { .. } => virtual_end(shape) <= page as u64,
    }
}

/// Whether a readable page agrees with the lower ones of its segment. It is noted there.
fn agrees_so_far<M: Nand>(
    media: &mut M,
    virtuals: &mut BTreeMap<u64, First>,
    physicals: &mut BTreeMap<u64, First>,
    shape: &Shape,
    page: u32,
    rec: &SpareRec,
    buf: &PageBuf,
    other: &mut PageBuf,
) -> Result<bool, Stopped>
    requires page { page < (M.geometry media.old).blocks * (M.geometry media.old).pages }
    requires spelled { IsTrue (is_spare rec.now) }
    requires virtuals { AreFirsts ((M.geometry media.old).blocks * (M.geometry media.old).pages) virtuals.old }
    requires physicals { AreFirsts ((M.geometry media.old).blocks * (M.geometry media.old).pages) physicals.old }
    ensures told { M.tells → IfOk result
        (Compared (M.contents media.old) shape.now
        (record { page = page; rec = rec.now; main = buf.now.main }) virtuals.old virtuals.new physicals.old physicals.new) }
    ensures noted { IfOk result (λ agrees. NotedIn shape.now
        (record { page = page; rec = rec.now; main = buf.now.main }) agrees virtuals.old virtuals.new physicals.old physicals.new) }
    ensures virtuals { OnOk result (AreFirsts ((M.geometry media.old).blocks * (M.geometry media.old).pages) virtuals.new) }
    ensures physicals { OnOk result (AreFirsts ((M.geometry media.old).blocks * (M.geometry media.old).pages) physicals.new) }
    ensures reads { MediumOnlyRead M.geometry M.contents M.clock M.write_faults M.left media.old media.new }
    ensures faults { FaultsCounted (M.read_faults media.old) (M.read_faults media.new) (result ≡ Err Stopped.Fault) }
{
    if is_virtual(shape, page, rec) {
        note(media, virtuals, page, rec, buf, other)
    } else if is_physical(shape, page, rec) {
        note(media, physicals, page, rec, buf, other)
    } else {
        Ok(true)
    }
}

/// Adds the readable page in the buffer.
fn add<M: Nand>(
    media: &mut M,
    pass: &mut Pass,
    shape: &Shape,
    page: u32,
    rec: SpareRec,
    buf: &PageBuf,
    other: &mut PageBuf,
) -> Result<(), Stopped>
    requires page { page < (M.geometry media.old).blocks * (M.geometry media.old).pages }
    requires spelled { IsTrue (is_spare rec) }
    requires stands { IsPassBelow (M.geometry media.old) shape.now page pass.old }
    ensures told { M.tells → OnOk result
        (Added (M.contents media.old) shape.now (record { page = page; rec = rec; main = buf.now.main }) pass.old pass.new) }
    ensures stands { OnOk result (IsPassBelow (M.geometry media.old) shape.now (page + 1) pass.new) }
    ensures erased { OnOk result (pass.new.erased.items ≡ pass.old.erased.items) }
    ensures reads { MediumOnlyRead M.geometry M.contents M.clock M.write_faults M.left media.old media.new }
    ensures faults { FaultsCounted (M.read_faults media.old) (M.read_faults media.new) (result ≡ Err Stopped.Fault) }
{
    let agrees = agrees_so_far(
        media,
        &mut pass.virtuals,
        &mut pass.physicals,
        shape,
        page,
        &rec,
        buf,
        other,
    )?;
    let zeros = zeros_of(buf.main());
    let seen = Seen {
        page,
        rec,
        zeros,
        agrees,
    };
    if pass.seen.push(seen).is_err() {
        return Err(Stopped::Memory);
    }
    pass.newest = pass.newest.after(&rec, buf);
    pass.greatest = pass.greatest.max(stamp_on(&rec));
    Ok(())
}

/// Reads a page, and adds it where it is readable. Answers whether it is erased.
fn read_one<M: Nand>(
    media: &mut M,
    pass: &mut Pass,
    shape: &Shape,
    page: u32,
    buf: &mut PageBuf,
    other: &mut PageBuf,
) -> Result<bool, Stopped>
    requires page { page < (M.geometry media.old).blocks * (M.geometry media.old).pages }
    requires shape { M.tells → shape.now ≡ shape_of_image (M.contents media.old) }
    requires knows { M.tells → KnowsPages (M.contents media.old) page pass.old }
    requires stands { IsPassBelow (M.geometry media.old) shape.now page pass.old }
    ensures knows { M.tells → OnOk result (KnowsPages (M.contents media.old) (page + 1) pass.new) }
    ensures is_erased { M.tells → IfOk result (λ e. IsTrue e ↔ (page_at (M.contents media.old) page ≡ erased)) }
    ensures stands { OnOk result (IsPassBelow (M.geometry media.old) shape.now (page + 1) pass.new) }
    ensures erased { OnOk result (pass.new.erased.items ≡ pass.old.erased.items) }
    ensures reads { MediumOnlyRead M.geometry M.contents M.clock M.write_faults M.left media.old media.new }
    ensures faults { FaultsCounted (M.read_faults media.old) (M.read_faults media.new) (result ≡ Err Stopped.Fault) }
{
    match media.read(page, buf) {
        ReadAnswer::Erased => Ok(true),
        ReadAnswer::Uncorrectable => Ok(false),
        ReadAnswer::Failed => Err(Stopped::Fault),
        ReadAnswer::Written => match spare_of(buf.spare()) {
            Some(rec) => {
                add(media, pass, shape, page, rec, buf, other)?;
                Ok(false)
            }
            None => Ok(false),
        },
    }
}

// The block of a page has a page that is not erased.
fn mark(erased: &mut Vec<bool>, page: u32, pages: u32)
    requires some { 0 < pages }
    requires block { page / pages < length erased.old.items }
    ensures { erased.new.items ≡ slice_set erased.old.items (page / pages) false }
{
    erased[(page / pages) as usize] = false;
}

/// Reads a page.
pub fn step<M: Nand>(
    media: &mut M,
    pass: &mut Pass,
    shape: &Shape,
    page: u32,
    buf: &mut PageBuf,
    other: &mut PageBuf,
) -> Result<(), Stopped>
    requires page { page < (M.geometry media.old).blocks * (M.geometry media.old).pages }
    requires pages { shape.now.pages ≡ (M.geometry media.old).pages }
    requires shape { M.tells → shape.now ≡ shape_of_image (M.contents media.old) }
    requires knows { M.tells → KnowsPages (M.contents media.old) page pass.old }
    requires blocks { M.tells → KnowsBlocks (M.contents media.old) page pass.old.erased.items }
    requires stands { IsPassBelow (M.geometry media.old) shape.now page pass.old }
    ensures knows { M.tells → OnOk result (KnowsPages (M.contents media.new) (page + 1) pass.new) }
    ensures blocks { M.tells → OnOk result (KnowsBlocks (M.contents media.new) (page + 1) pass.new.erased.items) }
    ensures stands { OnOk result (IsPassBelow (M.geometry media.new) shape.now (page + 1) pass.new) }
    ensures reads { MediumOnlyRead M.geometry M.contents M.clock M.write_faults M.left media.old media.new }
    ensures faults { FaultsCounted (M.read_faults media.old) (M.read_faults media.new) (result ≡ Err Stopped.Fault) }
{
    let is_erased = read_one(media, pass, shape, page, buf, other)?;
    if !is_erased {
        mark(&mut pass.erased, page, shape.pages);
    }
    Ok(())
}
