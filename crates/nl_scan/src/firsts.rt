//! The first page of each stamp, and whether later pages of it agree with it.
ghost use Rattle.std.specs.Prelude.{◌≡◌, ◌<◌, ◌*◌, ℕ, IsTrue, IfSome, IfOk, OnOk, Some, None, Err, true, not, ◌&&◌};
ghost use Rattle.std.specs.Ordering.{nat_cmp};
ghost use Rattle.std.specs.BTreeMap.{get, Updates};
ghost use Rattle.nl_field.specs.Page.{page_at};
ghost use Rattle.nl_field.specs.SpareRecord.{is_spare, stamp_of};
ghost use Rattle.nl_field.specs.Scan.{without_wear};
ghost use Rattle.nl_nand.specs.Nand.{FaultsCounted, MediumOnlyRead};
ghost use Rattle.nl_scan.specs.Firsts.{is_alike, same_record, noted};
ghost use Rattle.nl_scan.specs.Passes.{AreFirsts, Notes};

use crate::alike::{are_alike, same_but_wear};
use nl_field::{PageBuf, SpareRec};
use nl_nand::{Nand, ReadAnswer};
use std::collections::BTreeMap;

/// The first page of a stamp in a segment.
#[derive(Clone, Copy, Debug, PartialEq, Eq)]
pub struct First {
    pub page: u32,
    /// What its spare bytes spelled when it was noted.
    pub rec: SpareRec,
    /// A later page of that stamp differs from it.
    pub mixed: bool,
}

/// Why a pass ended before its last page.
#[derive(Clone, Copy, Debug, PartialEq, Eq)]
pub enum Stopped {
    /// A read failed.
    Fault,
    Memory,
}

/// The write sequence number of a spare record.
pub fn stamp_on(rec: &SpareRec) -> u64
    ensures { result ≡ stamp_of rec.now }
{
    match *rec {
        SpareRec::Virtual { stamp, .. } => stamp,
        SpareRec::Physical { stamp, .. } => stamp,
    }
}

/// Reads the first page of a stamp again, and compares the page in the buffer with it, and its record with the noted one. None
/// where the read failed.
fn compare<M: Nand>(
    media: &mut M,
    first: &First,
    rec: &SpareRec,
    buf: &PageBuf,
    other: &mut PageBuf,
) -> Option<bool>
    requires page { first.now.page < (M.geometry media.old).blocks * (M.geometry media.old).pages }
    requires noted { IsTrue (is_spare first.now.rec) }
    requires spelled { IsTrue (is_spare rec.now) }
    ensures told { M.tells → IfSome result
        (λ same. same ≡ (is_alike rec.now buf.now.main (first.now.page, page_at (M.contents media.old) first.now.page)
        && same_record first.now.rec rec.now)) }
    ensures same { IfSome result (λ same. same ≡ true → without_wear first.now.rec ≡ without_wear rec.now) }
    ensures reads { MediumOnlyRead M.geometry M.contents M.clock M.write_faults M.left media.old media.new }
    ensures faults { FaultsCounted (M.read_faults media.old) (M.read_faults media.new) (result ≡ None) }
{
    match media.read(first.page, other) {
        ReadAnswer::Failed => None,
        ReadAnswer::Written => Some(are_alike(other, rec, buf) && same_but_wear(&first.rec, rec)),
        ReadAnswer::Erased | ReadAnswer::Uncorrectable => Some(false),
    }
}

/// Notes a page of a segment in the table of the first pages by stamp. Answers whether it agrees with each lower page of the
/// segment that has its stamp: with the first, where none between differs from the first. Whatever the medium tells, it agrees only
/// where its record is the one that was noted of the first, apart from wear.
#[tactic(auto, using(crate::proofs::Noting::notes_first, crate::proofs::Noting::notes_later))]
pub fn note<M: Nand>(
    media: &mut M,
    firsts: &mut BTreeMap<u64, First>,
    page: u32,
    rec: &SpareRec,
    buf: &PageBuf,
    other: &mut PageBuf,
) -> Result<bool, Stopped>
    requires page { page < (M.geometry media.old).blocks * (M.geometry media.old).pages }
    requires firsts { AreFirsts ((M.geometry media.old).blocks * (M.geometry media.old).pages) firsts.old }
    requires spelled { IsTrue (is_spare rec.now) }
    ensures told { M.tells → IfOk result
        (λ agrees. let first = noted (M.contents media.old) (record { page = page; rec = rec.now; main = buf.now.main })
        (get nat_cmp firsts.old (stamp_of rec.now)) in
        (agrees ≡ not first.mixed) × Updates nat_cmp firsts.old firsts.new (stamp_of rec.now) (Some first)) }
    ensures noted { IfOk result (λ agrees. Notes rec.now agrees firsts.old firsts.new) }
    ensures firsts { OnOk result (AreFirsts ((M.geometry media.old).blocks * (M.geometry media.old).pages) firsts.new) }
    ensures reads { MediumOnlyRead M.geometry M.contents M.clock M.write_faults M.left media.old media.new }
    ensures faults { FaultsCounted (M.read_faults media.old) (M.read_faults media.new) (result ≡ Err Stopped.Fault) }
{
    let stamp = stamp_on(rec);
    let first = match firsts.get(&stamp) {
        None => First {
            page,
            rec: *rec,
            mixed: false,
        },
        Some(first) => {
            let first = *first;
            match compare(media, &first, rec, buf, other) {
                Some(same) => First {
                    page: first.page,
                    rec: first.rec,
                    mixed: first.mixed || !same,
                },
                None => return Err(Stopped::Fault),
            }
        }
    };
    match firsts.insert(stamp, first) {
        Ok(_) => Ok(!first.mixed),
        Err(_) => Err(Stopped::Memory),
    }
}
