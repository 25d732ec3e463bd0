// Reads and programs one page of an address.
ghost use Rattle.std.specs.Prelude.{◌≡◌, ◌⊎◌, ◌+◌, ◌*◌, ◌<◌, ℕ, Some, IsTrue};
ghost use Rattle.nl_field.specs.Page.{page_at, written};
ghost use Rattle.nl_field.specs.Spelling.{is_stamp};
ghost use Rattle.nl_field.specs.SpareRecord.{spare_bytes, spare_rec_of};
ghost use Rattle.nl_field.specs.declared.spare.SpareRec.TheVariants.{Virtual};
ghost use Rattle.nl_nand.specs.Nand.{CanProgram, OperationLeaves, CrashLeaves, FaultsCounted, MediumOnlyRead, OperationCounted};
ghost use Rattle.nl_vseg.specs.Pages.{fact_of, page_with, stamp_found};
ghost use Rattle.nl_vseg.specs.Answers.{ReadsPage, TellsStampFound};

use nl_field::{PageBuf, SpareRec, VirtualRead, spare_into, spare_of};
use nl_nand::{Nand, ReadAnswer, WriteAnswer};

/// The write sequence number that spare bytes spell, 0 where they spell none.
fn stamp_found(buf: &PageBuf) -> u64
    ensures { result ≡ stamp_found buf.now }
{
    match spare_of(buf.spare()) {
        None => 0,
        Some(SpareRec::Virtual { stamp, .. }) => stamp,
        Some(SpareRec::Physical { stamp, .. }) => stamp,
    }
}

/// Reads a page that is to hold this write sequence number.
pub fn read_page<M: Nand>(media: &mut M, page: u32, wanted: u64, buf: &mut PageBuf) -> VirtualRead
    requires within { page < (M.geometry media.old).blocks * (M.geometry media.old).pages }
    requires spelled { IsTrue (is_stamp wanted) }
    ensures answer { M.tells → ReadsPage (page_at (M.contents media.old) page) wanted buf.new result }
    ensures stamp { result ≡ VirtualRead.Done → stamp_found buf.new ≡ wanted }
    ensures mapped { result ≡ VirtualRead.Unmapped → ⊥ }
    ensures lost { (w f : ℕ) → result ≡ VirtualRead.Lost w f → (w ≡ wanted) × (f ≡ wanted → ⊥) }
    ensures found { TellsStampFound buf.new result }
    ensures only_reads { MediumOnlyRead M.geometry M.contents M.clock M.write_faults M.left media.old media.new }
    ensures read_faults { FaultsCounted (M.read_faults media.old) (M.read_faults media.new) (result ≡ VirtualRead.Fault) }
{
    let found = match media.read(page, buf) {
        ReadAnswer::Failed => return VirtualRead::Fault,
        ReadAnswer::Erased | ReadAnswer::Uncorrectable => 0,
        ReadAnswer::Written => stamp_found(buf),
    };
    if found == wanted {
        VirtualRead::Done
    } else {
        VirtualRead::Lost { wanted, found }
    }
}

/// Programs the main bytes of the buffer as the page of an address.
pub fn program_page<M: Nand>(
    media: &mut M,
    page: u32,
    buf: &mut PageBuf,
    vaddr: u32,
    stamp: u64,
    wear: u32,
) -> WriteAnswer
    requires within { page < (M.geometry media.old).blocks * (M.geometry media.old).pages }
    requires erased { M.tells → CanProgram (M.contents media.old) page }
    requires spelled { IsTrue (is_stamp stamp) }
    ensures shows { fact_of (written (page_with buf.old.main vaddr stamp wear)) ≡ Some (vaddr, stamp, buf.old.main) }
    ensures effect { M.tells → OperationLeaves page (page + 1) (written (page_with buf.old.main vaddr stamp wear))
        (M.contents media.old) result (M.contents media.new) }
    ensures crash { CrashLeaves M.clock M.contents M.left page (page + 1)
        (written (page_with buf.old.main vaddr stamp wear)) media.old media.new }
    ensures counted { OperationCounted M.geometry M.clock M.read_faults M.write_faults media.old media.new result }
{
    let mut spare = [0; 64];
    spare_into(&SpareRec::Virtual { vaddr, stamp, wear }, &mut spare);
    buf.set_spare(&spare);
    media.program(page, buf)
}
