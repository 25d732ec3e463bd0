// Reads and programs one page of an owner.
ghost use Rattle.std.specs.Prelude.{◌≡◌, ◌⊎◌, ◌+◌, ◌*◌, ◌<◌, ℕ, Some, IsTrue, IfSome, IfNone};
ghost use Rattle.nl_field.specs.Page.{page_at, written};
ghost use Rattle.nl_field.specs.Spelling.{is_stamp};
ghost use Rattle.nl_field.specs.SpareRecord.{spare_bytes, spare_rec_of};
ghost use Rattle.nl_nand.specs.Nand.{CanProgram, OperationLeaves, CrashLeaves, FaultsCounted, SameCrashStates, ticked};
ghost use Rattle.nl_pseg_pages.specs.Pages.{TellsFound, main_of, page_with, shown_by, stamp_at, stamp_found};

use nl_field::{NamedRead, PageBuf, SpareRec, Tag, spare_into, spare_of};
use nl_nand::{Nand, ReadAnswer, WriteAnswer};

/// Whether the spare bytes spell the record of this owner and number; else the number that was found, which is another one.
fn look(buf: &PageBuf, tag: Tag, wanted: u64) -> Option<u64>
    requires spelled { IsTrue (is_stamp wanted) }
    ensures wanted { IfNone result (shown_by (written buf.now) ≡ Some (tag, wanted, buf.now.main)) }
    ensures other { IfSome result (λ found. (found ≡ wanted → ⊥) × (shown_by (written buf.now) ≡ Some (tag, wanted, buf.now.main) → ⊥)) }
    ensures found { IfSome result (λ found. (found ≡ 0) ⊎ (found ≡ stamp_found buf.now)) }
{
    let (found, same) = match spare_of(buf.spare()) {
        None => (0, false),
        Some(SpareRec::Virtual { stamp, .. }) => (stamp, false),
        Some(
            SpareRec::Physical {
                tag: owner,
                stamp,
                ..
            },
        ) => (stamp, owner == tag),
    };
    if found != wanted {
        return Some(found);
    }
    if same { None } else { Some(0) }
}

/// Reads a page that is to hold this owner and number.
pub fn read_page<M: Nand>(
    media: &mut M,
    page: u32,
    tag: Tag,
    wanted: u64,
    buf: &mut PageBuf,
) -> NamedRead
    requires within { page < (M.geometry media.old).blocks * (M.geometry media.old).pages }
    requires spelled { IsTrue (is_stamp wanted) }
    ensures done { result ≡ NamedRead.Done → shown_by (written buf.new) ≡ Some (tag, wanted, buf.new.main) }
    ensures value { M.tells → result ≡ NamedRead.Done → page_at (M.contents media.old) page ≡ written buf.new }
    ensures live { result ≡ NamedRead.NotLive → ⊥ }
    ensures lost { (w f : ℕ) → result ≡ NamedRead.Lost w f → (w ≡ wanted) × (f ≡ wanted → ⊥) }
    ensures found { TellsFound (stamp_found buf.new) result }
    ensures told { M.tells → TellsFound (stamp_at (page_at (M.contents media.old) page)) result }
    ensures kept { M.tells → shown_by (page_at (M.contents media.old) page)
        ≡ Some (tag, wanted, main_of (page_at (M.contents media.old) page)) → (result ≡ NamedRead.Done) ⊎ (result ≡ NamedRead.Fault) }
    ensures geometry { M.geometry media.new ≡ M.geometry media.old }
    ensures contents { M.contents media.new ≡ M.contents media.old }
    ensures left { SameCrashStates M.left media.old media.new }
    ensures clock { M.clock media.new ≡ M.clock media.old }
    ensures write_faults { M.write_faults media.new ≡ M.write_faults media.old }
    ensures read_faults { FaultsCounted (M.read_faults media.old) (M.read_faults media.new) (result ≡ NamedRead.Fault) }
{
    match media.read(page, buf) {
        ReadAnswer::Failed => return NamedRead::Fault,
        ReadAnswer::Erased | ReadAnswer::Uncorrectable => {
            return NamedRead::Lost { wanted, found: 0 };
        }
        ReadAnswer::Written => {}
    }
    match look(buf, tag, wanted) {
        None => NamedRead::Done,
        Some(found) => NamedRead::Lost { wanted, found },
    }
}

/// Programs the main bytes of the buffer as the page of an owner.
pub fn program_page<M: Nand>(
    media: &mut M,
    page: u32,
    buf: &mut PageBuf,
    tag: Tag,
    stamp: u64,
    wear: u32,
) -> WriteAnswer
    requires within { page < (M.geometry media.old).blocks * (M.geometry media.old).pages }
    requires erased { M.tells → CanProgram (M.contents media.old) page }
    requires spelled { IsTrue (is_stamp stamp) }
    ensures shows { shown_by (written (page_with buf.old.main tag stamp wear)) ≡ Some (tag, stamp, buf.old.main) }
    ensures effect { M.tells → OperationLeaves page (page + 1) (written (page_with buf.old.main tag stamp wear))
        (M.contents media.old) result (M.contents media.new) }
    ensures crash { CrashLeaves M.clock M.contents M.left page (page + 1)
        (written (page_with buf.old.main tag stamp wear)) media.old media.new }
    ensures geometry { M.geometry media.new ≡ M.geometry media.old }
    ensures clock { M.clock media.new ≡ ticked (M.clock media.old) result }
    ensures read_faults { M.read_faults media.new ≡ M.read_faults media.old }
    ensures write_faults { FaultsCounted (M.write_faults media.old) (M.write_faults media.new) (result ≡ WriteAnswer.Failed) }
{
    let mut spare = [0; 64];
    spare_into(&SpareRec::Physical { tag, stamp, wear }, &mut spare);
    buf.set_spare(&spare);
    media.program(page, buf)
}
