// The calls on the store.
ghost use Rattle.std.specs.Prelude.{◌≡◌, ◌+◌, ◌<◌, ◌^◌, IsTrue, IfSome, IsNone};
ghost use Rattle.nl_field.specs.Page.{erased, written};
ghost use Rattle.nl_field.specs.Numbers.{is_legal};
ghost use Rattle.nl_field.specs.CrashStates.{saturated};
ghost use Rattle.nl_nand.specs.Record.{is_geometry};
ghost use Rattle.nl_store.specs.Store.{KillLeaves, StoreOnlyRead, CallFaultCounted};
ghost use Rattle.nl_imgfile.specs.Layout.{position};
ghost use Rattle.nl_imgfile.specs.PageRecord.{erased_record, written_record, page_of};
ghost use Rattle.nl_imgfile.specs.DiskImage.{page_here, geometry_in_store, FormCut, StoreIsFormed, PagesLeave, PagesCut, RecordsFilled};

use crate::header::{geometry_in, header_into, never_formed};
use crate::layout::{HEADER, STATE, length_of, position_of};
use crate::page_record::PageRecord;
use nl_field::PageBuf;
use nl_nand::Geometry;
use nl_store::{FetchAnswer, Store, StoreAnswer};

/// Writes the record of this page, which holds these bytes. The state comes last: a write that is cut short leaves the page
/// erased.
pub fn write_page<S: Store>(
    store: &mut S,
    at: u64,
    buffer: &PageRecord,
    _page: u32,
    _from: &PageBuf,
) -> StoreAnswer
    requires place { at ≡ position _page }
    requires bytes { buffer.now ≡ written_record _from.now }
    requires back { page_of buffer.now ≡ written _from.now }
    ensures moment { S.moment store.new ≡ S.moment store.old }
    ensures counted { CallFaultCounted (S.write_faults store.old) (S.write_faults store.new) (result ≡ StoreAnswer.Failed) }
    ensures reads_stay { S.read_faults store.new ≡ S.read_faults store.old }
    ensures told { IsTrue S.tells → page_here (S.bytes store.old) _page ≡ erased
        → PagesLeave _page (_page + 1) (written _from.now) (S.bytes store.old) result (S.bytes store.new) }
    ensures crash { IsTrue S.tells → page_here (S.bytes store.old) _page ≡ erased
        → KillLeaves S.moment S.left (PagesCut _page (_page + 1) (written _from.now) (S.bytes store.old)) store.old store.new }
{
    let (state, page) = buffer.bytes().split_at(STATE);
    match store.put(page, at + STATE as u64) {
        StoreAnswer::Failed => StoreAnswer::Failed,
        StoreAnswer::Done => store.put(state, at),
    }
}

/// Writes the record of this page, which is erased: zeros. The state comes first.
pub fn write_erased<S: Store>(
    store: &mut S,
    at: u64,
    buffer: &PageRecord,
    _page: u32,
) -> StoreAnswer
    requires place { at ≡ position _page }
    requires bytes { buffer.now ≡ erased_record }
    ensures moment { S.moment store.new ≡ S.moment store.old }
    ensures counted { CallFaultCounted (S.write_faults store.old) (S.write_faults store.new) (result ≡ StoreAnswer.Failed) }
    ensures reads_stay { S.read_faults store.new ≡ S.read_faults store.old }
    ensures told { IsTrue S.tells → PagesLeave _page (_page + 1) erased (S.bytes store.old) result (S.bytes store.new) }
    ensures zeros { IsTrue S.tells → result ≡ StoreAnswer.Done
        → RecordsFilled _page (_page + 1) erased_record (S.bytes store.old) (S.bytes store.new) }
    ensures crash { IsTrue S.tells
        → KillLeaves S.moment S.left (PagesCut _page (_page + 1) erased (S.bytes store.old)) store.old store.new }
{
    store.put(buffer.bytes(), at)
}

/// Writes the records of so many pages as erased, one after the other in rising order.
pub fn erase_pages<S: Store>(
    store: &mut S,
    buffer: &mut PageRecord,
    first: u32,
    count: u32,
) -> StoreAnswer
    requires { first + count < 2 ^ 32 }
    ensures moment { S.moment store.new ≡ S.moment store.old }
    ensures counted { CallFaultCounted (S.write_faults store.old) (S.write_faults store.new) (result ≡ StoreAnswer.Failed) }
    ensures reads_stay { S.read_faults store.new ≡ S.read_faults store.old }
    ensures told { IsTrue S.tells → PagesLeave first (first + count) erased (S.bytes store.old) result (S.bytes store.new) }
    ensures zeros { IsTrue S.tells → result ≡ StoreAnswer.Done
        → RecordsFilled first (first + count) erased_record (S.bytes store.old) (S.bytes store.new) }
    ensures crash { IsTrue S.tells
        → KillLeaves S.moment S.left (PagesCut first (first + count) erased (S.bytes store.old)) store.old store.new }
{
    buffer.set_erased();
    for page in first..first + count {
        let StoreAnswer::Done = write_erased(store, position_of(page), buffer, page) else {
            return StoreAnswer::Failed;
        };
    }
    StoreAnswer::Done
}

/// Reads the geometry: 0 and 0 of a store that is shorter than a header, or has no header of legal numbers. None where the store
/// failed.
pub fn read_geometry<S: Store>(store: &mut S) -> Option<Geometry>
    ensures cause { IsNone result → S.read_faults store.new ≡ saturated (S.read_faults store.old + 1) }
    ensures counted { IfSome result (λ _. S.read_faults store.new ≡ S.read_faults store.old) }
    ensures writes_stay { S.write_faults store.new ≡ S.write_faults store.old }
    ensures legal { IfSome result (λ g. IsTrue (is_geometry g)) }
    ensures told { IsTrue S.tells → IfSome result (λ g. g ≡ geometry_in_store (S.bytes store.old)) }
    ensures only_fetches { StoreOnlyRead S.bytes S.moment S.left store.old store.new }
    ensures origin { S.origin store.new ≡ S.origin store.old }
{
    let mut header = [0; HEADER];
    match store.fetch(&mut header, 0) {
        FetchAnswer::Done => Some(geometry_in(&header)),
        FetchAnswer::Short => Some(never_formed()),
        FetchAnswer::Failed => None,
    }
}

/// Forms the store. Zeros come first and the header last: where this is cut short, the store has no header, and is a medium
/// that was never formed, or it is formed and all pages are erased.
pub fn form_store<S: Store>(store: &mut S, geometry: &Geometry) -> StoreAnswer
    requires { IsTrue (is_legal geometry.now.blocks geometry.now.pages) }
    ensures moment { S.moment store.new ≡ S.moment store.old }
    ensures counted { CallFaultCounted (S.write_faults store.old) (S.write_faults store.new) (result ≡ StoreAnswer.Failed) }
    ensures reads_stay { S.read_faults store.new ≡ S.read_faults store.old }
    ensures formed { IsTrue S.tells → result ≡ StoreAnswer.Done → StoreIsFormed geometry.now (S.bytes store.new) }
    ensures crash { IsTrue S.tells → KillLeaves S.moment S.left (FormCut geometry.now) store.old store.new }
{
    let StoreAnswer::Done = store.resize(0) else {
        return StoreAnswer::Failed;
    };
    let StoreAnswer::Done = store.resize(length_of(geometry.blocks, geometry.pages)) else {
        return StoreAnswer::Failed;
    };
    let mut header = [0; HEADER];
    header_into(geometry, &mut header);
    store.put(&header, 0)
}
