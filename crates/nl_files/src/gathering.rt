//! The pointers of a file are counted, and gathered into a list.
ghost use Rattle.std.specs.Prelude.{◌≡◌, ◌≢◌, ◌<◌, ◌≤◌, ◌+◌, ◌-◌, ◌*◌, ◌/◌, ◌^◌, ◌++◌, ◌∷◌, [], if◌then◌else◌, IsSome, true, false, is_some, length};
ghost use Rattle.nl_field.specs.declared.pointer.Pointer.{Pointer as PointerOf};
ghost use Rattle.nl_iface.specs.Calls.{OnlyReads, ReadsCounted};
ghost use Rattle.nl_meta.specs.Pages.{page_of};
ghost use Rattle.nl_indirect.specs.Ranges.{HasRange, address_of, some_pointer};
ghost use Rattle.nl_files.specs.Answers.{IfPages, IsLostFile, IsLostCount, IsPageStamp, LosesFile, LosesCount};
ghost use Rattle.nl_files.specs.Spans.{as_list, pointers_from, pointers_of_span};
ghost use Rattle.nl_files.specs.Standing.{FileIsAtHand, KeepsRunning, LoadsOwn, running_map};

use crate::answer::{CountPages, FileAnswer};
use crate::pages::load_range;
use nl_field::{InodeRec, Pointer, PointerList};
use nl_iface::NamedPages;
use nl_indirect::{lookup, page_address};
use nl_meta::Meta;

const DIRECT: u32 = 8;

const SLOTS: u32 = 256;

// The indexes of the node are a range, and those of each of its addresses.
const RANGES: u32 = 17;

/// How many page indexes of a file have a pointer.
pub fn count_pages<D: NamedPages>(device: &mut D, meta: &mut Meta, rec: &InodeRec) -> CountPages
    requires formed { D.formed device.old }
    requires stands { FileIsAtHand D.Counts device.old rec.now meta.old }
    ensures formed { D.formed device.new }
    ensures kept { OnlyReads D.Counts device.old device.new }
    ensures pages { KeepsRunning D.Counts device.old meta.old meta.new }
    ensures only { LoadsOwn rec.now meta.old meta.new }
    ensures count { IfPages result (λ n. n ≡ length (pointers_from (running_map D.Counts device.old meta.old) rec.now 0)) }
    ensures faults { ReadsCounted D.Counts (result ≡ CountPages.Fault) device.old device.new }
    ensures lost { LosesCount (IsPageStamp (D.stamps device.old) rec.now) result }
    ensures told { D.tells → IsLostCount result → ⊥ }
{
    let mut count = 0;
    for range in 0..RANGES {
        match count_range(device, meta, rec, start(range, 0), end(range)) {
            CountPages::Pages(more) => count += more,
            other => return other,
        }
    }
    CountPages::Pages(count)
}

// How many indexes have a pointer, of some of one range.
fn count_range<D: NamedPages>(
    device: &mut D,
    meta: &mut Meta,
    rec: &InodeRec,
    first: u32,
    end: u32,
) -> CountPages
    requires formed { D.formed device.old }
    requires some { first < end }
    requires within { end ≤ 4104 }
    requires range { (first + 248) / 256 ≡ (end + 247) / 256 }
    requires stands { FileIsAtHand D.Counts device.old rec.now meta.old }
    ensures formed { D.formed device.new }
    ensures kept { OnlyReads D.Counts device.old device.new }
    ensures pages { KeepsRunning D.Counts device.old meta.old meta.new }
    ensures only { LoadsOwn rec.now meta.old meta.new }
    ensures count { IfPages result
        (λ n. n ≡ length (pointers_of_span (running_map D.Counts device.old meta.old) rec.now first (end - first))) }
    ensures faults { ReadsCounted D.Counts (result ≡ CountPages.Fault) device.old device.new }
    ensures lost { LosesCount (IsPageStamp (D.stamps device.old) rec.now) result }
    ensures told { D.tells → IsLostCount result → ⊥ }
{
    match load_range(device, meta, rec, first) {
        FileAnswer::Done => CountPages::Pages(count_span(rec, meta, first, end)),
        FileAnswer::Fault => CountPages::Fault,
        FileAnswer::Lost { wanted, found } => CountPages::Lost { wanted, found },
    }
}

// How many indexes have a pointer, of some of one range, whose page is resident.
fn count_span(rec: &InodeRec, meta: &Meta, first: u32, end: u32) -> u32
    requires some { first < end }
    requires within { end ≤ 4104 }
    requires range { (first + 248) / 256 ≡ (end + 247) / 256 }
    requires ready { HasRange (page_of meta.now) rec.now first }
    ensures { result ≡ length (pointers_of_span (page_of meta.now) rec.now first (end - first)) }
{
    if has_no_page(rec, first) {
        return 0;
    }
    let mut count = 0;
    for index in first..end {
        count += one_where(&lookup(rec, meta, index));
    }
    count
}

fn one_where(found: &Option<Pointer>) -> u32
    ensures { result ≡ (if is_some found.now then 1 else 0) }
{
    match found {
        Some(_) => 1,
        None => 0,
    }
}

// Whether the index is one of a range without a page.
fn has_no_page(rec: &InodeRec, index: u32) -> bool
    requires { index < 4104 }
    ensures none { result ≡ true → (8 ≤ index) × (address_of rec.now index ≡ 0) }
    ensures some { result ≡ false → 8 ≤ index → address_of rec.now index ≢ 0 }
{
    index >= DIRECT && page_address(rec, index) == 0
}

// The first index of a range from one on.
fn start(range: u32, from: u32) -> u32
    requires range { range < 17 }
    requires from { from ≤ 4104 }
    ensures { result ≡ from + (256 * range - (248 + from)) }
{
    from.max((SLOTS * range).saturating_sub(SLOTS - DIRECT))
}

// The index behind those of a range.
fn end(range: u32) -> u32
    requires { range < 17 }
    ensures { result ≡ 256 * range + 8 }
{
    SLOTS * range + DIRECT
}

/// Adds the pointers of the page indexes from one on behind those of a list that has room for them, in rising order. After `Fault`
/// and `Lost` the list has what it had.
pub fn gather<D: NamedPages>(
    device: &mut D,
    meta: &mut Meta,
    rec: &InodeRec,
    from: u32,
    freeing: &mut PointerList,
) -> FileAnswer
    requires formed { D.formed device.old }
    requires within { from ≤ 4104 }
    requires stands { FileIsAtHand D.Counts device.old rec.now meta.old }
    requires room { length (pointers_from (running_map D.Counts device.old meta.old) rec.now from) ≤ freeing.old.room }
    requires few { length freeing.old.items + length (pointers_from (running_map D.Counts device.old meta.old) rec.now from) < 2 ^ 32 }
    ensures formed { D.formed device.new }
    ensures kept { OnlyReads D.Counts device.old device.new }
    ensures pages { KeepsRunning D.Counts device.old meta.old meta.new }
    ensures only { LoadsOwn rec.now meta.old meta.new }
    ensures done { result ≡ FileAnswer.Done
        → freeing.new.items ≡ freeing.old.items ++ pointers_from (running_map D.Counts device.old meta.old) rec.now from }
    ensures refused { (result ≡ FileAnswer.Done → ⊥) → freeing.new.items ≡ freeing.old.items }
    ensures room { length freeing.old.items + freeing.old.room ≤ length freeing.new.items + freeing.new.room }
    ensures faults { ReadsCounted D.Counts (result ≡ FileAnswer.Fault) device.old device.new }
    ensures lost { LosesFile (IsPageStamp (D.stamps device.old) rec.now) result }
    ensures told { D.tells → IsLostFile result → ⊥ }
{
    let before = freeing.len();
    for range in (from + SLOTS - DIRECT) / SLOTS..RANGES {
        match gather_range(device, meta, rec, start(range, from), end(range), freeing) {
            FileAnswer::Done => {}
            other => {
                freeing.shorten(before);
                return other;
            }
        }
    }
    FileAnswer::Done
}

// Adds the pointers of some indexes of one range.
fn gather_range<D: NamedPages>(
    device: &mut D,
    meta: &mut Meta,
    rec: &InodeRec,
    first: u32,
    end: u32,
    freeing: &mut PointerList,
) -> FileAnswer
    requires formed { D.formed device.old }
    requires some { first < end }
    requires within { end ≤ 4104 }
    requires range { (first + 248) / 256 ≡ (end + 247) / 256 }
    requires stands { FileIsAtHand D.Counts device.old rec.now meta.old }
    requires room { length (pointers_of_span (running_map D.Counts device.old meta.old) rec.now first (end - first)) ≤ freeing.old.room }
    requires few { length freeing.old.items
        + length (pointers_of_span (running_map D.Counts device.old meta.old) rec.now first (end - first)) < 2 ^ 32 }
    ensures formed { D.formed device.new }
    ensures kept { OnlyReads D.Counts device.old device.new }
    ensures pages { KeepsRunning D.Counts device.old meta.old meta.new }
    ensures only { LoadsOwn rec.now meta.old meta.new }
    ensures done { result ≡ FileAnswer.Done → freeing.new.items
        ≡ freeing.old.items ++ pointers_of_span (running_map D.Counts device.old meta.old) rec.now first (end - first) }
    ensures refused { (result ≡ FileAnswer.Done → ⊥) → freeing.new ≡ freeing.old }
    ensures room { length freeing.old.items + freeing.old.room ≤ length freeing.new.items + freeing.new.room }
    ensures faults { ReadsCounted D.Counts (result ≡ FileAnswer.Fault) device.old device.new }
    ensures lost { LosesFile (IsPageStamp (D.stamps device.old) rec.now) result }
    ensures told { D.tells → IsLostFile result → ⊥ }
{
    match load_range(device, meta, rec, first) {
        FileAnswer::Done => {
            gather_span(rec, meta, first, end, freeing);
            FileAnswer::Done
        }
        other => other,
    }
}

// Adds the pointers of some indexes of one range, whose page is resident.
fn gather_span(rec: &InodeRec, meta: &Meta, first: u32, end: u32, freeing: &mut PointerList)
    requires some { first < end }
    requires within { end ≤ 4104 }
    requires range { (first + 248) / 256 ≡ (end + 247) / 256 }
    requires ready { HasRange (page_of meta.now) rec.now first }
    requires room { length (pointers_of_span (page_of meta.now) rec.now first (end - first)) ≤ freeing.old.room }
    requires few { length freeing.old.items + length (pointers_of_span (page_of meta.now) rec.now first (end - first)) < 2 ^ 32 }
    ensures items { freeing.new.items ≡ freeing.old.items ++ pointers_of_span (page_of meta.now) rec.now first (end - first) }
    ensures room { length freeing.old.items + freeing.old.room ≤ length freeing.new.items + freeing.new.room }
{
    if has_no_page(rec, first) {
        return;
    }
    for index in first..end {
        add_where(freeing, lookup(rec, meta, index));
    }
}

// Adds a pointer, if there is one, to a list that has room for it.
fn add_where(freeing: &mut PointerList, found: Option<Pointer>)
    requires room { IsSome found → 0 < freeing.old.room }
    requires few { IsSome found → length freeing.old.items + 1 < 2 ^ 32 }
    ensures items { (p : PointerOf) → found ≡ some_pointer p → freeing.new.items ≡ freeing.old.items ++ as_list p }
    ensures room { length freeing.old.items + freeing.old.room ≤ length freeing.new.items + freeing.new.room }
{
    if let Some(pointer) = found {
        add(freeing, pointer);
    }
}

// Adds a pointer to a list that has room for it.
pub(crate) fn add(freeing: &mut PointerList, pointer: Pointer)
    requires room { 0 < freeing.old.room }
    requires few { length freeing.old.items + 1 < 2 ^ 32 }
    ensures items { freeing.new.items ≡ freeing.old.items ++ pointer ∷ [] }
    ensures room { freeing.old.room ≤ freeing.new.room + 1 }
{
    match freeing.push(pointer) {
        Ok(()) => {}
        Err(_) => unreachable!(),
    }
}
