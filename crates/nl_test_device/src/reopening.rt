// A device that is opened again after its cleaning was stopped.
ghost use Rattle.std.specs.Prelude.{◌≡◌, ◌+◌, ◌<◌, ◌≤◌, ℕ, IfOk, IsTrue, None};
ghost use Rattle.nl_device.specs.Kept.{kept_from, kept_pages};
ghost use Rattle.nl_device.specs.Retain.{kept_of};
ghost use Rattle.nl_test_device.specs.Reopened.{CanOpen, of_least, own_page, pages_from, place_of, three, wanted_at};

use crate::device::{Rig, Seen, Step, TAG, fresh};
use nl_device::{Device, Started};
use nl_field::{FailList, Memory, PageBuf, Pointer, PointerList, SpareRec};
use nl_iface::Counts;
use nl_nand::{Cut, MemNand, Nand, Stop};
use nl_scan::{ScanTables, Seen as Page};
use std::alloc::Global;

/// What the cleaning has done: it copied page 258, or pages 258 and 270, or erased their block too. In `Moved` and `Lost` the pointers have
/// the old names still, though in `Lost` their block was erased.
#[derive(Clone, Copy)]
enum Left {
    Written,
    OneCopied,
    Copied,
    Erased,
    Moved,
    Lost,
    /// As `Erased`, but of the block's pages those from 0 to 4, from 15 to 19, 30 and 31 are left, and so the old page 258, but not 270.
    Partly,
    /// As `Lost`, but of the block's pages the same are left as in `Partly`.
    PartlyLost,
}

/// Whether this is the page of that number, with this stamp and the owner of all pages.
fn is_page(page: &Page, number: u32, stamp: u64) -> bool
    ensures { IsTrue result → kept_from 256 page.now ≡ Some (own_page (number, stamp)) }
{
    match page.rec {
        SpareRec::Virtual { .. } => false,
        SpareRec::Physical {
            tag,
            stamp: found,
            ..
        } => number >= 256 && page.page == number && tag == TAG && found == stamp,
    }
}

/// The pages that may be seen, by rising number, each with its stamp: the 33 that were written, and then the two copies.
fn wanted(at: u32) -> (u32, u64)
    ensures { result ≡ wanted_at at }
{
    if at < 33 {
        (256 + at, at as u64 + 1)
    } else if at == 33 {
        (320, 3)
    } else {
        (321, 15)
    }
}

/// The place among these of the page that is seen at a place. Of each fifteen only the first five may be seen.
fn place(first: u32, fives: bool, at: u32) -> u32
    requires { first + at < 40 }
    ensures { result ≡ place_of first fives at }
{
    first + at + if fives { at / 5 * 10 } else { 0 }
}

/// Whether the scan saw so many of these pages, from this one on.
fn are_seen(tables: &ScanTables, first: u32, fives: bool, count: u32) -> bool
    requires { first + count ≤ 35 }
    ensures { IsTrue result → kept_pages 256 tables.now.seen ≡ pages_from first fives count }
{
    if tables.len() != count {
        return false;
    }
    for at in 0..count {
        let (number, stamp) = wanted(place(first, fives, at));
        if !is_page(tables.get(at), number, stamp) {
            return false;
        }
    }
    true
}

/// A device that was started from a medium on which a scan sees these pages.
fn scanned(
    alloc: Global,
    media: MemNand,
    first: u32,
    fives: bool,
    count: u32,
) -> Result<Device<MemNand>, Memory>
    requires { first + count ≤ 35 }
    ensures formed { IfOk result (λ d. ⟦<Device<MemNand> as Counts>⟧.formed d) }
    ensures live { IfOk result (λ d. (p : ℕ) → (⟦<Device<MemNand> as Counts>⟧.names d).live p ≡ None) }
    ensures idle { IfOk result (λ d. (⟦<Device<MemNand> as Counts>⟧.names d).space.victim ≡ 0) }
    ensures kept { IfOk result (λ d. kept_of d ≡ of_least first fives count) }
{
    let geometry = media.geometry();
    if geometry.blocks != 32 || geometry.pages != 32 {
        drop(media);
        return Err(Memory);
    }
    match Device::start(alloc, media) {
        Started::Ready(device, tables) => {
            if are_seen(&tables, first, fives, count) {
                Ok(device)
            } else {
                drop(device);
                Err(Memory)
            }
        }
        other => {
            drop(other);
            Err(Memory)
        }
    }
}

/// The pointers of the three live pages; those of the two pages of the victim have these names.
fn pointers(alloc: Global, first: u32, second: u32) -> Result<PointerList, Memory>
    ensures { IfOk result (λ l. l.items ≡ three first second) }
{
    let mut list = PointerList::new(alloc);
    list.push(Pointer {
        name: first,
        stamp: 3,
    })?;
    list.push(Pointer {
        name: second,
        stamp: 15,
    })?;
    list.push(Pointer {
        name: 288,
        stamp: 33,
    })?;
    Ok(list)
}

/// The pages that a scan sees after a stop, and the names of the pointers of the two pages of the victim.
#[derive(Clone, Copy)]
struct Opening {
    first: u32,
    fives: bool,
    count: u32,
    one: u32,
    two: u32,
}

fn opening_with(first: u32, fives: bool, count: u32, one: u32, two: u32) -> Opening
    ensures { result ≡ record { first = first; fives = fives; count = count; one = one; two = two } }
{
    Opening {
        first,
        fives,
        count,
        one,
        two,
    }
}

fn opening_after(left: Left) -> Opening
    ensures { CanOpen result.first result.fives result.count result.one result.two }
{
    match left {
        Left::Written => opening_with(0, false, 33, 258, 270),
        Left::OneCopied => opening_with(0, false, 34, 258, 270),
        Left::Copied => opening_with(0, false, 35, 320, 321),
        Left::Erased => opening_with(32, false, 3, 320, 321),
        Left::Moved => opening_with(0, false, 35, 258, 270),
        Left::Lost => opening_with(32, false, 3, 258, 270),
        Left::Partly => opening_with(0, true, 15, 320, 321),
        Left::PartlyLost => opening_with(0, true, 15, 258, 270),
    }
}

/// The device of a medium on which a scan sees these pages, with these pointers.
fn reopened(alloc: Global, media: MemNand, with: Opening) -> Result<Rig, Memory>
    requires { CanOpen with.first with.fives with.count with.one with.two }
{
    let buf = PageBuf::new(alloc)?;
    let list = pointers(alloc, with.one, with.two)?;
    let mut device = scanned(alloc, media, with.first, with.fives, with.count)?;
    device.retain(&list);
    Ok(Rig { device, buf })
}

/// Two pages are moved and their block is erased, until this stop; the medium after a restart.
fn stopped(alloc: Global, stop: Stop) -> Result<MemNand, Memory> {
    let mut rig = fresh(
        alloc,
        FailList::new(alloc),
        FailList::new(alloc),
        Some(stop),
    )?;
    rig.make();
    rig.copy();
    rig.copy();
    rig.erase();
    Ok(rig.restarted())
}

/// What a device answers that was opened with these names of the two pages of the victim; `next` is the name of the next page.
fn kept(rig: &mut Rig, first: u32, second: u32, next: u32) -> Option<usize> {
    rig.differs(&[
        (Step::FreeBlocks, Seen::Number(22)),
        (Step::Pairs, Seen::Number(0)),
        (Step::Read(first, 3), Seen::Byte(2)),
        (Step::Read(second, 15), Seen::Byte(14)),
        (Step::Read(288, 33), Seen::Byte(32)),
        (Step::Read(256, 1), Seen::NotLive),
        (Step::Write(7), Seen::At(next, 34)),
    ])
}

/// What a device answers that was opened with the old names of the two pages of the victim, which were copied. Each of the two has a
/// callback, in the order of the pointers, and their block waits for both names.
fn led(rig: &mut Rig, next: u32) -> Option<usize> {
    rig.differs(&[
        (Step::FreeBlocks, Seen::Number(21)),
        (Step::Pairs, Seen::Number(2)),
        (Step::Posted, Seen::Number(2)),
        (Step::Least, Seen::Number(1)),
        (Step::Callback(1), Seen::Moved(258, 320, 3)),
        (Step::Callback(2), Seen::Moved(270, 321, 15)),
        (Step::Callback(3), Seen::No),
        (Step::Resolve(258), Seen::Number(320)),
        (Step::Resolve(288), Seen::Number(288)),
        (Step::Read(258, 3), Seen::Byte(2)),
        (Step::Read(321, 15), Seen::Byte(14)),
        (Step::Read(288, 33), Seen::Byte(32)),
        (Step::Read(256, 1), Seen::NotLive),
        (Step::Handled(1, 7), Seen::Yes),
        (Step::Handled(2, 8), Seen::Yes),
        (Step::Acknowledge(7), Seen::Did),
        (Step::Pairs, Seen::Number(1)),
        (Step::FreeBlocks, Seen::Number(21)),
        (Step::Acknowledge(8), Seen::Did),
        (Step::Pairs, Seen::Number(0)),
        (Step::FreeBlocks, Seen::Number(22)),
        (Step::Read(258, 3), Seen::NotLive),
        (Step::Read(320, 3), Seen::Byte(2)),
        (Step::Write(7), Seen::At(next, 34)),
    ])
}

fn answers(rig: &mut Rig, left: Left, next: u32) -> Option<usize> {
    match left {
        Left::Written | Left::OneCopied => kept(rig, 258, 270, next),
        Left::Copied | Left::Erased | Left::Partly => kept(rig, 320, 321, next),
        Left::Moved | Left::Lost | Left::PartlyLost => led(rig, next),
    }
}

/// Of an erased block five pages stay, five are erased, five are uncorrectable, and so on.
const BY_FIVES: Cut = Cut::Mixed(205465758716988);

/// Where a cleaning stops, with which cut, what is left then, and the name of the next page after an opening. No block has a wear then,
/// so the Free one of least number is used next, also where it is to be erased first.
const STOPS: [(u64, Cut, Left, u32); 15] = [
    (34, Cut::Before, Left::Written, 320),
    (34, Cut::After, Left::OneCopied, 320),
    (34, Cut::Spoilt, Left::Written, 320),
    (35, Cut::Before, Left::OneCopied, 320),
    (35, Cut::After, Left::Copied, 256),
    (35, Cut::Spoilt, Left::OneCopied, 320),
    (36, Cut::Before, Left::Copied, 256),
    (36, Cut::After, Left::Erased, 256),
    (36, Cut::Spoilt, Left::Erased, 256),
    (36, BY_FIVES, Left::Partly, 256),
    // The callbacks were not handled: the old names lead to the copies, and the block of the names waits, until they are.
    (35, Cut::After, Left::Moved, 256),
    (36, Cut::Before, Left::Moved, 256),
    (36, Cut::After, Left::Lost, 256),
    (36, Cut::Spoilt, Left::Lost, 256),
    (36, BY_FIVES, Left::PartlyLost, 256),
];

/// What a device answers otherwise that is opened after such a stop.
fn differs(
    alloc: Global,
    operation: u64,
    cut: Cut,
    left: Left,
    next: u32,
) -> Result<Option<usize>, Memory> {
    let media = stopped(alloc, Stop { operation, cut })?;
    let mut rig = reopened(alloc, media, opening_after(left))?;
    let row = answers(&mut rig, left, next);
    drop(rig);
    Ok(row)
}

// The first stop after which a device answers otherwise, and which row.
fn stops_differ(alloc: Global) -> Result<Option<(usize, usize)>, Memory> {
    for (at, stop) in STOPS.iter().enumerate() {
        let (operation, cut, left, next) = *stop;
        if let Some(row) = differs(alloc, operation, cut, left, next)? {
            return Ok(Some((at, row)));
        }
    }
    Ok(None)
}

// Two copies and the erase of their block, each stopped with each cut.
#[test]
fn a_cleaning_is_stopped(rt: HostRuntime) {
    assert!(rt; stops_differ(rt.alloc()) == Ok(None));
}
