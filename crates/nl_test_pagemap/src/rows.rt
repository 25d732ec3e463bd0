// Rows of calls on a page-mapped device, with what each answers.
ghost use Rattle.std.specs.Prelude.{◌≡◌, ◌<◌, IfOk, IsTrue};
ghost use Rattle.nl_field.specs.Numbers.{ShapeBounds, shape_for};
ghost use Rattle.nl_nand.specs.Memory.{contents_of, geometry_of};
ghost use Rattle.nl_nand.specs.Nand.{IsBlank};
ghost use Rattle.nl_test_pagemap.specs.Rigs.{HasAddressed};

use nl_field::{
    FailList, Memory, Named, NamedRead, PageBuf, Pointer, Shape, Tag, VirtualRead, VirtualWrite,
    shape_of,
};
use nl_iface::{Copying, Counts, Erasing, MovingPages, NamedPages, VirtualPages};
use nl_nand::{FormAnswer, MemNand, Nand};
use nl_pagemap::{Cleaning, Pagemap};
use std::alloc::Global;
use std::process::Abort;

/// A call, with a number and its stamp, or an address, and with the first byte of a page.
#[derive(Clone, Copy)]
enum Step {
    Write(u8),
    /// So many pages are written.
    Writes(u32),
    Replace(u32, u64, u8),
    Read(u32, u64),
    /// A read for another owner.
    ReadOther(u32, u64),
    IsLive(u32, u64),
    Free(u32, u64),
    Resolve(u32),
    Put(u32, u8),
    Get(u32),
    Copy,
    Erase,
    Level,
    Clean,
    PagesLeft,
    Pairs,
    FreeBlocks,
    Entries,
    NextStamp,
    Counts,
}

/// What it answered: a pointer, the first byte of a page, or a number.
#[derive(Clone, Copy, PartialEq)]
enum Seen {
    At(u32, u64),
    Byte(u8),
    Number(u64),
    /// Programs and erases that finished, failed reads, and failed programs and erases.
    Counts(u64, u64, u64),
    Yes,
    No,
    Did,
    Nothing,
    Unmapped,
    NotLive,
    NoPage,
    Lost,
    Fault,
    /// The next stamp is greater than any that the rows reach, or the address is none.
    Beyond,
}

/// The owner of all pages that are written.
const TAG: Tag = Tag {
    ino: 3,
    generation: 1,
    index: 5,
};

const OTHER: Tag = Tag {
    ino: 3,
    generation: 1,
    index: 6,
};

/// A blank medium of 32 blocks of 32 pages, whose program or erase of this number fails, where it is not zero.
fn blank(alloc: Global, fails: u64) -> Result<MemNand, Memory>
    ensures numbers { IfOk result (λ m. geometry_of m ≡ record { blocks = 32; pages = 32 }) }
    ensures erased { IfOk result (λ m. IsBlank (contents_of m)) }
{
    let mut writes = FailList::new(alloc);
    if 0 < fails {
        writes.push(fails)?;
    }
    let mut media = MemNand::new(alloc, FailList::new(alloc), writes, None);
    match media.form(32, 32) {
        FormAnswer::Done => Ok(media),
        _ => Err(Memory),
    }
}

/// The numbers of the least volume.
fn least() -> Result<Shape, Memory>
    ensures numbers { IfOk result (λ shape. shape ≡ shape_for 32 32) }
    ensures bounds { IfOk result ShapeBounds }
{
    match shape_of(32, 32) {
        Some(shape) => Ok(shape),
        None => Err(Memory),
    }
}

fn made(alloc: Global, media: MemNand) -> Result<Pagemap<MemNand>, Memory>
    requires numbers { geometry_of media ≡ record { blocks = 32; pages = 32 } }
    requires erased { IsBlank (contents_of media) }
    ensures { IfOk result HasAddressed }
{
    let shape = least()?;
    match Pagemap::make(alloc, media, shape) {
        Ok(device) => Ok(device),
        Err(media) => {
            drop(media);
            Err(Memory)
        }
    }
}

fn named(answer: Named) -> Seen {
    match answer {
        Named::Placed(at) => Seen::At(at.name, at.stamp),
        Named::NotLive => Seen::NotLive,
        Named::NoPage => Seen::NoPage,
        Named::Fault => Seen::Fault,
    }
}

fn yes(is: bool) -> Seen {
    if is { Seen::Yes } else { Seen::No }
}

fn write(device: &mut Pagemap<MemNand>, buf: &mut PageBuf, byte: u8) -> Seen
    requires { HasAddressed device.old }
    ensures { HasAddressed device.new }
{
    if device.next_stamp() > 10_000 {
        return Seen::Beyond;
    }
    buf.clear();
    buf.set_main(0, &[byte]);
    named(device.nameless_write(TAG, buf))
}

/// Writes so many pages; how many were placed.
fn writes(device: &mut Pagemap<MemNand>, buf: &mut PageBuf, count: u32) -> Seen
    requires { HasAddressed device.old }
    ensures { HasAddressed device.new }
{
    let mut placed = 0u64;
    for n in 0..count {
        if let Seen::At(_, _) = write(device, buf, (n % 256) as u8) {
            placed = placed.saturating_add(1);
        }
    }
    Seen::Number(placed)
}

fn replace(device: &mut Pagemap<MemNand>, buf: &mut PageBuf, old: Pointer, byte: u8) -> Seen
    requires { HasAddressed device.old }
    ensures { HasAddressed device.new }
{
    if device.next_stamp() > 10_000 {
        return Seen::Beyond;
    }
    buf.clear();
    buf.set_main(0, &[byte]);
    named(device.nameless_overwrite(old, TAG, buf))
}

fn read(device: &mut Pagemap<MemNand>, buf: &mut PageBuf, at: Pointer, tag: Tag) -> Seen
    requires { HasAddressed device.old }
    ensures { HasAddressed device.new }
{
    match device.physical_read(at, tag, buf) {
        NamedRead::Done => Seen::Byte(buf.main()[0]),
        NamedRead::NotLive => Seen::NotLive,
        NamedRead::Lost { .. } => Seen::Lost,
        NamedRead::Fault => Seen::Fault,
    }
}

fn free(device: &mut Pagemap<MemNand>, at: Pointer) -> Seen
    requires { HasAddressed device.old }
    ensures { HasAddressed device.new }
{
    yes(device.free(at))
}

/// Whether the write of the address was done. Else the segment may keep no spare block, and nothing more is called.
fn put(device: &mut Pagemap<MemNand>, buf: &mut PageBuf, vaddr: u32, byte: u8) -> bool
    requires { HasAddressed device.old }
    ensures { IsTrue result → HasAddressed device.new }
{
    if device.next_stamp() > 10_000 || vaddr >= 103 {
        return false;
    }
    buf.clear();
    buf.set_main(0, &[byte]);
    matches!(device.virtual_write(vaddr, buf), VirtualWrite::Done)
}

fn get(device: &mut Pagemap<MemNand>, buf: &mut PageBuf, vaddr: u32) -> Seen
    requires { HasAddressed device.old }
    ensures { HasAddressed device.new }
{
    if vaddr >= 103 {
        return Seen::Beyond;
    }
    match device.virtual_read(vaddr, buf) {
        VirtualRead::Done => Seen::Byte(buf.main()[0]),
        VirtualRead::Unmapped => Seen::Unmapped,
        VirtualRead::Lost { .. } => Seen::Lost,
        VirtualRead::Fault => Seen::Fault,
    }
}

fn copy(device: &mut Pagemap<MemNand>) -> Seen
    requires { HasAddressed device.old }
    ensures { HasAddressed device.new }
{
    match device.copy() {
        Copying::Did => Seen::Did,
        Copying::Nothing => Seen::Nothing,
        Copying::Lost { .. } => Seen::Lost,
        Copying::Fault => Seen::Fault,
    }
}

fn erase(device: &mut Pagemap<MemNand>) -> Seen
    requires { HasAddressed device.old }
    ensures { HasAddressed device.new }
{
    match device.erase() {
        Erasing::Done => Seen::Did,
        Erasing::Nothing => Seen::Nothing,
        Erasing::Fault => Seen::Fault,
    }
}

fn clean(device: &mut Pagemap<MemNand>) -> Seen
    requires { HasAddressed device.old }
    ensures { HasAddressed device.new }
{
    match device.clean() {
        Cleaning::Done => Seen::Did,
        Cleaning::Nothing => Seen::Nothing,
        Cleaning::Fault => Seen::Fault,
    }
}

fn level(device: &mut Pagemap<MemNand>) -> bool
    requires { HasAddressed device.old }
    ensures { IsTrue result → HasAddressed device.new }
{
    !device.level()
}

/// What a call answers that only looks.
fn look(device: &Pagemap<MemNand>, step: Step) -> Seen
    requires { HasAddressed device.now }
{
    match step {
        Step::IsLive(name, stamp) => yes(device.is_live(Pointer { name, stamp })),
        Step::Resolve(name) => Seen::Number(u64::from(device.resolve(name))),
        Step::Pairs => Seen::Number(u64::from(device.pairs())),
        Step::FreeBlocks => Seen::Number(u64::from(device.free_blocks())),
        Step::PagesLeft => Seen::Number(u64::from(device.pages_left())),
        Step::Entries => Seen::Number(u64::from(device.entries())),
        Step::NextStamp => Seen::Number(device.next_stamp()),
        Step::Counts => Seen::Counts(device.clock(), device.read_faults(), device.write_faults()),
        _ => Seen::Beyond,
    }
}

/// Whether the call answers so, and the device can be called on.
fn answers_so(device: &mut Pagemap<MemNand>, buf: &mut PageBuf, step: Step, want: Seen) -> bool
    requires { HasAddressed device.old }
    ensures { IsTrue result → HasAddressed device.new }
{
    match step {
        Step::Write(byte) => write(device, buf, byte) == want,
        Step::Writes(count) => writes(device, buf, count) == want,
        Step::Replace(name, stamp, byte) => {
            replace(device, buf, Pointer { name, stamp }, byte) == want
        }
        Step::Read(name, stamp) => read(device, buf, Pointer { name, stamp }, TAG) == want,
        Step::ReadOther(name, stamp) => read(device, buf, Pointer { name, stamp }, OTHER) == want,
        Step::Free(name, stamp) => free(device, Pointer { name, stamp }) == want,
        Step::Put(vaddr, byte) => put(device, buf, vaddr, byte) && want == Seen::Did,
        Step::Get(vaddr) => get(device, buf, vaddr) == want,
        Step::Copy => copy(device) == want,
        Step::Erase => erase(device) == want,
        Step::Clean => clean(device) == want,
        Step::Level => level(device) && want == Seen::No,
        other => look(device, other) == want,
    }
}

/// The first row that is answered otherwise.
fn differs(
    device: &mut Pagemap<MemNand>,
    buf: &mut PageBuf,
    table: &[(Step, Seen)],
) -> Option<usize>
    requires { HasAddressed device.old }
{
    for row in 0..table.len() {
        let (step, want) = table[row];
        if !answers_so(device, buf, step, want) {
            return Some(row);
        }
    }
    None
}

/// The first row that the device of a blank medium answers otherwise, whose program or erase of this number fails.
fn found(alloc: Global, fails: u64, table: &[(Step, Seen)]) -> Result<Option<usize>, Memory> {
    let mut buf = PageBuf::new(alloc)?;
    let media = blank(alloc, fails)?;
    let mut device = made(alloc, media)?;
    let row = differs(&mut device, &mut buf, table);
    drop(device);
    Ok(row)
}

const ROWS: [(Step, Seen); 38] = [
    (Step::NextStamp, Seen::Number(1)),
    (Step::Entries, Seen::Number(0)),
    (Step::FreeBlocks, Seen::Number(24)),
    (Step::Write(97), Seen::At(256, 1)),
    (Step::Read(256, 1), Seen::Byte(97)),
    (Step::ReadOther(256, 1), Seen::Lost),
    (Step::Read(256, 2), Seen::NotLive),
    (Step::IsLive(256, 1), Seen::Yes),
    (Step::IsLive(257, 1), Seen::No),
    (Step::Write(98), Seen::At(257, 2)),
    (Step::Replace(256, 2, 99), Seen::NotLive),
    (Step::Replace(256, 1, 99), Seen::At(258, 3)),
    (Step::Read(256, 1), Seen::NotLive),
    (Step::Read(258, 3), Seen::Byte(99)),
    // A number that is free again is given to the next page, which is another one of the medium.
    (Step::Write(100), Seen::At(256, 4)),
    (Step::Read(256, 4), Seen::Byte(100)),
    (Step::Read(256, 1), Seen::NotLive),
    (Step::Entries, Seen::Number(3)),
    (Step::Free(257, 2), Seen::Yes),
    (Step::Free(257, 2), Seen::No),
    (Step::Read(257, 2), Seen::NotLive),
    (Step::Entries, Seen::Number(2)),
    (Step::Resolve(256), Seen::Number(256)),
    // An address takes the next stamp, as a number does.
    (Step::Get(0), Seen::Unmapped),
    (Step::Put(0, 101), Seen::Did),
    (Step::Get(0), Seen::Byte(101)),
    (Step::Get(102), Seen::Unmapped),
    (Step::NextStamp, Seen::Number(6)),
    (Step::Read(258, 3), Seen::Byte(99)),
    // Of 768 pages 736 can be programmed under numbers. A free gives none of them back.
    (Step::Writes(1000), Seen::Number(732)),
    (Step::Free(258, 3), Seen::Yes),
    (Step::Write(1), Seen::NoPage),
    (Step::FreeBlocks, Seen::Number(1)),
    // Nothing is moved, and the block of numbers that stays unused is not erased.
    (Step::Copy, Seen::Nothing),
    (Step::Erase, Seen::Fault),
    (Step::Level, Seen::No),
    (Step::Pairs, Seen::Number(0)),
    (Step::Counts, Seen::Counts(737, 0, 1)),
];

const FAILURES: [(Step, Seen); 7] = [
    (Step::Write(97), Seen::At(256, 1)),
    (Step::Replace(256, 1, 98), Seen::Fault),
    (Step::Read(256, 1), Seen::Byte(97)),
    (Step::Entries, Seen::Number(1)),
    (Step::Replace(256, 1, 98), Seen::At(257, 3)),
    (Step::Read(257, 3), Seen::Byte(98)),
    (Step::Counts, Seen::Counts(2, 0, 1)),
];

const CLEANINGS: [(Step, Seen); 38] = [
    (Step::Clean, Seen::Nothing),
    // A block of which each page is in use is not cleaned.
    (Step::Writes(32), Seen::Number(32)),
    (Step::Clean, Seen::Nothing),
    (Step::PagesLeft, Seen::Number(704)),
    // Two of its pages are dead.
    (Step::Free(256, 1), Seen::Yes),
    (Step::Replace(257, 2, 200), Seen::At(256, 33)),
    (Step::PagesLeft, Seen::Number(703)),
    (Step::Clean, Seen::Did),
    (Step::PagesLeft, Seen::Number(705)),
    (Step::Read(256, 33), Seen::Byte(200)),
    (Step::Read(257, 2), Seen::NotLive),
    (Step::Read(258, 3), Seen::Byte(2)),
    (Step::ReadOther(258, 3), Seen::Lost),
    (Step::Read(287, 32), Seen::Byte(31)),
    (Step::Entries, Seen::Number(31)),
    (Step::NextStamp, Seen::Number(34)),
    // Programs: 33 of writes, and 30 of copies. One erase.
    (Step::Counts, Seen::Counts(64, 0, 0)),
    (Step::Clean, Seen::Nothing),
    // The copies are in one block, which a page more fills, and of which one page is dead then.
    (Step::Write(201), Seen::At(257, 34)),
    (Step::Clean, Seen::Nothing),
    (Step::Free(256, 33), Seen::Yes),
    (Step::Clean, Seen::Did),
    (Step::PagesLeft, Seen::Number(705)),
    (Step::Clean, Seen::Nothing),
    (Step::Read(257, 34), Seen::Byte(201)),
    (Step::Read(258, 3), Seen::Byte(2)),
    // Where there is no room any more, pages are gained as they are freed.
    (Step::Writes(1000), Seen::Number(705)),
    (Step::PagesLeft, Seen::Number(0)),
    (Step::Clean, Seen::Nothing),
    (Step::Free(258, 3), Seen::Yes),
    (Step::Write(202), Seen::NoPage),
    (Step::Clean, Seen::Did),
    (Step::PagesLeft, Seen::Number(1)),
    (Step::Write(202), Seen::At(258, 740)),
    (Step::Write(203), Seen::NoPage),
    (Step::Read(259, 4), Seen::Byte(3)),
    (Step::Read(258, 740), Seen::Byte(202)),
    (Step::Read(258, 3), Seen::NotLive),
];

/// One page of a full block is dead, and a program or an erase of its cleaning fails.
const COPY_FAILS: [(Step, Seen); 13] = [
    (Step::Writes(32), Seen::Number(32)),
    (Step::Free(256, 1), Seen::Yes),
    (Step::Clean, Seen::Fault),
    // Seven pages were copied, and one page is lost.
    (Step::PagesLeft, Seen::Number(696)),
    (Step::Read(257, 2), Seen::Byte(1)),
    (Step::Read(264, 9), Seen::Byte(8)),
    (Step::Read(287, 32), Seen::Byte(31)),
    (Step::Clean, Seen::Did),
    (Step::PagesLeft, Seen::Number(704)),
    (Step::Read(257, 2), Seen::Byte(1)),
    (Step::Read(264, 9), Seen::Byte(8)),
    (Step::Entries, Seen::Number(31)),
    (Step::Counts, Seen::Counts(64, 0, 1)),
];

const ERASE_FAILS: [(Step, Seen); 9] = [
    (Step::Writes(32), Seen::Number(32)),
    (Step::Free(256, 1), Seen::Yes),
    (Step::Clean, Seen::Fault),
    (Step::PagesLeft, Seen::Number(673)),
    (Step::Read(257, 2), Seen::Byte(1)),
    (Step::Clean, Seen::Did),
    (Step::PagesLeft, Seen::Number(705)),
    (Step::Read(257, 2), Seen::Byte(1)),
    (Step::Counts, Seen::Counts(64, 0, 1)),
];

/// Asserts that no row differs, and that there was memory.
fn assert_none_differs(rt: &impl Abort, found: Result<Option<usize>, Memory>) {
    assert_eq!(rt; found, Ok(None));
}

// The physical segment has the pages from 256 on, and its numbers are those up to 991.
#[test]
fn numbers_have_pages(rt: HostRuntime) {
    assert_none_differs(&rt, found(rt.alloc(), 0, &ROWS));
}

// The second program fails, and spends its page and its stamp.
#[test]
fn a_program_fails(rt: HostRuntime) {
    assert_none_differs(&rt, found(rt.alloc(), 2, &FAILURES));
}

#[test]
fn blocks_are_cleaned(rt: HostRuntime) {
    assert_none_differs(&rt, found(rt.alloc(), 0, &CLEANINGS));
}

// The program of the eighth copy fails, or the erase.
#[test]
fn a_cleaning_fails(rt: HostRuntime) {
    assert_none_differs(&rt, found(rt.alloc(), 40, &COPY_FAILS));
    assert_none_differs(&rt, found(rt.alloc(), 64, &ERASE_FAILS));
}
