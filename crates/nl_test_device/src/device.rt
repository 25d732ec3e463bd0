// Rows of calls on a device, on pages under names and pages by address, with what each answers.
ghost use Rattle.std.specs.Prelude.{◌≡◌, ◌<◌, IfOk, IsTrue};
ghost use Rattle.nl_test_device.specs.Rigs.{HasAddressed};
ghost use Rattle.nl_nand.specs.Memory.{contents_of, geometry_of};
ghost use Rattle.nl_nand.specs.Nand.{IsBlank};

use crate::asserting::assert_none_differs;
use nl_device::{Device, Started};
use nl_field::{
    FailList, Memory, Named, NamedRead, PageBuf, Pointer, PointerList, Tag, VirtualRead,
    VirtualWrite,
};
use nl_iface::{Copying, Counts, Erasing, MovingPages, NamedPages, VirtualPages};
use nl_nand::{MemNand, Stop};
use nl_test_device_segments::medium::{blank, failing};
use std::alloc::Global;
use std::marker::Model;

/// A call, with the name of a pointer and its stamp, and with the first byte of a page.
#[derive(Clone, Copy)]
pub enum Step {
    /// Block 8 is written whole, and one page of block 9. Page `n` of block 8 begins with `n` and has stamp `n + 1`; of these only pages
    /// 258 and 270 stay live.
    Make,
    Write(u8),
    /// So many pages are written, each with its number as the first byte.
    Writes(u32),
    Replace(u32, u64, u8),
    Read(u32, u64),
    /// A read for another owner.
    ReadOther(u32, u64),
    IsLive(u32, u64),
    Free(u32, u64),
    Resolve(u32),
    Copy,
    /// So many pages are moved, or victims begun that have none.
    Copies(u32),
    Erase,
    Level,
    Callback(u64),
    Handled(u64, u64),
    /// The callbacks of the numbers up to this one are handled.
    HandledTo(u64, u64),
    /// So many blocks are written full, their pages freed, and each cleaned.
    Wear(u32),
    Acknowledge(u64),
    Least,
    Posted,
    Pairs,
    FreeBlocks,
    NextStamp,
    Counts,
}

/// What it answered: a pointer, the first byte of a page, the names before and after a move with the stamp, or a number.
#[derive(Clone, Copy, PartialEq)]
pub enum Seen {
    At(u32, u64),
    Byte(u8),
    Moved(u32, u32, u64),
    Number(u64),
    /// Programs and erases that finished, failed reads, and failed programs and erases.
    Counts(u64, u64, u64),
    Yes,
    No,
    Did,
    Nothing,
    Unmapped,
    NotLive,
    NoPage,
    Lost,
    Fault,
    /// The next stamp is greater than any that the tests reach.
    Worn,
}

/// The owner of all pages that are written: index 5 of node 3 of generation 1.
pub const TAG: Tag = Tag {
    ino: 3,
    generation: 1,
    index: 5,
};

const OTHER: Tag = Tag {
    ino: 3,
    generation: 1,
    index: 6,
};

/// A device whose pages under names are those from 256 on.
#[derive(Drop)]
pub struct Rig {
    pub device: Device<MemNand>,
    pub buf: PageBuf,
}

impl Model for Rig {
    ghost use Rattle.nl_test_device.specs.Rigs.{IsFormed};

    ghost Value = { Unit {0} };

    ghost view = { λ r. tt };

    ghost invariant = { λ r. IsFormed r.device };
}

fn started(alloc: Global, media: MemNand) -> Result<Device<MemNand>, Memory>
    requires numbers { geometry_of media ≡ record { blocks = 32; pages = 32 } }
    requires erased { IsBlank (contents_of media) }
    ensures { IfOk result HasAddressed }
{
    match Device::start(alloc, media) {
        Started::Ready(mut device, _) => {
            device.retain(&PointerList::new(alloc));
            Ok(device)
        }
        other => {
            drop(other);
            Err(Memory)
        }
    }
}

/// A device of a blank medium.
pub fn fresh(
    alloc: Global,
    reads: FailList,
    writes: FailList,
    stop: Option<Stop>,
) -> Result<Rig, Memory> {
    let buf = PageBuf::new(alloc)?;
    let media = blank(alloc, reads, writes, stop)?;
    let device = started(alloc, media)?;
    Ok(Rig { device, buf })
}

fn named(answer: Named) -> Seen {
    match answer {
        Named::Placed(at) => Seen::At(at.name, at.stamp),
        Named::NotLive => Seen::NotLive,
        Named::NoPage => Seen::NoPage,
        Named::Fault => Seen::Fault,
    }
}

fn yes(is: bool) -> Seen {
    if is { Seen::Yes } else { Seen::No }
}

impl Rig {
    fn write(&mut self, byte: u8) -> Seen {
        if self.device.next_stamp() > 1_000_000 {
            return Seen::Worn;
        }
        self.buf.clear();
        self.buf.set_main(0, &[byte]);
        named(self.device.nameless_write(TAG, &self.buf))
    }

    /// Writes so many pages; how many were placed.
    fn writes(&mut self, count: u32) -> Seen {
        let mut placed = 0u64;
        for n in 0..count {
            if let Seen::At(_, _) = self.write((n % 256) as u8) {
                placed = placed.saturating_add(1);
            }
        }
        Seen::Number(placed)
    }

    /// Block 8 is written whole, and one page of block 9; of block 8 only pages 258 and 270 stay live.
    pub fn make(&mut self) {
        self.writes(33);
        for n in 0..32u32 {
            if n != 2 && n != 14 {
                self.free(Pointer {
                    name: 256 + n,
                    stamp: u64::from(n) + 1,
                });
            }
        }
    }

    fn replace(&mut self, old: Pointer, byte: u8) -> Seen {
        if self.device.next_stamp() > 1_000_000 {
            return Seen::Worn;
        }
        self.buf.clear();
        self.buf.set_main(0, &[byte]);
        named(self.device.nameless_overwrite(old, TAG, &self.buf))
    }

    fn read(&mut self, at: Pointer, tag: Tag) -> Seen {
        match self.device.physical_read(at, tag, &mut self.buf) {
            NamedRead::Done => Seen::Byte(self.buf.main()[0]),
            NamedRead::NotLive => Seen::NotLive,
            NamedRead::Lost { .. } => Seen::Lost,
            NamedRead::Fault => Seen::Fault,
        }
    }

    fn is_live(&self, at: Pointer) -> bool {
        self.device.is_live(at)
    }

    fn free(&mut self, at: Pointer) -> bool {
        self.device.free(at)
    }

    fn resolve(&self, name: u32) -> Seen {
        Seen::Number(u64::from(self.device.resolve(name)))
    }

    /// Moves a page, while a block is Free.
    pub fn copy(&mut self) -> Seen {
        if self.device.free_blocks() == 0 {
            return Seen::No;
        }
        match self.device.copy() {
            Copying::Did => Seen::Did,
            Copying::Nothing => Seen::Nothing,
            Copying::Lost { .. } => Seen::Lost,
            Copying::Fault => Seen::Fault,
        }
    }

    fn copies(&mut self, count: u32) -> Seen {
        let mut done = 0u64;
        for _ in 0..count {
            if self.copy() == Seen::Did {
                done = done.saturating_add(1);
            }
        }
        Seen::Number(done)
    }

    /// Whether the block of the victim was erased, there was none to erase, or the erase failed.
    pub fn erase(&mut self) -> Seen {
        match self.device.erase() {
            Erasing::Done => Seen::Did,
            Erasing::Nothing => Seen::Nothing,
            Erasing::Fault => Seen::Fault,
        }
    }

    fn level(&mut self) -> bool {
        self.device.level()
    }

    fn callback(&self, number: u64) -> Seen {
        match self.device.callback(number) {
            None => Seen::No,
            Some(callback) => {
                if callback.number == number && callback.tag == TAG {
                    Seen::Moved(callback.before, callback.after, callback.stamp)
                } else {
                    Seen::Lost
                }
            }
        }
    }

    fn handled(&mut self, number: u64, transaction: u64) -> bool {
        self.device.handled(number, transaction)
    }

    /// Whether each was pending.
    fn handled_to(&mut self, last: u64, transaction: u64) -> bool {
        for number in 1..last.saturating_add(1) {
            if !self.handled(number, transaction) {
                return false;
            }
        }
        true
    }

    /// Whether each block was written and cleaned.
    fn wear(&mut self, count: u32) -> bool {
        for _ in 0..count {
            if !self.wear_one() {
                return false;
            }
        }
        true
    }

    fn wear_one(&mut self) -> bool {
        for _ in 0..32u32 {
            match self.write(1) {
                Seen::At(name, stamp) => {
                    self.free(Pointer { name, stamp });
                }
                _ => return false,
            }
        }
        self.copy() == Seen::Did && self.erase() == Seen::Did
    }

    fn acknowledge(&mut self, upto: u64) {
        self.device.acknowledge(upto);
    }

    fn least(&self) -> Seen {
        match self.device.least() {
            Some(number) => Seen::Number(number),
            None => Seen::No,
        }
    }

    fn posted(&self) -> u64 {
        self.device.posted()
    }

    fn pairs(&self) -> u64 {
        u64::from(self.device.pairs())
    }

    fn free_blocks(&self) -> u64 {
        u64::from(self.device.free_blocks())
    }

    fn next_stamp(&self) -> u64 {
        self.device.next_stamp()
    }

    fn counts(&self) -> Seen {
        Seen::Counts(
            self.device.clock(),
            self.device.read_faults(),
            self.device.write_faults(),
        )
    }

    fn step(&mut self, step: Step) -> Seen {
        match step {
            Step::Make => {
                self.make();
                Seen::Did
            }
            Step::Write(byte) => self.write(byte),
            Step::Writes(count) => self.writes(count),
            Step::Replace(name, stamp, byte) => self.replace(Pointer { name, stamp }, byte),
            Step::Read(name, stamp) => self.read(Pointer { name, stamp }, TAG),
            Step::ReadOther(name, stamp) => self.read(Pointer { name, stamp }, OTHER),
            Step::IsLive(name, stamp) => yes(self.is_live(Pointer { name, stamp })),
            Step::Free(name, stamp) => yes(self.free(Pointer { name, stamp })),
            Step::Resolve(name) => self.resolve(name),
            Step::Copy => self.copy(),
            Step::Copies(count) => self.copies(count),
            Step::Erase => self.erase(),
            Step::Level => yes(self.level()),
            Step::Callback(number) => self.callback(number),
            Step::Handled(number, transaction) => yes(self.handled(number, transaction)),
            Step::HandledTo(last, transaction) => yes(self.handled_to(last, transaction)),
            Step::Wear(count) => yes(self.wear(count)),
            Step::Acknowledge(upto) => {
                self.acknowledge(upto);
                Seen::Did
            }
            Step::Least => self.least(),
            Step::Posted => Seen::Number(self.posted()),
            Step::Pairs => Seen::Number(self.pairs()),
            Step::FreeBlocks => Seen::Number(self.free_blocks()),
            Step::NextStamp => Seen::Number(self.next_stamp()),
            Step::Counts => self.counts(),
        }
    }

    /// The first row whose call answers something else.
    pub fn differs(&mut self, table: &[(Step, Seen)]) -> Option<usize> {
        for row in 0..table.len() {
            let (step, want) = table[row];
            if self.step(step) != want {
                return Some(row);
            }
        }
        None
    }

    /// The device's medium after a restart.
    pub fn restarted(self) -> MemNand {
        let Rig { device, buf: _ } = self;
        device.into_media().restart(None)
    }
}

/// The first row that a device of a blank medium answers otherwise; the read and the programs or erases of these numbers fail, zero for
/// none.
pub fn differs(
    alloc: Global,
    read: u64,
    writes: (u64, u64),
    table: &[(Step, Seen)],
) -> Result<Option<usize>, Memory> {
    let reads = failing(alloc, read, 0)?;
    let writes = failing(alloc, writes.0, writes.1)?;
    let mut rig = fresh(alloc, reads, writes, None)?;
    let row = rig.differs(table);
    drop(rig);
    Ok(row)
}

const NAMES: [(Step, Seen); 29] = [
    (Step::NextStamp, Seen::Number(1)),
    (Step::FreeBlocks, Seen::Number(24)),
    (Step::IsLive(256, 1), Seen::No),
    (Step::Write(97), Seen::At(256, 1)),
    (Step::IsLive(256, 1), Seen::Yes),
    (Step::IsLive(256, 2), Seen::No),
    (Step::IsLive(257, 1), Seen::No),
    (Step::IsLive(4_000_000_000, 1), Seen::No),
    (Step::Read(256, 1), Seen::Byte(97)),
    (Step::ReadOther(256, 1), Seen::Lost),
    (Step::Read(256, 2), Seen::NotLive),
    (Step::Replace(256, 2, 98), Seen::NotLive),
    (Step::Replace(256, 1, 98), Seen::At(257, 2)),
    (Step::Read(256, 1), Seen::NotLive),
    (Step::Read(257, 2), Seen::Byte(98)),
    (Step::Resolve(257), Seen::Number(257)),
    (Step::Free(257, 2), Seen::Yes),
    (Step::Free(257, 2), Seen::No),
    (Step::Writes(1000), Seen::Number(734)),
    (Step::FreeBlocks, Seen::Number(1)),
    (Step::NextStamp, Seen::Number(737)),
    // No page was moved, so no callback is pending.
    (Step::Posted, Seen::Number(0)),
    (Step::Pairs, Seen::Number(0)),
    (Step::Least, Seen::No),
    (Step::Callback(1), Seen::No),
    (Step::Handled(1, 1), Seen::No),
    (Step::Acknowledge(1), Seen::Did),
    (Step::Posted, Seen::Number(0)),
    (Step::Counts, Seen::Counts(736, 0, 0)),
];

const FAILURES: [(Step, Seen); 7] = [
    (Step::Write(97), Seen::At(256, 1)),
    (Step::Replace(256, 1, 98), Seen::Fault),
    (Step::Read(256, 1), Seen::Fault),
    (Step::Read(256, 1), Seen::Byte(97)),
    (Step::Replace(256, 1, 98), Seen::At(258, 3)),
    (Step::Read(258, 3), Seen::Byte(98)),
    (Step::Counts, Seen::Counts(2, 1, 1)),
];

// The physical segment has the pages from 256 on. 24 blocks of 32 pages, one of them kept for the cleaner, have room for 736.
#[test]
fn pages_have_names(rt: HostRuntime) {
    assert_none_differs(&rt, differs(rt.alloc(), 0, (0, 0), &NAMES));
}

// The first read after the scan fails, and the second program, which takes its number.
#[test]
fn calls_fail(rt: HostRuntime) {
    assert_none_differs(&rt, differs(rt.alloc(), 1025, (2, 0), &FAILURES));
}

/// A call with an address.
#[derive(Clone, Copy)]
enum AtAddress {
    Write(u8),
    Read,
}

/// Whether the address has a page that begins with this byte then.
fn write_at(device: &mut Device<MemNand>, buf: &mut PageBuf, vaddr: u32, byte: u8) -> bool
    requires device { HasAddressed device.old }
    requires within { vaddr < 103 }
    ensures { IsTrue result → HasAddressed device.new }
{
    if device.next_stamp() > 10_000 {
        return false;
    }
    buf.clear();
    buf.set_main(0, &[byte]);
    matches!(device.virtual_write(vaddr, buf), VirtualWrite::Done)
}

fn read_at(device: &mut Device<MemNand>, buf: &mut PageBuf, vaddr: u32) -> Seen
    requires device { HasAddressed device.old }
    requires within { vaddr < 103 }
    ensures { HasAddressed device.new }
{
    match device.virtual_read(vaddr, buf) {
        VirtualRead::Done => Seen::Byte(buf.main()[0]),
        VirtualRead::Unmapped => Seen::Unmapped,
        VirtualRead::Lost { .. } => Seen::Lost,
        VirtualRead::Fault => Seen::Fault,
    }
}

/// Whether a write is done, or a read answers so.
fn answers_so(
    device: &mut Device<MemNand>,
    buf: &mut PageBuf,
    vaddr: u32,
    call: AtAddress,
    want: Seen,
) -> bool
    requires device { HasAddressed device.old }
    requires within { vaddr < 103 }
    ensures { IsTrue result → HasAddressed device.new }
{
    match call {
        AtAddress::Write(byte) => write_at(device, buf, vaddr, byte) && want == Seen::Did,
        AtAddress::Read => read_at(device, buf, vaddr) == want,
    }
}

/// The first row that is answered otherwise.
fn differs_at(
    device: &mut Device<MemNand>,
    buf: &mut PageBuf,
    table: &[(u32, AtAddress, Seen)],
) -> Option<usize>
    requires { HasAddressed device.old }
{
    for row in 0..table.len() {
        let (vaddr, call, want) = table[row];
        if vaddr >= 103 || !answers_so(device, buf, vaddr, call, want) {
            return Some(row);
        }
    }
    None
}

const ADDRESSED: [(u32, AtAddress, Seen); 8] = [
    (0, AtAddress::Read, Seen::Unmapped),
    (0, AtAddress::Write(97), Seen::Did),
    (0, AtAddress::Read, Seen::Byte(97)),
    (102, AtAddress::Read, Seen::Unmapped),
    (102, AtAddress::Write(98), Seen::Did),
    (0, AtAddress::Write(99), Seen::Did),
    (0, AtAddress::Read, Seen::Byte(99)),
    (102, AtAddress::Read, Seen::Byte(98)),
];

/// The first row that a device of a blank medium answers otherwise, and its next stamp.
fn addressed(alloc: Global) -> Result<(Option<usize>, u64), Memory> {
    let mut buf = PageBuf::new(alloc)?;
    let media = blank(alloc, FailList::new(alloc), FailList::new(alloc), None)?;
    let mut device = started(alloc, media)?;
    let row = differs_at(&mut device, &mut buf, &ADDRESSED);
    let next = device.next_stamp();
    drop(device);
    Ok((row, next))
}

// The least volume has 103 addresses. A write takes the next number, as a page under a name does.
#[test]
fn addresses_have_pages(rt: HostRuntime) {
    assert!(rt; addressed(rt.alloc()) == Ok((None, 4)));
}
