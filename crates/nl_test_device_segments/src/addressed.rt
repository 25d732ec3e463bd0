// Pages of a segment by their addresses.
ghost use Rattle.std.specs.Prelude.{◌≡◌};
ghost use Rattle.nl_nand.specs.Memory.{geometry_of};

use crate::medium::{blank, failing, least};
use nl_field::{FailList, Memory, PageBuf, SpareRec, VirtualRead, VirtualWrite, spare_of};
use nl_nand::{Cut, MemNand, Nand, ReadAnswer, Stop};
use nl_vseg::VSeg;
use std::alloc::Global;
use std::marker::Model;

/// A call: a write of an address and a byte under a number, or so many writes.
#[derive(Clone, Copy)]
enum Step {
    Write(u32, u8, u32),
    Read(u32),
    Fill(u32),
    /// So many writes of 50 addresses in turn, each read back.
    Overwrite(u32),
    Counts,
}

/// What a call answered, with the first byte that a read found.
#[derive(Clone, Copy, PartialEq)]
enum Seen {
    Wrote,
    Byte(u8),
    /// The number of the first write that is not done, or reads otherwise.
    Filled(u32),
    /// Programs and erases that finished, failed reads, and failed programs and erases.
    Counts(u64, u64, u64),
    Unmapped,
    Fault,
    Lost,
}

/// A segment of 103 addresses in 8 blocks, on a medium of 32 blocks of 32 pages.
#[derive(Drop)]
struct Rig {
    seg: VSeg,
    media: MemNand,
    buf: PageBuf,
}

impl Model for Rig {
    ghost use Rattle.nl_test_device_segments.specs.Rigs.{HasAddresses};
    ghost use Rattle.nl_nand.specs.Memory.{contents_of, geometry_of};

    ghost Value = { Unit {0} };

    ghost view = { λ r. tt };

    ghost invariant = { λ r. HasAddresses (geometry_of r.media) (contents_of r.media) r.seg };
}

/// A medium after a stop.
#[derive(Drop)]
struct Left {
    media: MemNand,
    buf: PageBuf,
    ghost numbers: { geometry_of media ≡ record { blocks = 32; pages = 32 } },
}

/// A blank medium with a new segment.
fn fresh(
    alloc: Global,
    reads: FailList,
    writes: FailList,
    stop: Option<Stop>,
) -> Result<Rig, Memory> {
    let shape = least()?;
    let buf = PageBuf::new(alloc)?;
    let seg = VSeg::new(alloc, &shape)?;
    let media = blank(alloc, reads, writes, stop)?;
    Ok(Rig { seg, media, buf })
}

impl Rig {
    fn write(&mut self, vaddr: u32, byte: u8, stamp: u32) -> Seen {
        self.buf.clear();
        self.buf.set_main(0, &[byte]);
        let stamp = u64::from(stamp) + 1;
        match self
            .seg
            .virtual_write(&mut self.media, vaddr % 103, &self.buf, stamp)
        {
            VirtualWrite::Done => Seen::Wrote,
            VirtualWrite::Lost { .. } => Seen::Lost,
            VirtualWrite::Fault => Seen::Fault,
        }
    }

    fn read(&mut self, vaddr: u32) -> Seen {
        match self
            .seg
            .virtual_read(&mut self.media, vaddr % 103, &mut self.buf)
        {
            VirtualRead::Done => Seen::Byte(self.buf.main()[0]),
            VirtualRead::Unmapped => Seen::Unmapped,
            VirtualRead::Lost { .. } => Seen::Lost,
            VirtualRead::Fault => Seen::Fault,
        }
    }

    /// So many writes, each of the byte of its number; the number of the first one that is not done.
    fn fill(&mut self, count: u32) -> u32 {
        for number in 0..count {
            if self.write(address(number), (number % 251) as u8, number) != Seen::Wrote {
                return number;
            }
        }
        count
    }

    fn counts(&self) -> Seen {
        Seen::Counts(
            self.media.clock(),
            self.media.read_faults(),
            self.media.write_faults(),
        )
    }

    fn restart(self) -> Left {
        let Rig { seg: _, media, buf } = self;
        Left {
            media: media.restart(None),
            buf,
        }
    }
}

impl Left {
    /// The byte of the readable page of greatest number of an address, in the first 256 pages; None where there is none.
    fn newest(&mut self, vaddr: u32) -> Option<u8> {
        let mut best = 0;
        let mut byte = None;
        for page in 0..256 {
            if let Some((stamp, found)) = self.page(page, vaddr)
                && best < stamp
            {
                best = stamp;
                byte = Some(found);
            }
        }
        byte
    }

    /// The number and the first byte of a page, where it is one of this address.
    fn page(&mut self, page: u32, vaddr: u32) -> Option<(u64, u8)> {
        if self.media.read(page % 1024, &mut self.buf) != ReadAnswer::Written {
            return None;
        }
        match spare_of(self.buf.spare()) {
            Some(
                SpareRec::Virtual {
                    vaddr: v,
                    stamp,
                    ..
                },
            ) => {
                if v == vaddr {
                    Some((stamp, self.buf.main()[0]))
                } else {
                    None
                }
            }
            _ => None,
        }
    }
}

/// The address of the write of this number: all 103, then all but six, then the first ones.
fn address(number: u32) -> u32 {
    if number < 103 {
        number
    } else if number < 200 {
        let n = number - 103;
        n + n / 30 * 2
    } else {
        number - 200
    }
}

impl Rig {
    fn step(&mut self, step: Step) -> Seen {
        match step {
            Step::Write(vaddr, byte, stamp) => self.write(vaddr, byte, stamp),
            Step::Read(vaddr) => self.read(vaddr),
            Step::Fill(count) => Seen::Filled(self.fill(count)),
            Step::Overwrite(count) => Seen::Filled(self.overwrite(count)),
            Step::Counts => self.counts(),
        }
    }

    /// The first row whose call answers something else.
    fn differs(&mut self, table: &[(Step, Seen)]) -> Option<usize> {
        for row in 0..table.len() {
            let (step, want) = table[row];
            if self.step(step) != want {
                return Some(row);
            }
        }
        None
    }

    fn overwrite(&mut self, count: u32) -> u32 {
        for round in 0..count {
            let vaddr = round % 50 * 7 % 50;
            let byte = (round % 251) as u8;
            if self.write(vaddr, byte, 225 + round % 10_000) != Seen::Wrote {
                return round;
            }
            if self.read(vaddr) != Seen::Byte(byte) {
                return round;
            }
        }
        count
    }
}

// 224 pages are programmed before a block is cleaned. The next write copies one page, erases a block, and programs.
const OVER_AND_OVER: [(Step, Seen); 13] = [
    (Step::Read(5), Seen::Unmapped),
    (Step::Fill(224), Seen::Filled(224)),
    (Step::Counts, Seen::Counts(224, 0, 0)),
    (Step::Write(30, 7, 224), Seen::Wrote),
    (Step::Counts, Seen::Counts(227, 0, 0)),
    (Step::Read(30), Seen::Byte(7)),
    (Step::Read(31), Seen::Byte(31)),
    (Step::Read(24), Seen::Byte(127)),
    (Step::Read(23), Seen::Byte(223)),
    (Step::Overwrite(600), Seen::Filled(600)),
    (Step::Read(62), Seen::Byte(62)),
    (Step::Read(94), Seen::Byte(94)),
    (Step::Read(102), Seen::Byte(199)),
];

const FAILURES: [(Step, Seen); 13] = [
    (Step::Fill(224), Seen::Filled(224)),
    (Step::Read(30), Seen::Byte(30)),
    // the read of the page to be copied
    (Step::Write(30, 7, 224), Seen::Fault),
    (Step::Counts, Seen::Counts(224, 1, 0)),
    (Step::Read(30), Seen::Byte(30)),
    // the program of the copy, after the target was erased
    (Step::Write(30, 7, 224), Seen::Fault),
    (Step::Counts, Seen::Counts(225, 1, 1)),
    (Step::Read(30), Seen::Byte(30)),
    (Step::Write(30, 7, 224), Seen::Wrote),
    (Step::Read(30), Seen::Byte(7)),
    (Step::Read(31), Seen::Byte(31)),
    (Step::Read(24), Seen::Byte(127)),
    (Step::Read(23), Seen::Byte(223)),
];

/// The first row that a new segment answers otherwise; the read and the program or erase of these numbers fail, zero for none.
fn differs(
    alloc: Global,
    read: u64,
    write: u64,
    table: &[(Step, Seen)],
) -> Result<Option<usize>, Memory> {
    let reads = failing(alloc, read, 0)?;
    let writes = failing(alloc, write, 0)?;
    let mut rig = fresh(alloc, reads, writes, None)?;
    let differs = rig.differs(table);
    drop(rig);
    Ok(differs)
}

#[test]
fn pages_are_written_over_and_over(rt: HostRuntime) {
    assert!(rt; differs(rt.alloc(), 0, 0, &OVER_AND_OVER) == Ok(None));
}

// A read and a program of a cleaning fail.
#[test]
fn calls_fail(rt: HostRuntime) {
    assert!(rt; differs(rt.alloc(), 2, 226, &FAILURES) == Ok(None));
}

impl Left {
    /// Whether each address has its page after a stop within this operation; the address that was written may have its new page once that
    /// is programmed.
    fn stands(&mut self, operation: u64) -> bool {
        match self.newest(30) {
            Some(30) => self.has_rows(),
            Some(7) => operation == 227 && self.has_rows(),
            _ => false,
        }
    }

    /// Whether the newest page of each of these addresses begins with the byte beside it.
    fn has_rows(&mut self) -> bool {
        for row in 0..STANDS.len() {
            let (vaddr, byte) = STANDS[row];
            if self.newest(vaddr) != Some(byte) {
                return false;
            }
        }
        true
    }
}

const STANDS: [(u32, u8); 6] = [
    (0, 200),
    (23, 223),
    (24, 127),
    (31, 31),
    (62, 62),
    (102, 199),
];

/// What a write that copies a page, erases a block and programs a page leaves that is stopped within one of these. None where it is not
/// stopped.
fn stopped(alloc: Global, operation: u64, cut: Cut) -> Result<Option<Left>, Memory> {
    let stop = Some(Stop { operation, cut });
    let mut rig = fresh(alloc, FailList::new(alloc), FailList::new(alloc), stop)?;
    if rig.is_stopped() {
        Ok(Some(rig.restart()))
    } else {
        drop(rig);
        Ok(None)
    }
}

impl Rig {
    fn is_stopped(&mut self) -> bool {
        self.fill(224) == 224 && self.write(30, 7, 224) == Seen::Fault
    }
}

const CUTS: [Cut; 5] = [
    Cut::Before,
    Cut::After,
    Cut::Spoilt,
    Cut::Mixed(4711),
    Cut::Mixed(1235346792567894),
];

fn stands_after(alloc: Global, operation: u64, cut: Cut) -> Result<bool, Memory> {
    match stopped(alloc, operation, cut)? {
        Some(left) => {
            let mut left = left;
            let stands = left.stands(operation);
            drop(left);
            Ok(stands)
        }
        None => Ok(false),
    }
}

/// The first operation and its cut after which an address does not have its page.
fn differs_after(alloc: Global) -> Result<Option<(u64, usize)>, Memory> {
    for operation in 225u64..228 {
        for row in 0..CUTS.len() {
            if !stands_after(alloc, operation, CUTS[row])? {
                return Ok(Some((operation, row)));
            }
        }
    }
    Ok(None)
}

// Such a write is stopped within each of its operations.
#[test]
fn a_write_is_stopped(rt: HostRuntime) {
    assert!(rt; differs_after(rt.alloc()) == Ok(None));
}
