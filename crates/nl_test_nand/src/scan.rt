// A scan of seventeen written pages, of such whose reads fail, and of media without pages.
ghost use Rattle.std.specs.Prelude.{◌≡◌};
ghost use Rattle.nl_nand.specs.Nand.{ErasedWithin};
ghost use Rattle.nl_nand.specs.Memory.{geometry_of, contents_of};

use crate::medium::{formed, program};
use nl_field::{FailList, PageBuf, SpareRec, Tag};
use nl_nand::{Cut, MemNand, Nand, Stop, WriteAnswer};
use nl_scan::{ScanTables, Scanned, Seen, scan};
use std::alloc::Global;

/// A page to be written: its record byte by byte, its first main bytes and its last one. And what a scan is to see of it, the
/// offset of its zeros and whether it agrees, where it is readable.
#[derive(Drop)]
struct Sample {
    page: u32,
    kind: u8,
    wear: u8,
    stamp: [u8; 8],
    numbers: [u8; 3],
    head: &'static [u8],
    last: u8,
    seen: Option<(u32, bool)>,
}

const ONE: [u8; 8] = [1, 0, 0, 0, 0, 0, 0, 0];

const TWO: [u8; 8] = [2, 0, 0, 0, 0, 0, 0, 0];

const THREE: [u8; 8] = [3, 0, 0, 0, 0, 0, 0, 0];

const GREATEST: [u8; 8] = [255, 255, 255, 255, 255, 255, 255, 127];

const TOO_GREAT: [u8; 8] = [0, 0, 0, 0, 0, 0, 0, 128];

const SUPER: &[u8] = b"NAMELESS\x01\0\0\0\x20\0\0\0\x20";

fn row(
    page: u32,
    kind: u8,
    wear: u8,
    stamp: [u8; 8],
    numbers: [u8; 3],
    head: &'static [u8],
    last: u8,
    seen: Option<(u32, bool)>,
) -> Sample {
    Sample {
        page,
        kind,
        wear,
        stamp,
        numbers,
        head,
        last,
        seen,
    }
}

// 32 blocks of 32 pages: 103 virtual addresses, and the physical segment from page 256 on.
fn rows() -> [Sample; 17] {
    let text = b"ab\0c".as_slice();
    [
        row(0, 1, 0, ONE, [67, 0, 0], text, 0, Some((4, true))),
        row(1, 1, 0, TWO, [0, 0, 0], b"junk", 0, Some((4, true))),
        // no record
        row(2, 3, 0, ONE, [67, 0, 0], text, 0, None),
        row(3, 1, 0, TOO_GREAT, [67, 0, 0], text, 0, None),
        // a copy, with other wear
        row(4, 1, 5, ONE, [67, 0, 0], text, 0, Some((4, true))),
        // other main bytes, and then one that equals the first but not that one
        row(5, 1, 0, ONE, [67, 0, 0], b"ab\0d", 0, Some((4, false))),
        row(6, 1, 0, ONE, [67, 0, 0], text, 0, Some((4, false))),
        // behind the last address
        row(7, 1, 0, ONE, [103, 0, 0], b"other", 0, Some((5, true))),
        // another record
        row(32, 1, 0, ONE, [68, 0, 0], text, 0, Some((4, false))),
        // a physical record in the virtual segment
        row(33, 2, 0, ONE, [1, 1, 0], b"", 0, Some((0, true))),
        row(256, 2, 0, ONE, [1, 1, 0], b"", 0, Some((0, true))),
        row(257, 2, 0, THREE, [1, 1, 0], b"x", 9, Some((4096, true))),
        row(288, 2, 7, THREE, [1, 1, 0], b"x", 9, Some((4096, true))),
        row(289, 2, 7, THREE, [1, 1, 1], b"x", 9, Some((4096, false))),
        // the super page is the least one of the greatest stamp, in either segment
        row(300, 1, 0, THREE, [0, 0, 0], SUPER, 0, Some((17, true))),
        row(301, 1, 0, THREE, [0, 0, 0], b"junk", 0, Some((4, true))),
        row(302, 2, 0, GREATEST, [2, 1, 0], b"", 0, Some((0, true))),
    ]
}

/// The record of a row.
fn record_of(row: &Sample) -> SpareRec {
    let stamp = u64::from_le_bytes(row.stamp);
    let wear = row.wear as u32;
    let [first, second, third] = row.numbers;
    if row.kind == 1 {
        return SpareRec::Virtual {
            vaddr: first as u32,
            stamp,
            wear,
        };
    }
    SpareRec::Physical {
        tag: Tag {
            ino: first as u32,
            generation: second as u32,
            index: third as u32,
        },
        stamp,
        wear,
    }
}

fn fill(row: &Sample, buf: &mut PageBuf) {
    let mut spare = [0u8; 64];
    spare[0] = row.kind;
    spare[4] = row.wear;
    spare[8..16].copy_from_slice(&row.stamp);
    spare[16] = row.numbers[0];
    spare[20] = row.numbers[1];
    spare[24] = row.numbers[2];
    buf.clear();
    buf.set_spare(&spare);
    if row.head.len() < 4096 {
        buf.set_main(0, row.head);
    }
    buf.set_main(4095, &[row.last]);
}

/// Writes the rows to a formed medium, and a page behind them. Whether they rise, and each is written.
fn write_rows(media: &mut MemNand, rows: &[Sample], buf: &mut PageBuf) -> bool
    requires geometry { geometry_of media.old ≡ record { blocks = 32; pages = 32 } }
    requires erased { ErasedWithin (contents_of media.old) 0 1024 }
{
    let mut next = 0;
    'rows: for row in rows {
        if row.page < next || row.page >= 1024 {
            return false;
        }
        fill(row, buf);
        if program(media, row.page, buf) != WriteAnswer::Done {
            return false;
        }
        next = row.page + 1;
    }
    if next <= 320 {
        let _ = program(media, 320, buf);
    }
    true
}

/// A medium with the rows, whose read of this number fails, where it is not 0, and that is stopped within the program behind the rows.
fn written(alloc: Global, rows: &[Sample], read: u64, stop: Option<Stop>) -> Option<MemNand> {
    let mut buf = PageBuf::new(alloc).ok()?;
    let mut reads = FailList::new(alloc);
    if 0 < read {
        reads.push(read).ok()?;
    }
    let mut media = formed(alloc, reads, FailList::new(alloc), stop)?;
    if write_rows(&mut media, rows, &mut buf) {
        Some(media)
    } else {
        None
    }
}

// Whether the page of a row is the one of this number that was seen.
fn is_seen(tables: &ScanTables, at: u32, row: &Sample, zeros: u32, agrees: bool) -> bool {
    let want = Seen {
        page: row.page,
        rec: record_of(row),
        zeros,
        agrees,
    };
    at < tables.len() && *tables.get(at) == want
}

// How many pages of the rows are readable. None where one of them is not the next that was seen.
fn seen(tables: &ScanTables, rows: &[Sample]) -> Option<u32> {
    let mut at = 0u32;
    for row in rows {
        if let Some((zeros, agrees)) = row.seen {
            if !is_seen(tables, at, row, zeros, agrees) {
                return None;
            }
            at = at.saturating_add(1);
        }
    }
    Some(at)
}

// Whether the blocks without a row are told as erased.
fn others_are_erased(tables: &ScanTables) -> bool {
    for block in 0..40 {
        let want = block < 32 && ![0, 1, 8, 9, 10].contains(&block);
        if tables.erased(block) != want {
            return false;
        }
    }
    true
}

fn are_rows(tables: &ScanTables, rows: &[Sample]) -> bool {
    seen(tables, rows) == Some(15)
        && tables.len() == 15
        && tables.next_stamp() == 1 << 63
        && tables.super_version() == 1
        && others_are_erased(tables)
}

// Whether a scan sees exactly the readable pages of the rows.
fn sees_rows(alloc: Global, rows: &[Sample], media: &mut MemNand) -> bool {
    match scan(alloc, media) {
        Scanned::Tables(tables) => {
            let all = are_rows(&tables, rows);
            drop(tables);
            all && media.read_faults() == 0
        }
        other => {
            drop(other);
            false
        }
    }
}

fn sees_rows_after_a_stop(alloc: Global, stop: Stop) -> Option<bool> {
    let rows = rows();
    let mut media = written(alloc, &rows, 0, Some(stop))?.restart(None);
    Some(sees_rows(alloc, &rows, &mut media))
}

#[test]
fn exactly_the_readable_pages(rt: HostRuntime) {
    let stop = Stop {
        operation: 18,
        cut: Cut::Spoilt,
    };
    assert!(rt; sees_rows_after_a_stop(rt.alloc(), stop) == Some(true));
}

// How many pages a scan sees, the next stamp, the version of the super record, and whether the last block is erased.
fn told(alloc: Global, media: &mut MemNand) -> Option<(u32, u64, u32, bool)> {
    match scan(alloc, media) {
        Scanned::Tables(tables) => {
            let told = (
                tables.len(),
                tables.next_stamp(),
                tables.super_version(),
                tables.erased(31),
            );
            drop(tables);
            Some(told)
        }
        other => {
            drop(other);
            None
        }
    }
}

fn is_faulty(alloc: Global, media: &mut MemNand) -> bool {
    match scan(alloc, media) {
        Scanned::Fault => true,
        other => {
            drop(other);
            false
        }
    }
}

// Whether a first scan is a fault where it is to be one, and the next one sees all.
fn sees_all(alloc: Global, media: &mut MemNand, fails: bool) -> bool {
    let faulty = !fails || is_faulty(alloc, media);
    let faults = media.read_faults();
    faulty
        && faults == u64::from(fails)
        && told(alloc, media) == Some((16, 1 << 63, 1, true))
        && media.read_faults() == faults
}

// Over a medium whose read of this number fails.
fn read_may_fail(alloc: Global, rows: &[Sample], read: u64, fails: bool) -> bool {
    match written(alloc, rows, read, None) {
        Some(media) => {
            let mut media = media;
            let all = sees_all(alloc, &mut media, fails);
            drop(media);
            all
        }
        None => false,
    }
}

const READS: [u64; 16] = [
    1, 2, 5, 6, 7, 8, 9, 10, 11, 37, 294, 296, 328, 329, 1030, 1031,
];

// The first of these reads whose failure is not told, or that of a scan with no failure; 0 where all are told.
fn untold(alloc: Global) -> u64 {
    let rows = rows();
    for read in READS {
        if !read_may_fail(alloc, &rows, read, true) {
            return read;
        }
    }
    if read_may_fail(alloc, &rows, 1032, false) {
        0
    } else {
        1032
    }
}

// 1024 pages are read, and seven of them are compared with a first one that is read again: pages 4, 5, 6, 32, 288, 289 and
// 320, by the reads 6, 8, 10, 37, 294, 296 and 328.
#[test]
fn each_read_may_fail(rt: HostRuntime) {
    assert_eq!(rt; untold(rt.alloc()), 0);
}

fn told_of_blank(alloc: Global) -> Option<(u32, u64, u32, bool)> {
    let mut media = formed(alloc, FailList::new(alloc), FailList::new(alloc), None)?;
    told(alloc, &mut media)
}

#[test]
fn no_readable_page(rt: HostRuntime) {
    assert!(rt; told_of_blank(rt.alloc()) == Some((0, 1, 0, true)));
}

fn told_of_unformed(alloc: Global) -> Option<(u32, u64, u32, bool)> {
    let mut media = MemNand::new(alloc, FailList::new(alloc), FailList::new(alloc), None);
    told(alloc, &mut media)
}

#[test]
fn no_block(rt: HostRuntime) {
    assert!(rt; told_of_unformed(rt.alloc()) == Some((0, 1, 0, false)));
}
