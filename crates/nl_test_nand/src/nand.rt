// A medium in memory: stops within its operations, and calls that fail by its lists.
ghost use Rattle.std.specs.Prelude.{◌≡◌, ◌+◌, ◌<◌, IfSome};
ghost use Rattle.nl_nand.specs.Nand.{ErasedWithin};
ghost use Rattle.nl_nand.specs.Memory.{geometry_of, contents_of};

use crate::medium::{formed, program};
use nl_field::{FailList, PageBuf};
use nl_nand::{Cut, FormAnswer, MemNand, Nand, ReadAnswer, Stop, WriteAnswer};
use std::alloc::Global;

/// A medium that stops within an operation, and fails nowhere else.
fn stopping(alloc: Global, operation: u64, cut: Cut) -> Option<MemNand>
    ensures geometry { IfSome result (λ m. geometry_of m ≡ record { blocks = 32; pages = 32 }) }
    ensures erased { IfSome result (λ m. ErasedWithin (contents_of m) 0 1024) }
{
    formed(
        alloc,
        FailList::new(alloc),
        FailList::new(alloc),
        Some(Stop { operation, cut }),
    )
}

/// Programs a page that has this byte at its start and at its end.
fn put(media: &mut MemNand, page: u32, byte: u8, buf: &mut PageBuf) -> WriteAnswer
    requires within { page < 1024 }
    requires geometry { geometry_of media.old ≡ record { blocks = 32; pages = 32 } }
    requires erased { ErasedWithin (contents_of media.old) page 1024 }
    ensures geometry { geometry_of media.new ≡ record { blocks = 32; pages = 32 } }
    ensures erased { ErasedWithin (contents_of media.new) (page + 1) 1024 }
{
    buf.clear();
    buf.set_main(0, &[byte]);
    buf.set_spare(&[byte; 64]);
    program(media, page, buf)
}

/// What a read of a page answers, as a letter, or the byte of a written page.
fn seen(media: &mut MemNand, page: u32, buf: &mut PageBuf) -> u8
    requires within { page < 1024 }
    requires geometry { geometry_of media.old ≡ record { blocks = 32; pages = 32 } }
    ensures geometry { geometry_of media.new ≡ record { blocks = 32; pages = 32 } }
    ensures contents { contents_of media.new ≡ contents_of media.old }
{
    match media.read(page, buf) {
        ReadAnswer::Erased => b'E',
        ReadAnswer::Uncorrectable => b'U',
        ReadAnswer::Failed => b'F',
        ReadAnswer::Written => {
            let byte = buf.spare()[63];
            if buf.main()[0] == byte { byte } else { b'?' }
        }
    }
}

/// What a program or an erase answers, as a letter.
fn letter(answer: WriteAnswer) -> u8 {
    match answer {
        WriteAnswer::Done => b'D',
        WriteAnswer::Failed => b'F',
    }
}

fn erase(media: &mut MemNand) -> u8
    requires { geometry_of media.old ≡ record { blocks = 32; pages = 32 } }
    ensures { geometry_of media.new ≡ record { blocks = 32; pages = 32 } }
{
    letter(media.erase(0))
}

fn form(media: &mut MemNand) -> u8
    requires { geometry_of media.old ≡ record { blocks = 32; pages = 32 } }
    ensures { geometry_of media.new ≡ record { blocks = 32; pages = 32 } }
{
    match media.form(32, 32) {
        FormAnswer::Done => b'D',
        FormAnswer::Failed => b'F',
        FormAnswer::Memory => b'M',
    }
}

/// The programs of pages 0 and 1 with the letters a and b.
fn put_two(media: &mut MemNand, buf: &mut PageBuf) -> [u8; 2]
    requires geometry { geometry_of media.old ≡ record { blocks = 32; pages = 32 } }
    requires erased { ErasedWithin (contents_of media.old) 0 1024 }
    ensures geometry { geometry_of media.new ≡ record { blocks = 32; pages = 32 } }
    ensures erased { ErasedWithin (contents_of media.new) 2 1024 }
{
    let first = letter(put(media, 0, b'a', buf));
    let second = letter(put(media, 1, b'b', buf));
    [first, second]
}

fn pages(media: &mut MemNand, buf: &mut PageBuf) -> [u8; 5]
    requires { geometry_of media.old ≡ record { blocks = 32; pages = 32 } }
{
    let first = seen(media, 0, buf);
    let second = seen(media, 1, buf);
    let third = seen(media, 2, buf);
    let last = seen(media, 31, buf);
    [first, second, third, last, seen(media, 32, buf)]
}

/// Operations that finished, failed reads, and failed operations.
fn counts(media: &MemNand) -> [u64; 3] {
    [media.clock(), media.read_faults(), media.write_faults()]
}

/// What the calls answer, the counts behind them, the counts of the medium after a restart, and its pages 0, 1, 2, 31 and 32.
type Left = ([u8; 6], [u64; 3], [u64; 3], [u8; 5]);

/// Three programs, an erase, a read and a forming.
fn calls(media: &mut MemNand, buf: &mut PageBuf) -> [u8; 6]
    requires geometry { geometry_of media.old ≡ record { blocks = 32; pages = 32 } }
    requires erased { ErasedWithin (contents_of media.old) 0 1024 }
    ensures { geometry_of media.new ≡ record { blocks = 32; pages = 32 } }
{
    let [first, second] = put_two(media, buf);
    let third = letter(put(media, 32, b'c', buf));
    let erased = erase(media);
    let read = seen(media, 0, buf);
    [first, second, third, erased, read, form(media)]
}

/// What a stop within this operation leaves.
fn left(alloc: Global, operation: u64, cut: Cut) -> Option<Left> {
    let mut buf = PageBuf::new(alloc).ok()?;
    let mut media = stopping(alloc, operation, cut)?;
    media.reserve(3).ok()?;
    let calls = calls(&mut media, &mut buf);
    let before = counts(&media);
    let mut media = media.restart(None);
    Some((calls, before, counts(&media), pages(&mut media, &mut buf)))
}

/// The first row with other pages, or other calls and counts than these.
fn differs(
    alloc: Global,
    operation: u64,
    calls: [u8; 6],
    counts: [u64; 3],
    table: &[(Cut, [u8; 5])],
) -> Option<usize> {
    for row in 0..table.len() {
        let (cut, pages) = table[row];
        if left(alloc, operation, cut) != Some((calls, counts, [0, 0, 0], pages)) {
            return Some(row);
        }
    }
    None
}

const SECOND_PROGRAM: [(Cut, [u8; 5]); 6] = [
    (Cut::Before, *b"aEEEE"),
    (Cut::After, *b"abEEE"),
    (Cut::Spoilt, *b"aUEEE"),
    (Cut::Mixed(0), *b"aEEEE"),
    (Cut::Mixed(4), *b"abEEE"),
    (Cut::Mixed(5), *b"aUEEE"),
];

#[test]
fn a_stop_within_a_program(rt: HostRuntime) {
    assert_eq!(rt;
        differs(rt.alloc(), 2, *b"DFFFFF", [1, 1, 4], &SECOND_PROGRAM),
        None
    );
}

const ERASE: [(Cut, [u8; 5]); 6] = [
    (Cut::Before, *b"abEEc"),
    (Cut::After, *b"EEEEc"),
    (Cut::Spoilt, *b"UUUUc"),
    (Cut::Mixed(7), *b"EUEEc"),
    (Cut::Mixed(11), *b"UbEEc"),
    (Cut::Mixed(1235346792567894), *b"abEUc"),
];

#[test]
fn a_stop_within_an_erase(rt: HostRuntime) {
    assert_eq!(rt; differs(rt.alloc(), 4, *b"DDDFFF", [3, 1, 2], &ERASE), None);
}

/// Two programs, an erase, three reads, an erase and a read.
fn failing_calls(media: &mut MemNand, buf: &mut PageBuf) -> [u8; 8]
    requires geometry { geometry_of media.old ≡ record { blocks = 32; pages = 32 } }
    requires erased { ErasedWithin (contents_of media.old) 0 1024 }
{
    let [first, second] = put_two(media, buf);
    let erased = erase(media);
    let one = seen(media, 0, buf);
    let two = seen(media, 0, buf);
    let three = seen(media, 1, buf);
    let again = erase(media);
    [
        first,
        second,
        erased,
        one,
        two,
        three,
        again,
        seen(media, 0, buf),
    ]
}

/// The calls of these numbers fail.
fn failing(alloc: Global, first: u64, more: u64) -> Option<FailList>
    requires { 0 < first }
{
    let mut list = FailList::new(alloc);
    list.push(first).ok()?;
    if first < more {
        list.push(more).ok()?;
    }
    Some(list)
}

/// What the calls answer where the second read fails, and the second and third operation, and the counts.
fn failed(alloc: Global) -> Option<([u8; 8], [u64; 3])> {
    let mut buf = PageBuf::new(alloc).ok()?;
    let mut media = formed(alloc, failing(alloc, 2, 0)?, failing(alloc, 2, 3)?, None)?;
    let calls = failing_calls(&mut media, &mut buf);
    Some((calls, counts(&media)))
}

#[test]
fn calls_that_fail_by_the_lists(rt: HostRuntime) {
    assert_eq!(rt; failed(rt.alloc()), Some((*b"DFFaFEDE", [2, 1, 2])));
}
