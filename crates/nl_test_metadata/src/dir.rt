// Rows of calls on a directory, with the bytes of its entries at the borders of pages.
ghost use Rattle.std.specs.Prelude.{◌≡◌, ◌<◌, ◌≤◌, ℕ, length};
ghost use Rattle.nl_meta.specs.Pages.{no_pages, page_of};
ghost use Rattle.nl_dir.specs.Directory.{IsDirectory};

use crate::asserting::assert_none_differs;
use crate::least::SHAPE;
use nl_dir::{entry_at, find, insert, remove};
use nl_field::{EntryRec, InodeRec, Kind, Memory, Name, Pointer};
use nl_meta::Meta;
use std::alloc::Global;

// A directory without entries.
fn empty() -> InodeRec
    ensures { (count : ℕ) → IsDirectory (page_of (no_pages count)) result }
{
    InodeRec {
        kind: Kind::Dir,
        generation: 0,
        size: 0,
        direct: [Pointer { name: 0, stamp: 0 }; 8],
        addresses: [0; 16],
    }
}

// The name of entry n: the number in four digits.
fn digits(n: u32) -> [u8; 4] {
    [
        b'0' + (n / 1000 % 10) as u8,
        b'0' + (n / 100 % 10) as u8,
        b'0' + (n / 10 % 10) as u8,
        b'0' + (n % 10) as u8,
    ]
}

// Adds entry n, which names node n + 1 under generation 7.
fn add(rec: &mut InodeRec, meta: &mut Meta, n: u32) -> bool
    requires directory { IsDirectory (page_of meta.old) rec.old }
    requires count { length meta.old.running ≡ 103 }
    requires few { n < 1024 }
    ensures directory { IsDirectory (page_of meta.new) rec.new }
    ensures count { length meta.new.running ≡ 103 }
{
    let Some(name) = Name::of(&digits(n)) else {
        return false;
    };
    let entry = EntryRec {
        ino: n + 1,
        generation: 7,
        name,
    };
    if rec.size >= 1024 || meta.dirty() >= 63 || find(rec, meta, entry.name.bytes()).is_some() {
        return false;
    }
    if rec.size % 64 != 0 {
        insert(rec, meta, &entry, None);
        return true;
    }
    let vaddr = 71 + (rec.size / 64) as u32;
    if rec.addresses.contains(&vaddr) {
        return false;
    }
    insert(rec, meta, &entry, Some(vaddr));
    true
}

fn add_first(rec: &mut InodeRec, meta: &mut Meta, count: u32) -> bool
    requires directory { IsDirectory (page_of meta.old) rec.old }
    requires count { length meta.old.running ≡ 103 }
    requires few { count ≤ 1024 }
    ensures directory { IsDirectory (page_of meta.new) rec.new }
    ensures count { length meta.new.running ≡ 103 }
{
    for n in 0..count {
        if !add(rec, meta, n) {
            return false;
        }
    }
    true
}

// Sixteen main bytes of a resident page.
fn bytes_at(meta: &Meta, vaddr: u32, at: usize) -> Option<[u8; 16]> {
    if at >= 4080 || !meta.resident(vaddr) {
        return None;
    }
    let mut out = [0; 16];
    out.copy_from_slice(&meta.page(vaddr).main()[at..at + 16]);
    Some(out)
}

/// What is asked of a directory.
#[derive(Clone, Copy)]
enum Call {
    /// Bytes of a page.
    Bytes(u32, usize),
    /// An entry is removed, and then bytes are seen.
    Remove(u32, u32, usize),
    Find(&'static [u8]),
    At(u32),
}

#[derive(Clone, Copy, PartialEq)]
enum Answer {
    Bytes(Option<[u8; 16]>),
    /// The address that is given up, how many entries are left, and the bytes.
    Removed(Option<u32>, u64, Option<[u8; 16]>),
    /// The node of an entry.
    Node(u32),
    None,
}

fn removed(rec: &mut InodeRec, meta: &mut Meta, gone: u32) -> Option<Option<u32>>
    requires { IsDirectory (page_of meta.old) rec.old }
{
    let name = digits(gone);
    if meta.dirty() > 61 || find(rec, meta, &name).is_none() {
        return None;
    }
    Some(remove(rec, meta, &name))
}

fn run(rec: &mut InodeRec, meta: &mut Meta, call: Call) -> Answer
    requires { IsDirectory (page_of meta.old) rec.old }
{
    match call {
        Call::Bytes(vaddr, at) => Answer::Bytes(bytes_at(meta, vaddr, at)),
        Call::Remove(gone, vaddr, at) => match removed(rec, meta, gone) {
            Some(given) => Answer::Removed(given, rec.size, bytes_at(meta, vaddr, at)),
            None => Answer::None,
        },
        Call::Find(name) => match find(rec, meta, name) {
            Some(entry) => Answer::Node(entry.ino),
            None => Answer::None,
        },
        Call::At(place) => {
            if u64::from(place) >= rec.size {
                return Answer::None;
            }
            Answer::Node(entry_at(rec, meta, place).ino)
        }
    }
}

// What a directory with the first entries, so many, answers.
fn answered(alloc: Global, count: u32, call: Call) -> Result<Option<Answer>, Memory>
    requires { count ≤ 1024 }
{
    let mut meta = Meta::new(alloc, SHAPE)?;
    let answer = answer_in(&mut meta, count, call);
    drop(meta);
    Ok(answer)
}

// The same in pages of which none is resident.
fn answer_in(meta: &mut Meta, count: u32, call: Call) -> Option<Answer>
    requires blank { meta.old ≡ no_pages 103 }
    requires few { count ≤ 1024 }
{
    let mut rec = empty();
    if !add_first(&mut rec, meta, count) {
        return None;
    }
    Some(run(&mut rec, meta, call))
}

/// How many entries there are, what is asked, and the answer.
type Row = (u32, Call, Answer);

// The first row that is answered otherwise.
fn differs(alloc: Global, rows: &[Row]) -> Result<Option<usize>, Memory> {
    for row in 0..rows.len() {
        let (count, call, want) = rows[row];
        if count > 1024 || answered(alloc, count, call)? != Some(want) {
            return Ok(Some(row));
        }
    }
    Ok(None)
}

const ZEROS: [u8; 16] = [0; 16];

const ENTRY_0: [u8; 16] = [
    0x01, 0, 0, 0, 7, 0, 0, 0, 4, 0x30, 0x30, 0x30, 0x30, 0, 0, 0,
];

const ENTRY_63: [u8; 16] = [
    0x40, 0, 0, 0, 7, 0, 0, 0, 4, 0x30, 0x30, 0x36, 0x33, 0, 0, 0,
];

const ENTRY_64: [u8; 16] = [
    0x41, 0, 0, 0, 7, 0, 0, 0, 4, 0x30, 0x30, 0x36, 0x34, 0, 0, 0,
];

const ENTRY_960: [u8; 16] = [
    0xc1, 3, 0, 0, 7, 0, 0, 0, 4, 0x30, 0x39, 0x36, 0x30, 0, 0, 0,
];

const ENTRY_1023: [u8; 16] = [0, 4, 0, 0, 7, 0, 0, 0, 4, 0x31, 0x30, 0x32, 0x33, 0, 0, 0];

// 64 entries of 64 bytes to a page, one behind the other, with zeros behind them.
const INSERTED: [Row; 7] = [
    (1, Call::Bytes(71, 0), Answer::Bytes(Some(ENTRY_0))),
    (1, Call::Bytes(71, 64), Answer::Bytes(Some(ZEROS))),
    (64, Call::Bytes(71, 4032), Answer::Bytes(Some(ENTRY_63))),
    (64, Call::Bytes(72, 0), Answer::Bytes(None)),
    (65, Call::Bytes(72, 0), Answer::Bytes(Some(ENTRY_64))),
    (65, Call::Bytes(72, 64), Answer::Bytes(Some(ZEROS))),
    (1024, Call::Bytes(86, 4032), Answer::Bytes(Some(ENTRY_1023))),
];

#[test]
fn entries_stand_in_pages(rt: HostRuntime) {
    assert_none_differs(&rt, differs(rt.alloc(), &INSERTED));
}

// The last entry takes the place of the one that is removed, and a page that lost its only entry is given up.
const REMOVED: [Row; 8] = [
    (
        1,
        Call::Remove(0, 72, 0),
        Answer::Removed(Some(71), 0, None),
    ),
    (
        64,
        Call::Remove(63, 71, 4032),
        Answer::Removed(None, 63, Some(ZEROS)),
    ),
    (
        64,
        Call::Remove(0, 71, 0),
        Answer::Removed(None, 63, Some(ENTRY_63)),
    ),
    (
        65,
        Call::Remove(64, 71, 4032),
        Answer::Removed(Some(72), 64, Some(ENTRY_63)),
    ),
    (
        65,
        Call::Remove(0, 71, 0),
        Answer::Removed(Some(72), 64, Some(ENTRY_64)),
    ),
    (
        961,
        Call::Remove(0, 71, 0),
        Answer::Removed(Some(86), 960, Some(ENTRY_960)),
    ),
    (
        1024,
        Call::Remove(63, 71, 4032),
        Answer::Removed(None, 1023, Some(ENTRY_1023)),
    ),
    (
        1024,
        Call::Remove(63, 86, 4032),
        Answer::Removed(None, 1023, Some(ZEROS)),
    ),
];

#[test]
fn the_last_entry_moves(rt: HostRuntime) {
    assert_none_differs(&rt, differs(rt.alloc(), &REMOVED));
}

const FOUND: [Row; 5] = [
    (65, Call::Find(b"0064"), Answer::Node(65)),
    (65, Call::Find(b"0065"), Answer::None),
    (65, Call::Find(b"006"), Answer::None),
    (65, Call::Find(b"00640"), Answer::None),
    (65, Call::At(64), Answer::Node(65)),
];

#[test]
fn names_are_found(rt: HostRuntime) {
    assert_none_differs(&rt, differs(rt.alloc(), &FOUND));
}
