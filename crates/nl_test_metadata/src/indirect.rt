// Rows of calls on the pointers of a file, at the borders of its node, of ranges and of the file.
ghost use Rattle.std.specs.Prelude.{◌≡◌, ◌↔◌, ◌<◌, ◌≤◌, IfOk, IfSome, IsSome, IsTrue};
ghost use Rattle.nl_field.specs.Spelling.{is_stamp};
ghost use Rattle.nl_test_metadata.specs.Tested.{IsTested};
ghost use Rattle.nl_indirect.specs.Ranges.{range_of};
ghost use Rattle.nl_indirect.specs.Storing.{BeginsRange};

use crate::asserting::assert_none_differs;
use crate::least::SHAPE;
use nl_field::{InodeRec, Kind, Memory, Pointer};
use nl_indirect::{Stored, lookup, page_address, store, truncate};
use nl_meta::Meta;
use std::alloc::Global;

const PAGE: u32 = 71;

/// An empty file.
const EMPTY: InodeRec = InodeRec {
    kind: Kind::File,
    generation: 1,
    size: 0,
    direct: [Pointer { name: 0, stamp: 0 }; 8],
    addresses: [0; 16],
};

// The pointer to page 256 under this write sequence number, none for 0.
fn pointer(stamp: u64) -> Option<Pointer>
    ensures { IfSome result (λ p. IsTrue (is_stamp p.stamp)) }
{
    if 1 <= stamp && stamp < 1 << 63 {
        Some(Pointer { name: 256, stamp })
    } else {
        None
    }
}

fn fresh_for(rec: &InodeRec, index: u32, to: Option<Pointer>) -> Option<u32>
    requires { index < 4104 }
    ensures some { IsSome result ↔ BeginsRange rec.now index to }
    ensures page { IfSome result (λ a. a ≡ 71) }
{
    if 8 <= index && to.is_some() && rec.addresses[((index - 8) / 256) as usize] == 0 {
        Some(PAGE)
    } else {
        None
    }
}

fn is_in(range: u32, index: u32) -> bool
    ensures within { IsTrue result → index < 4104 }
    ensures range { IsTrue result → 8 ≤ index → range_of index ≡ range }
{
    index < 8 || index < 4104 && (index - 8) / 256 == range
}

// Stores a pointer at an index of the node or of this range, and gives the answer.
fn run(rec: &mut InodeRec, meta: &mut Meta, range: u32, index: u32, stamp: u64) -> Option<Stored>
    requires { IsTested range rec.old meta.old }
    ensures { IsTested range rec.new meta.new }
{
    if !is_in(range, index) {
        return None;
    }
    let to = pointer(stamp);
    let fresh = fresh_for(rec, index, to);
    Some(store(rec, meta, index, to, fresh))
}

// The write sequence number at an index of the node or of this range.
fn stamp_at(rec: &InodeRec, meta: &Meta, range: u32, index: u32) -> Option<u64>
    requires { IsTested range rec.now meta.now }
{
    if !is_in(range, index) {
        return None;
    }
    match lookup(rec, meta, index) {
        Some(pointer) => Some(pointer.stamp),
        None => None,
    }
}

// A byte of the file's page.
fn byte_at(meta: &Meta, at: usize) -> Option<u8> {
    if at < 4096 && meta.resident(PAGE) {
        Some(meta.page(PAGE).main()[at])
    } else {
        None
    }
}

fn blank(alloc: Global, range: u32) -> Result<Meta, Memory>
    ensures { IfOk result (λ m. IsTested range EMPTY m) }
{
    Meta::new(alloc, SHAPE)
}

/// What a pointer leaves that is stored at an index of an empty file, and taken away again.
#[derive(Clone, Copy, PartialEq)]
struct Left {
    stored: Option<Stored>,
    stamp: Option<u64>,
    /// The address of the range.
    address: u32,
    /// A byte of the range's page.
    byte: Option<u8>,
    taken: Option<Stored>,
    stamp_then: Option<u64>,
    address_then: u32,
}

fn stored_and_taken(alloc: Global, range: u32, index: u32, at: usize) -> Result<Left, Memory>
    requires { index < 4104 }
{
    let mut meta = blank(alloc, range)?;
    let left = left_in(&mut meta, range, index, at);
    drop(meta);
    Ok(left)
}

fn left_in(meta: &mut Meta, range: u32, index: u32, at: usize) -> Left
    requires file { IsTested range EMPTY meta.old }
    requires index { index < 4104 }
{
    let mut rec = EMPTY;
    let stored = run(&mut rec, meta, range, index, 5);
    let stamp = stamp_at(&rec, meta, range, index);
    let address = page_address(&rec, index);
    let byte = byte_at(meta, at);
    let taken = run(&mut rec, meta, range, index, 0);
    let stamp_then = stamp_at(&rec, meta, range, index);
    let address_then = page_address(&rec, index);
    Left {
        stored,
        stamp,
        address,
        byte,
        taken,
        stamp_then,
        address_then,
    }
}

const IN_NODE: Left = Left {
    stored: Some(Stored::Done),
    stamp: Some(5),
    address: 0,
    byte: None,
    taken: Some(Stored::Done),
    stamp_then: None,
    address_then: 0,
};

const IN_PAGE: Left = Left {
    stored: Some(Stored::Done),
    stamp: Some(5),
    address: 71,
    byte: Some(5),
    taken: Some(Stored::Emptied(71)),
    stamp_then: None,
    address_then: 0,
};

// The first and the last index of the node, of the first range, and of all: range, index, and the byte of the page where the
// sequence number begins.
const BORDERS: [(u32, u32, usize); 8] = [
    (0, 0, 0),
    (0, 7, 0),
    (0, 8, 8),
    (0, 9, 24),
    (0, 263, 4088),
    (1, 264, 8),
    (1, 519, 4088),
    (15, 4103, 4088),
];

fn borders_differ(alloc: Global) -> Result<Option<usize>, Memory> {
    for row in 0..8usize {
        let (range, index, at) = BORDERS[row];
        let want = if index < 8 { IN_NODE } else { IN_PAGE };
        if index >= 4104 || stored_and_taken(alloc, range, index, at)? != want {
            return Ok(Some(row));
        }
    }
    Ok(None)
}

#[test]
fn pointers_at_borders(rt: HostRuntime) {
    assert_none_differs(&rt, borders_differ(rt.alloc()));
}

// Stores at an index, and gives the answer and what indexes 7, 8 and 263 have then.
fn step(
    rec: &mut InodeRec,
    meta: &mut Meta,
    index: u32,
    stamp: u64,
) -> (Option<Stored>, [Option<u64>; 3])
    requires { IsTested 0 rec.old meta.old }
    ensures { IsTested 0 rec.new meta.new }
{
    let stored = run(rec, meta, 0, index, stamp);
    let stamps = [
        stamp_at(rec, meta, 0, 7),
        stamp_at(rec, meta, 0, 8),
        stamp_at(rec, meta, 0, 263),
    ];
    (stored, stamps)
}

const DONE: Option<Stored> = Some(Stored::Done);

const EMPTIED: Option<Stored> = Some(Stored::Emptied(71));

/// An index and the write sequence number that is stored there, the answer, and what the three indexes have then.
type Row = ((u32, u64), (Option<Stored>, [Option<u64>; 3]));

const OF_A_RANGE: [Row; 10] = [
    ((8, 5), (DONE, [None, Some(5), None])),
    ((263, 6), (DONE, [None, Some(5), Some(6)])),
    ((7, 4), (DONE, [Some(4), Some(5), Some(6)])),
    ((8, 9), (DONE, [Some(4), Some(9), Some(6)])),
    ((8, 0), (DONE, [Some(4), None, Some(6)])),
    ((8, 0), (DONE, [Some(4), None, Some(6)])),
    ((263, 0), (EMPTIED, [Some(4), None, None])),
    ((263, 0), (DONE, [Some(4), None, None])),
    ((8, 7), (DONE, [Some(4), Some(7), None])),
    ((7, 0), (DONE, [None, Some(7), None])),
];

// The first row that is answered otherwise.
fn differs(rec: &mut InodeRec, meta: &mut Meta, rows: &[Row]) -> Option<usize>
    requires { IsTested 0 rec.old meta.old }
{
    for row in 0..rows.len() {
        let ((index, stamp), want) = rows[row];
        if step(rec, meta, index, stamp) != want {
            return Some(row);
        }
    }
    None
}

fn range_differs(alloc: Global) -> Result<Option<usize>, Memory> {
    let mut meta = blank(alloc, 0)?;
    let mut rec = EMPTY;
    let row = differs(&mut rec, &mut meta, &OF_A_RANGE);
    drop(meta);
    Ok(row)
}

// A page is given back with its last pointer alone, and a new one has no pointer of the last.
#[test]
fn pointers_of_a_range(rt: HostRuntime) {
    assert_none_differs(&rt, range_differs(rt.alloc()));
}

// Takes away the pointers from an index on that is at most the first behind the first range.
fn cut(rec: &mut InodeRec, meta: &mut Meta, from: u32)
    requires { IsTested 0 rec.old meta.old }
{
    if from <= 264 {
        truncate(rec, meta, from);
    }
}

// A file with pointers at the indexes 7 and 263, and at 8 where its sequence number is not 0, is cut: the sequence number at index 7, the
// address of the first range, and the bytes of its page where the sequence numbers of its first and its last slot begin.
fn cut_from(
    alloc: Global,
    first: u64,
    from: u32,
) -> Result<(u64, u32, Option<u8>, Option<u8>), Memory> {
    let mut meta = blank(alloc, 0)?;
    let found = cut_in(&mut meta, first, from);
    drop(meta);
    Ok(found)
}

fn cut_in(meta: &mut Meta, first: u64, from: u32) -> (u64, u32, Option<u8>, Option<u8>)
    requires { IsTested 0 EMPTY meta.old }
{
    let mut rec = EMPTY;
    run(&mut rec, meta, 0, 7, 4);
    run(&mut rec, meta, 0, 263, 6);
    run(&mut rec, meta, 0, 8, first);
    cut(&mut rec, meta, from);
    (
        rec.direct[7].stamp,
        rec.addresses[0],
        byte_at(meta, 8),
        byte_at(meta, 4088),
    )
}

const CUTS: [(u64, u32, (u64, u32, Option<u8>, Option<u8>)); 8] = [
    (5, 264, (4, 71, Some(5), Some(6))),
    (5, 263, (4, 71, Some(5), Some(0))),
    (5, 9, (4, 71, Some(5), Some(0))),
    (5, 8, (4, 0, Some(5), Some(6))),
    (5, 7, (0, 0, Some(5), Some(6))),
    (5, 0, (0, 0, Some(5), Some(6))),
    (0, 264, (4, 71, Some(0), Some(6))),
    (0, 263, (4, 0, Some(0), Some(6))),
];

fn cuts_differ(alloc: Global) -> Result<Option<usize>, Memory> {
    for row in 0..8usize {
        let (first, from, want) = CUTS[row];
        if cut_from(alloc, first, from)? != want {
            return Ok(Some(row));
        }
    }
    Ok(None)
}

// A page is cut where a pointer before the index stays, and else it is the file's no longer.
#[test]
fn pointers_from_an_index_on(rt: HostRuntime) {
    assert_none_differs(&rt, cuts_differ(rt.alloc()));
}
