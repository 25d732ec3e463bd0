// Tests of what a scan says of pointers: their faults, their names, and the blocks that are crowded.
ghost use Rattle.std.specs.Prelude.{◌≡◌};
ghost use Rattle.nl_nand.specs.Memory.{geometry_of, contents_of};
ghost use Rattle.nl_nand.specs.Nand.{ErasedWithin};

use crate::medium::{formed, put, spare_with};
use nl_field::{Memory, PageBuf, Pointer, PointerList, Shape, SpareRec, Tag, shape_of};
use nl_nand::{MemNand, WriteAnswer};
use nl_recover_pointers::{
    HeldList, HeldPointer, charge_fault, crowded_fault, name_fault, pointer_fault,
};
use nl_scan::{ScanTables, Scanned, scan};
use std::alloc::Global;

// A volume of 32 blocks of 32 pages has 103 virtual addresses and eight virtual blocks, so the physical segment begins with page 256.
// Its files may have 20 * 32 - 160 = 480 pages.

/// A page of a medium: its number, its record, and how many bytes before its zeros.
#[derive(Clone, Copy)]
struct Row {
    page: u32,
    rec: SpareRec,
    bytes: usize,
}

fn virtual_row(page: u32, vaddr: u32, stamp: u64) -> Row {
    let rec = SpareRec::Virtual {
        vaddr,
        stamp,
        wear: 0,
    };
    Row {
        page,
        rec,
        bytes: 1,
    }
}

fn tag(ino: u32, index: u32) -> Tag {
    Tag {
        ino,
        generation: 1,
        index,
    }
}

fn physical_row(page: u32, tag: Tag, stamp: u64, bytes: usize) -> Row {
    let rec = SpareRec::Physical {
        tag,
        stamp,
        wear: 0,
    };
    Row { page, rec, bytes }
}

fn held(size: u64, tag: Tag, name: u32, stamp: u64) -> HeldPointer {
    HeldPointer {
        size,
        tag,
        pointer: Pointer { name, stamp },
    }
}

fn fill(row: &Row, buf: &mut PageBuf) {
    buf.clear();
    buf.set_spare(&spare_with(&row.rec));
    if 0 < row.bytes && row.bytes <= 4096 {
        buf.set_main(row.bytes - 1, &[7]);
    }
}

// Writes pages, which rise. Whether each is written.
fn write_rows(media: &mut MemNand, rows: &[Row], buf: &mut PageBuf) -> bool
    requires geometry { geometry_of media.old ≡ record { blocks = 32; pages = 32 } }
    requires erased { ErasedWithin (contents_of media.old) 0 1024 }
{
    let mut next = 0;
    'rows: for row in rows {
        if row.page < next || row.page >= 1024 {
            return false;
        }
        fill(row, buf);
        if put(media, row.page, buf) != WriteAnswer::Done {
            return false;
        }
        next = row.page + 1;
    }
    true
}

fn tables_of(alloc: Global, media: &mut MemNand) -> Result<ScanTables, Memory> {
    match scan(alloc, media) {
        Scanned::Tables(tables) => Ok(tables),
        other => {
            drop(other);
            Err(Memory)
        }
    }
}

fn written(alloc: Global, rows: &[Row]) -> Result<MemNand, Memory> {
    let mut buf = PageBuf::new(alloc)?;
    let Some(mut media) = formed(alloc) else {
        return Err(Memory);
    };
    if write_rows(&mut media, rows, &mut buf) {
        Ok(media)
    } else {
        drop(media);
        Err(Memory)
    }
}

/// What a scan tells of a medium with these pages, which rise.
fn scanned(alloc: Global, rows: &[Row]) -> Result<ScanTables, Memory> {
    let mut media = written(alloc, rows)?;
    let tables = tables_of(alloc, &mut media);
    drop(media);
    tables
}

fn shape() -> Result<Shape, Memory> {
    match shape_of(32, 32) {
        Some(shape) => Ok(shape),
        None => Err(Memory),
    }
}

fn list_of(alloc: Global, rows: &[HeldPointer]) -> Result<HeldList, Memory> {
    let mut list = HeldList::new(alloc);
    for row in rows {
        if list.len() < 1000 {
            list.push(*row)?;
        }
    }
    Ok(list)
}

/// The fault of these pointers.
fn pointer(
    alloc: Global,
    tables: &ScanTables,
    rows: &[HeldPointer],
) -> Result<Option<u32>, Memory> {
    let list = list_of(alloc, rows)?;
    let found = pointer_fault(alloc, &shape()?, &list, tables);
    drop(list);
    found
}

fn name(alloc: Global, tables: &ScanTables, rows: &[HeldPointer]) -> Result<Option<u32>, Memory> {
    let list = list_of(alloc, rows)?;
    let found = name_fault(alloc, &shape()?, &list, tables);
    drop(list);
    found
}

// Three pages of node 5, of which the last has 100 bytes, and one of node 6. A copy of the second, and a page of an address.
fn files(alloc: Global) -> Result<ScanTables, Memory> {
    let rows = [
        virtual_row(0, 0, 1),
        physical_row(256, tag(5, 0), 11, 4096),
        physical_row(257, tag(5, 1), 12, 1),
        physical_row(258, tag(5, 2), 13, 100),
        physical_row(259, tag(6, 0), 14, 0),
        physical_row(300, tag(5, 1), 12, 1),
    ];
    scanned(alloc, &rows)
}

const SIZE: u64 = 2 * 4096 + 100;

/// A pointer behind that of page 256: the size of its file, its owner, its name, its number, and the fault.
const POINTERS: [(u64, (u32, u32), u32, u64, Option<u32>); 14] = [
    (SIZE, (5, 2), 258, 13, None),
    // stale names: of an erased page, of the copy, of another page
    (SIZE, (5, 2), 400, 13, None),
    (SIZE, (5, 2), 300, 13, None),
    (SIZE, (5, 2), 259, 13, None),
    // no page of that number, or of that owner
    (SIZE, (5, 2), 258, 15, Some(5)),
    (SIZE, (5, 1), 258, 13, Some(5)),
    (SIZE, (7, 2), 258, 13, Some(7)),
    // only a page of an address
    (SIZE, (5, 0), 0, 1, Some(5)),
    // the file ends before the page's zeros begin, or before the page
    (SIZE - 1, (5, 2), 258, 13, Some(5)),
    (2 * 4096, (5, 2), 258, 13, Some(5)),
    (0, (6, 0), 259, 14, Some(6)),
    (1, (6, 0), 259, 14, None),
    // the number or the name of an earlier pointer
    (SIZE, (5, 0), 400, 11, Some(5)),
    (SIZE, (5, 2), 256, 13, Some(5)),
];

// How many of the rows of pointers have their fault before the first that has another.
fn pointers_found(alloc: Global, tables: &ScanTables) -> Result<usize, Memory> {
    let first = held(SIZE, tag(5, 0), 256, 11);
    for (at, row) in POINTERS.iter().enumerate() {
        let (size, (ino, index), name, stamp, want) = *row;
        let second = held(size, tag(ino, index), name, stamp);
        if pointer(alloc, tables, &[first, second])? != want {
            return Ok(at);
        }
    }
    Ok(POINTERS.len())
}

fn pointers_right(alloc: Global, tables: &ScanTables) -> Result<bool, Memory> {
    let three = [
        held(SIZE, tag(5, 0), 256, 11),
        held(1, tag(6, 0), 259, 15),
        held(SIZE, tag(5, 1), 257, 16),
    ];
    Ok(
        pointers_found(alloc, tables)? == POINTERS.len()
            && pointer(alloc, tables, &three)? == Some(6)
            && pointer(alloc, tables, &[])? == None,
    )
}

/// A name behind that of page 256, its number, and the fault.
const NAMES: [(u32, u64, Option<u32>); 6] = [
    (258, 13, None),
    (400, 13, None),
    (0, 13, None),
    (259, 13, Some(259)),
    (300, 12, None),
    (300, 13, Some(300)),
];

// How many of the rows of names have their fault before the first that has another.
fn names_found(alloc: Global, tables: &ScanTables) -> Result<usize, Memory> {
    let first = held(SIZE, tag(5, 0), 256, 11);
    for (at, row) in NAMES.iter().enumerate() {
        let (other, stamp, want) = *row;
        if name(alloc, tables, &[first, held(SIZE, tag(5, 2), other, stamp)])? != want {
            return Ok(at);
        }
    }
    Ok(NAMES.len())
}

fn files_right(alloc: Global) -> Result<(bool, usize), Memory> {
    let tables = files(alloc)?;
    let pointers = pointers_right(alloc, &tables);
    let names = names_found(alloc, &tables);
    drop(tables);
    Ok((pointers?, names?))
}

// A pointer is found by its write sequence number and its owner, whatever its name. A name is the pointer's own where its page has the
// number, or is no page of the physical segment.
#[test]
fn pointers_and_names(rt: HostRuntime) {
    assert_eq!(rt; files_right(rt.alloc()), Ok((true, NAMES.len())));
}

/// So many pointers, with numbers from 1000 and names from 512 on.
fn many(alloc: Global, count: u32) -> Result<HeldList, Memory> {
    let mut list = HeldList::new(alloc);
    for index in 0..count {
        if index < 1000 && list.len() < 1000 {
            list.push(held(4096, tag(5, index), 512 + index, 1000 + index as u64))?;
        }
    }
    Ok(list)
}

fn charge(alloc: Global, count: u32) -> Result<Option<u32>, Memory> {
    let list = many(alloc, count)?;
    let found = charge_fault(&shape()?, &list);
    drop(list);
    Ok(found)
}

#[test]
fn charges(rt: HostRuntime) {
    let alloc = rt.alloc();
    let right = charge(alloc, 480) == Ok(None) && charge(alloc, 481) == Ok(Some(0));
    assert!(rt; right);
}

/// The fault of so many pointers to a medium that has what a scan told.
fn crowded_by(alloc: Global, tables: &ScanTables, count: u32) -> Result<Option<u32>, Memory> {
    let list = many(alloc, count)?;
    let shape = shape()?;
    if shape.pages == 0 {
        return Err(Memory);
    }
    let found = crowded_fault(alloc, &shape, &list, tables);
    drop(list);
    found
}

/// The fault of so many pointers to a medium with these pages.
fn crowded(alloc: Global, rows: &[Row], count: u32) -> Result<Option<u32>, Memory> {
    let tables = scanned(alloc, rows)?;
    let found = crowded_by(alloc, &tables, count);
    drop(tables);
    found
}

/// A page in each block: of another address in each virtual block, and of another number from 1000 on in each physical one.
fn one_each() -> [Row; 32] {
    let mut rows = [virtual_row(0, 0, 1); 32];
    for block in 1..32u32 {
        rows[block as usize] = if block < 8 {
            virtual_row(32 * block, block, 1 + block as u64)
        } else {
            physical_row(32 * block, tag(5, block - 8), 1000 + (block - 8) as u64, 0)
        };
    }
    rows
}

// A block can be erased where each page that is needed has a copy in another one.
fn spare_right(alloc: Global) -> Result<bool, Memory> {
    let mut rows = one_each();
    // each virtual block has the newest page of an address
    if crowded(alloc, &rows, 24)? != Some(0) {
        return Ok(false);
    }
    // block 7 has an older page of address 0
    rows[0] = virtual_row(0, 0, 50);
    rows[7] = virtual_row(224, 0, 49);
    if crowded(alloc, &rows, 24)? != Some(1) {
        return Ok(false);
    }
    // block 7 has a page of address 0 under the same number, so a copy; and block 31 has a page that no pointer needs
    rows[7] = virtual_row(224, 0, 50);
    if crowded(alloc, &rows, 24)? != Some(1) || crowded(alloc, &rows, 23)? != None {
        return Ok(false);
    }
    // block 31 has a copy of the page in block 8
    rows[31] = physical_row(992, tag(5, 0), 1000, 0);
    Ok(crowded(alloc, &rows, 24)? == None)
}

#[test]
fn spare_blocks(rt: HostRuntime) {
    assert!(rt; spare_right(rt.alloc()) == Ok(true));
}

// Three blocks have 96 pages, and no name of these pointers is of a page.
#[test]
fn stale_pointers(rt: HostRuntime) {
    let alloc = rt.alloc();
    let rows = [virtual_row(0, 0, 1)];
    let right = crowded(alloc, &rows, 96) == Ok(None) && crowded(alloc, &rows, 97) == Ok(Some(2));
    assert!(rt; right);
}

fn are_alone(list: &HeldList, pointers: &PointerList) -> bool {
    if list.len() != 3 || pointers.len() != 3 {
        return false;
    }
    for at in 0..3u32 {
        let want = Pointer {
            name: 512 + at,
            stamp: 1000 + at as u64,
        };
        if *pointers.get(at) != want || list.get(at).tag != tag(5, at) {
            return false;
        }
    }
    true
}

fn three_alone(alloc: Global) -> Result<bool, Memory> {
    let list = many(alloc, 3)?;
    let pointers = list.pointers(alloc)?;
    let right = are_alone(&list, &pointers);
    drop(pointers);
    drop(list);
    Ok(right)
}

#[test]
fn pointers_alone(rt: HostRuntime) {
    assert!(rt; three_alone(rt.alloc()) == Ok(true));
}
