// Volumes with more pages, or fewer blocks to spare, than an opening accepts. They have one file, of node 1.
ghost use Rattle.std.specs.Prelude.{◌<◌, ◌≤◌};

use crate::tests::{
    Bytes, ENTRY, ROOT, ROOT_ADDRESS, Row, SUPER, all_of, checked_of, data, image, is_found,
    metadata, only,
};
use nl_check::Checked;
use nl_field::{Findings, Memory, What};
use std::alloc::Global;
use std::test::Fail;

/// A file of 2 MiB and generation 1.
const LONG_FILE: Bytes = Bytes {
    vaddr: 67,
    at: 256,
    bytes: *b"\x01\0\0\0\x01\0\0\0\0\0\x20\0\0\0\0\0\0\0\0\0\0\0\0\0",
};

/// Where a pointer stands: its page index, and the address and offset.
#[derive(Clone, Copy)]
struct Slot {
    index: u32,
    vaddr: u32,
    at: usize,
}

/// The first eight pointers of the file are in its node, the next 250 in address 72, and the others in address 73.
fn slot_of(number: u32) -> Slot
    requires { number < 500 }
{
    if number < 8 {
        Slot {
            index: number,
            vaddr: 67,
            at: (320 + 16 * number) as usize,
        }
    } else if number < 258 {
        Slot {
            index: number,
            vaddr: 72,
            at: (16 * (number - 8)) as usize,
        }
    } else {
        Slot {
            index: number + 6,
            vaddr: 73,
            at: (16 * (number - 258)) as usize,
        }
    }
}

/// A pointer to a name under a number.
fn pointer(slot: Slot, name: u32, stamp: u64) -> Bytes {
    let mut bytes = [0; 24];
    bytes[..4].copy_from_slice(&name.to_le_bytes());
    bytes[8..16].copy_from_slice(&stamp.to_le_bytes());
    Bytes {
        vaddr: slot.vaddr,
        at: slot.at,
        bytes,
    }
}

/// A file of so many pages, the first one page 256, one behind the other or one in each block; a pointer names its page, or the one 256
/// pages behind it.
#[derive(Clone, Copy, Debug)]
struct Spread {
    count: u32,
    apart: bool,
    moved: bool,
}

/// The page of that number.
fn page(spread: Spread, number: u32) -> u32
    requires { number < 500 }
    ensures { result ≤ 16500 }
{
    if spread.apart {
        256 + 32 * number
    } else {
        256 + number
    }
}

/// The name that the pointer has to it.
fn name(spread: Spread, number: u32) -> u32
    requires { number < 500 }
{
    let page = page(spread, number);
    if spread.moved { page + 256 } else { page }
}

/// The addresses of a file with so many pointers: none where they are all in its node, 72, or 72 and 73.
fn addresses(count: u32) -> Bytes {
    let mut bytes = [0; 24];
    if count > 8 {
        bytes[0] = 72;
    }
    if count > 258 {
        bytes[4] = 73;
    }
    Bytes {
        vaddr: 67,
        at: 448,
        bytes,
    }
}

fn file_bytes(alloc: Global, spread: Spread) -> Result<Vec<Bytes>, Memory> {
    let mut bytes = [SUPER, ROOT, ROOT_ADDRESS, ENTRY, LONG_FILE].to_vec(alloc)?;
    for number in 0..spread.count.min(500) {
        let name = name(spread, number);
        bytes.push(pointer(slot_of(number), name, 100 + u64::from(number)))?;
    }
    bytes.push(addresses(spread.count))?;
    Ok(bytes)
}

fn add_data(rows: &mut Vec<Row>, spread: Spread) -> Result<(), Memory> {
    for number in 0..spread.count.min(500) {
        let page = page(spread, number);
        rows.push(data(page, slot_of(number).index, 100 + u64::from(number), 1))?;
    }
    Ok(())
}

/// What is found of a volume with these pages of addresses and such a file.
fn found(alloc: Global, virtuals: &[Row], spread: Spread) -> Result<Checked, Memory> {
    let bytes = file_bytes(alloc, spread)?;
    let mut rows = virtuals.to_vec(alloc)?;
    add_data(&mut rows, spread)?;
    Ok(checked_of(alloc, image(alloc, &rows, &bytes)?))
}

fn wanted(what: Option<What>) -> Findings {
    match what {
        Some(what) => only(what),
        None => Findings::none(),
    }
}

/// The addresses of nodes, of the super page, of the root's entry and of the file's pointers.
fn in_one_block() -> [Row; 5] {
    [
        metadata(0, 67, 5),
        metadata(1, 0, 6),
        metadata(2, 71, 7),
        metadata(3, 72, 8),
        metadata(4, 73, 9),
    ]
}

/// The addresses of nodes, of the super page, of the root's entry and of the file's pointers, and pages of addresses that no node has, one
/// page in each of the first seven blocks. The eighth block has one of this address.
fn in_each_block(last: u32) -> [Row; 8] {
    [
        metadata(0, 67, 5),
        metadata(32, 0, 6),
        metadata(64, 71, 7),
        metadata(96, 72, 8),
        metadata(128, 73, 9),
        metadata(160, 74, 10),
        metadata(192, 75, 11),
        metadata(224, last, 4),
    ]
}

// A volume of 32 blocks of 32 pages may have 480 pages of files. One of its 24 physical blocks has to be without a page that is needed.
// Pages of three blocks may have moved from their names; nothing is found at those from page 512 on.
const FILES: [(Spread, Option<What>); 6] = [
    (
        Spread {
            count: 480,
            apart: false,
            moved: false,
        },
        None,
    ),
    (
        Spread {
            count: 481,
            apart: false,
            moved: false,
        },
        Some(What::Charges),
    ),
    (
        Spread {
            count: 23,
            apart: true,
            moved: false,
        },
        None,
    ),
    (
        Spread {
            count: 24,
            apart: true,
            moved: false,
        },
        Some(What::Crowded),
    ),
    (
        Spread {
            count: 96,
            apart: false,
            moved: true,
        },
        None,
    ),
    (
        Spread {
            count: 97,
            apart: false,
            moved: true,
        },
        Some(What::Crowded),
    ),
];

// How many of the files are found as wanted before the first that is not.
fn files_found(alloc: Global) -> Result<usize, Memory> {
    for (at, file) in FILES.iter().enumerate() {
        let (spread, what) = *file;
        let checked = found(alloc, &in_one_block(), spread)?;
        if !is_found(&checked, wanted(what), 0) {
            return Ok(at);
        }
    }
    Ok(FILES.len())
}

#[test]
fn files_of_many_pages(rt: HostRuntime) -> Result<(), Fail> {
    assert_eq!(rt; files_found(rt.alloc())?, FILES.len());
    Ok(())
}

// Too many pages, which have all moved: the first of them name pages that others have.
fn moved_right(alloc: Global) -> Result<bool, Memory> {
    let spread = Spread {
        count: 481,
        apart: false,
        moved: true,
    };
    let checked = found(alloc, &in_one_block(), spread)?;
    let wanted = all_of(&[What::Names, What::Charges, What::Crowded]);
    Ok(is_found(&checked, wanted, 0))
}

#[test]
fn too_many_that_moved(rt: HostRuntime) -> Result<(), Fail> {
    assert!(rt; moved_right(rt.alloc())?);
    Ok(())
}

const ONE_PAGE: Spread = Spread {
    count: 1,
    apart: false,
    moved: false,
};

fn is_found_with(alloc: Global, last: u32, what: Option<What>) -> Result<bool, Memory> {
    let checked = found(alloc, &in_each_block(last), ONE_PAGE)?;
    Ok(is_found(&checked, wanted(what), 0))
}

// Each virtual block has the newest page of an address, or the eighth one an older page of one.
#[test]
fn addresses_in_each_block(rt: HostRuntime) -> Result<(), Fail> {
    let alloc = rt.alloc();
    let right = is_found_with(alloc, 76, Some(What::Crowded))? && is_found_with(alloc, 75, None)?;
    assert!(rt; right);
    Ok(())
}
