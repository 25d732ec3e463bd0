// Volumes with several faults at once, and what later phases make of an address that leads to no page, or to one of another kind.
use crate::tests::{
    Bytes, ENTRY, ROOT, ROOT_ADDRESS, Row, SUPER, all_of, checked_of, data, image, is_found,
    metadata,
};
use nl_field::{Findings, Memory, What};
use std::alloc::Global;
use std::test::Fail;

/// A directory of two entries.
const ROOT_OF_TWO: Bytes = Bytes {
    vaddr: 67,
    at: 0,
    bytes: *b"\x02\0\0\0\0\0\0\0\x02\0\0\0\0\0\0\0\0\0\0\0\0\0\0\0",
};

/// The root has its entries in address 2, which is one of the journal's.
const ROOT_AT_2: Bytes = Bytes {
    vaddr: 67,
    at: 192,
    bytes: *b"\x02\0\0\0\0\0\0\0\0\0\0\0\0\0\0\0\0\0\0\0\0\0\0\0",
};

/// Node 1 is a file of 4096 bytes and generation 1.
const FILE: Bytes = Bytes {
    vaddr: 67,
    at: 256,
    bytes: *b"\x01\0\0\0\x01\0\0\0\0\x10\0\0\0\0\0\0\0\0\0\0\0\0\0\0",
};

/// Its first pointer, to page 256 under 3.
const POINTER: Bytes = Bytes {
    vaddr: 67,
    at: 320,
    bytes: *b"\0\x01\0\0\0\0\0\0\x03\0\0\0\0\0\0\0\0\0\0\0\0\0\0\0",
};

/// It has further pointers in address 72.
const FURTHER: Bytes = Bytes {
    vaddr: 67,
    at: 448,
    bytes: *b"\x48\0\0\0\0\0\0\0\0\0\0\0\0\0\0\0\0\0\0\0\0\0\0\0",
};

/// Node 2 is a directory without entries, of generation 0.
const SECOND_DIR: Bytes = Bytes {
    vaddr: 67,
    at: 512,
    bytes: *b"\x02\0\0\0\0\0\0\0\0\0\0\0\0\0\0\0\0\0\0\0\0\0\0\0",
};

/// Node 2 under the name a.
const SECOND_A: Bytes = Bytes {
    vaddr: 71,
    at: 64,
    bytes: *b"\x02\0\0\0\0\0\0\0\x01a\0\0\0\0\0\0\0\0\0\0\0\0\0\0",
};

/// Node 2 under the name b.
const SECOND_B: Bytes = Bytes {
    vaddr: 71,
    at: 64,
    bytes: *b"\x02\0\0\0\0\0\0\0\x01b\0\0\0\0\0\0\0\0\0\0\0\0\0\0",
};

/// The entry of node 1 in address 2.
const ENTRY_AT_2: Bytes = Bytes {
    vaddr: 2,
    at: 0,
    bytes: *b"\x01\0\0\0\x01\0\0\0\x01a\0\0\0\0\0\0\0\0\0\0\0\0\0\0",
};

/// A pointer to page 300 under no number, in address 72, which no page of pointers may have.
const NO_NUMBER: Bytes = Bytes {
    vaddr: 72,
    at: 0,
    bytes: *b"\x2c\x01\0\0\0\0\0\0\0\0\0\0\0\0\0\0\0\0\0\0\0\0\0\0",
};

/// A pointer to page 257 under 4, in address 72.
const PAST_THE_SIZE: Bytes = Bytes {
    vaddr: 72,
    at: 0,
    bytes: *b"\x01\x01\0\0\0\0\0\0\x04\0\0\0\0\0\0\0\0\0\0\0\0\0\0\0",
};

/// Of the super page, the nodes and the root's entry, and of the address besides; then the file's first page.
fn pages(besides: u32) -> [Row; 5] {
    [
        metadata(0, 67, 5),
        metadata(1, 0, 6),
        metadata(2, 71, 7),
        metadata(3, besides, 8),
        data(256, 0, 3, 1),
    ]
}

// Whether just these are found of the volume with these changes, with a page of the address besides.
fn is_right(
    alloc: Global,
    besides: u32,
    changes: &[Bytes],
    wanted: Findings,
) -> Result<bool, Memory> {
    let mut bytes = [SUPER, ROOT, ROOT_ADDRESS, ENTRY, FILE, POINTER].to_vec(alloc)?;
    bytes.extend_from_slice(changes)?;
    let checked = checked_of(alloc, image(alloc, &pages(besides), &bytes)?);
    Ok(is_found(&checked, wanted, 0))
}

// A page of pointers is not there, and a name stands twice in the root, or does not.
fn names_right(alloc: Global) -> Result<bool, Memory> {
    let twice = [ROOT_OF_TWO, SECOND_DIR, SECOND_A, FURTHER];
    let once = [ROOT_OF_TWO, SECOND_DIR, SECOND_B, FURTHER];
    Ok(
        is_right(alloc, 73, &twice, all_of(&[What::Pages, What::Entry]))?
            && is_right(alloc, 73, &once, all_of(&[What::Pages]))?
            && is_right(alloc, 73, &once[..3], Findings::none())?
            && is_right(alloc, 73, &twice[..3], all_of(&[What::Entry]))?,
    )
}

#[test]
fn a_name_twice(rt: HostRuntime) -> Result<(), Fail> {
    assert!(rt; names_right(rt.alloc())?);
    Ok(())
}

// The root's entries stand at an address of the journal: they are entries all the same, and where no page is there, node 1 is not reached.
fn journal_right(alloc: Global) -> Result<bool, Memory> {
    let both = all_of(&[What::Pages, What::Entry]);
    Ok(
        is_right(alloc, 2, &[ROOT_AT_2, ENTRY_AT_2], all_of(&[What::Pages]))?
            && is_right(alloc, 2, &[ROOT_AT_2], both)?
            && is_right(alloc, 73, &[ROOT_AT_2, ENTRY_AT_2], both)?,
    )
}

#[test]
fn entries_in_the_journal(rt: HostRuntime) -> Result<(), Fail> {
    assert!(rt; journal_right(rt.alloc())?);
    Ok(())
}

// A page of pointers that is not spelled has those that its bytes are read as: they lie past the file's size.
fn pointers_right(alloc: Global) -> Result<bool, Memory> {
    let both = all_of(&[What::Pages, What::Pointer]);
    Ok(
        is_right(alloc, 72, &[FURTHER, NO_NUMBER], both)?
            && is_right(
                alloc,
                72,
                &[FURTHER, PAST_THE_SIZE],
                all_of(&[What::Pointer]),
            )?
            && is_right(alloc, 72, &[FURTHER], all_of(&[What::Pages]))?
            && is_right(alloc, 72, &[], Findings::none())?,
    )
}

#[test]
fn pointers_behind_the_size(rt: HostRuntime) -> Result<(), Fail> {
    assert!(rt; pointers_right(rt.alloc())?);
    Ok(())
}
