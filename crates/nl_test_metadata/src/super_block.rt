// The super record beside the medium that it was read from.
use nl_field::{Memory, PageBuf, SuperRec};
use nl_nand::Geometry;
use nl_super::{check_super, count};
use std::alloc::Global;

// The geometry of the medium, the numbers of the record, and whether they fit.
const CASES: [(u32, u32, u32, u32, bool); 16] = [
    (32, 32, 32, 32, true),
    (256, 64, 256, 64, true),
    (4096, 64, 4096, 64, true),
    (1024, 256, 1024, 256, true),
    (32, 32, 33, 32, false),
    (32, 32, 32, 33, false),
    (64, 32, 32, 64, false),
    (32, 64, 64, 32, false),
    (0, 0, 32, 32, false),
    (32, 32, 0, 0, false),
    (0, 0, 0, 0, false),
    (31, 32, 31, 32, false),
    (32, 257, 32, 257, false),
    (4097, 32, 4097, 32, false),
    (4096, 65, 4096, 65, false),
    (u32::MAX, u32::MAX, u32::MAX, u32::MAX, false),
];

fn is_case(case: &(u32, u32, u32, u32, bool), version: u32) -> bool {
    let (blocks, pages, rec_blocks, rec_pages, fits) = *case;
    let rec = SuperRec {
        version,
        blocks: rec_blocks,
        pages: rec_pages,
        count: 7,
    };
    check_super(&rec, Geometry { blocks, pages }) == fits && count(&rec) == 7
}

// How many of the cases are so before the first that is not, whatever the version.
fn cases() -> usize {
    for (at, case) in CASES.iter().enumerate() {
        if !is_case(case, 1) || !is_case(case, 2) {
            return at;
        }
    }
    CASES.len()
}

#[test]
fn numbers_of_the_medium(rt: HostRuntime) {
    assert_eq!(rt; cases(), CASES.len());
}

// A page that spells a record, byte by byte: version 1, 32 blocks of 32 pages, and the count 2^32 + 2.
fn is_spelled(page: &PageBuf) -> bool {
    let own = Geometry {
        blocks: 32,
        pages: 32,
    };
    match SuperRec::of(page, 0) {
        Some(rec) => check_super(&rec, own) && count(&rec) == 4_294_967_298,
        None => false,
    }
}

fn spelled(alloc: Global) -> Result<bool, Memory> {
    let mut page = PageBuf::new(alloc)?;
    page.set_head(b"NAMELESS\x01\0\0\0\x20\0\0\0\x20\0\0\0\0\0\0\0\x02\0\0\0\x01\0\0\0");
    let is = is_spelled(&page);
    drop(page);
    Ok(is)
}

#[test]
fn read_from_a_page(rt: HostRuntime) {
    assert!(rt; spelled(rt.alloc()) == Ok(true));
}
