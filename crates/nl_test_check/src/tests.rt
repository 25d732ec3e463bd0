// Small images, byte by byte, and what is found of them where they have a change or two. All tests of checks make their images here.
ghost use Rattle.std.specs.Prelude.{◌≡◌};
ghost use Rattle.nl_nand.specs.Memory.{geometry_of, contents_of};
ghost use Rattle.nl_nand.specs.Nand.{ErasedWithin};

use crate::medium::{formed, put, spare_with};
use nl_check::{Checked, findings};
use nl_field::{FailList, Findings, Memory, PageBuf, SpareRec, Tag, What};
use nl_nand::{MemNand, WriteAnswer};
use std::alloc::Global;
use std::test::Fail;

// A volume of 32 blocks of 32 pages: 64 nodes in addresses 67 to 70, the pool from 71 to 102, and the physical segment from page 256
// on. Node 0 is the root with one entry `a` in address 71, and node 1 the file of two pages.

/// Bytes of a page of an address, from an offset on.
#[derive(Clone, Copy)]
pub struct Bytes {
    pub vaddr: u32,
    pub at: usize,
    pub bytes: [u8; 24],
}

/// The beginning of the super page of a volume of 32 blocks of 32 pages.
pub const SUPER: Bytes = Bytes {
    vaddr: 0,
    at: 0,
    bytes: *b"NAMELESS\x01\0\0\0\x20\0\0\0\x20\0\0\0\0\0\0\0",
};

const OTHER_BLOCKS: Bytes = Bytes {
    vaddr: 0,
    at: 0,
    bytes: *b"NAMELESS\x01\0\0\0\x40\0\0\0\x20\0\0\0\0\0\0\0",
};

/// A directory of one entry.
pub const ROOT: Bytes = Bytes {
    vaddr: 67,
    at: 0,
    bytes: *b"\x02\0\0\0\0\0\0\0\x01\0\0\0\0\0\0\0\0\0\0\0\0\0\0\0",
};

/// The address 71 of the root.
pub const ROOT_ADDRESS: Bytes = Bytes {
    vaddr: 67,
    at: 192,
    bytes: *b"\x47\0\0\0\0\0\0\0\0\0\0\0\0\0\0\0\0\0\0\0\0\0\0\0",
};

const OTHER_ADDRESS: Bytes = Bytes {
    vaddr: 67,
    at: 192,
    bytes: *b"\x48\0\0\0\0\0\0\0\0\0\0\0\0\0\0\0\0\0\0\0\0\0\0\0",
};

/// A directory without entries.
const EMPTY_ROOT: Bytes = Bytes {
    vaddr: 67,
    at: 0,
    bytes: *b"\x02\0\0\0\0\0\0\0\0\0\0\0\0\0\0\0\0\0\0\0\0\0\0\0",
};

const NO_ADDRESS: Bytes = Bytes {
    vaddr: 67,
    at: 192,
    bytes: [0; 24],
};

/// A file of 8192 bytes and generation 1.
const FILE: Bytes = Bytes {
    vaddr: 67,
    at: 256,
    bytes: *b"\x01\0\0\0\x01\0\0\0\0\x20\0\0\0\0\0\0\0\0\0\0\0\0\0\0",
};

/// The file's first pointer, to page 256 under 3, and half of the second, to page 257.
const POINTERS: Bytes = Bytes {
    vaddr: 67,
    at: 320,
    bytes: *b"\0\x01\0\0\0\0\0\0\x03\0\0\0\0\0\0\0\x01\x01\0\0\0\0\0\0",
};

/// The write sequence number of the file's second pointer, 4.
const SECOND: Bytes = Bytes {
    vaddr: 67,
    at: 344,
    bytes: *b"\x04\0\0\0\0\0\0\0\0\0\0\0\0\0\0\0\0\0\0\0\0\0\0\0",
};

const SECOND_AS_FIRST: Bytes = Bytes {
    vaddr: 67,
    at: 344,
    bytes: *b"\x03\0\0\0\0\0\0\0\0\0\0\0\0\0\0\0\0\0\0\0\0\0\0\0",
};

/// The second pointer names page 259.
const SECOND_NAMES_259: Bytes = Bytes {
    vaddr: 67,
    at: 320,
    bytes: *b"\0\x01\0\0\0\0\0\0\x03\0\0\0\0\0\0\0\x03\x01\0\0\0\0\0\0",
};

/// Node 2 has kind 3.
const KIND_3: Bytes = Bytes {
    vaddr: 67,
    at: 512,
    bytes: *b"\x03\0\0\0\0\0\0\0\0\0\0\0\0\0\0\0\0\0\0\0\0\0\0\0",
};

/// Node 1 of generation 1 under the name a.
pub const ENTRY: Bytes = Bytes {
    vaddr: 71,
    at: 0,
    bytes: *b"\x01\0\0\0\x01\0\0\0\x01a\0\0\0\0\0\0\0\0\0\0\0\0\0\0",
};

const OLD_ENTRY: Bytes = Bytes {
    vaddr: 71,
    at: 0,
    bytes: *b"\x01\0\0\0\0\0\0\0\x01a\0\0\0\0\0\0\0\0\0\0\0\0\0\0",
};

/// Something behind the entry.
const BEHIND: Bytes = Bytes {
    vaddr: 71,
    at: 64,
    bytes: [1; 24],
};

/// The super page as an image.
const IMAGE: Bytes = Bytes {
    vaddr: 2,
    at: 0,
    bytes: *b"NAMELESS\x01\0\0\0\x20\0\0\0\x20\0\0\0\0\0\0\0",
};

/// The count of calls of the super page as an image, 2.
const IMAGE_COUNT: Bytes = Bytes {
    vaddr: 2,
    at: 24,
    bytes: *b"\x02\0\0\0\0\0\0\0\0\0\0\0\0\0\0\0\0\0\0\0\0\0\0\0",
};

/// Transaction 1 of one page.
const HEADER: Bytes = Bytes {
    vaddr: 1,
    at: 0,
    bytes: *b"NLHEADER\x01\0\0\0\0\0\0\0\x01\0\0\0\0\0\0\0",
};

const COMMIT: Bytes = Bytes {
    vaddr: 66,
    at: 0,
    bytes: *b"NLCOMMIT\x01\0\0\0\0\0\0\0\0\0\0\0\0\0\0\0",
};

/// The commit page of transaction 2.
const COMMIT_2: Bytes = Bytes {
    vaddr: 66,
    at: 0,
    bytes: *b"NLCOMMIT\x02\0\0\0\0\0\0\0\0\0\0\0\0\0\0\0",
};

/// A page of the medium.
#[derive(Clone, Copy)]
pub struct Row {
    pub page: u32,
    pub what: Content,
}

/// What a page of the medium is written as.
#[derive(Clone, Copy)]
pub enum Content {
    /// The page of an address under a number.
    Metadata { vaddr: u32, stamp: u64 },
    /// A page of node 1 under a number, with one byte.
    Data { index: u32, stamp: u64, byte: u8 },
}

/// The page of that number with the page of an address, under a write sequence number.
pub fn metadata(page: u32, vaddr: u32, stamp: u64) -> Row {
    Row {
        page,
        what: Content::Metadata { vaddr, stamp },
    }
}

/// The page of that number with the page of an index of node 1, under a write sequence number, with one byte.
pub fn data(page: u32, index: u32, stamp: u64, byte: u8) -> Row {
    Row {
        page,
        what: Content::Data { index, stamp, byte },
    }
}

// The bytes of the page, the later ones over the earlier ones.
fn write(what: &Content, bytes: &[Bytes], buf: &mut PageBuf) {
    match *what {
        Content::Metadata { vaddr, .. } => {
            for row in bytes {
                if row.vaddr == vaddr && row.at <= 4000 {
                    buf.set_main(row.at, &row.bytes);
                }
            }
        }
        Content::Data { byte, .. } => buf.set_main(0, &[byte]),
    }
}

fn record_of(what: &Content) -> SpareRec {
    match *what {
        Content::Metadata { vaddr, stamp } => SpareRec::Virtual {
            vaddr,
            stamp,
            wear: 0,
        },
        Content::Data { index, stamp, .. } => SpareRec::Physical {
            tag: Tag {
                ino: 1,
                generation: 1,
                index,
            },
            stamp,
            wear: 0,
        },
    }
}

fn fill(what: &Content, bytes: &[Bytes], buf: &mut PageBuf) {
    buf.clear();
    buf.set_spare(&spare_with(&record_of(what)));
    write(what, bytes, buf);
}

// Writes pages, which rise, and these bytes of addresses. Whether each is written.
fn write_rows(media: &mut MemNand, rows: &[Row], bytes: &[Bytes], buf: &mut PageBuf) -> bool
    requires geometry { geometry_of media.old ≡ record { blocks = 32; pages = 32 } }
    requires erased { ErasedWithin (contents_of media.old) 0 1024 }
{
    let mut next = 0;
    'rows: for row in rows {
        if row.page < next || row.page >= 1024 {
            return false;
        }
        fill(&row.what, bytes, buf);
        if put(media, row.page, buf) != WriteAnswer::Done {
            return false;
        }
        next = row.page + 1;
    }
    true
}

/// A medium with these pages, which rise, and these bytes of addresses.
pub fn image(alloc: Global, rows: &[Row], bytes: &[Bytes]) -> Result<MemNand, Memory> {
    let mut buf = PageBuf::new(alloc)?;
    let Some(mut media) = formed(alloc) else {
        return Err(Memory);
    };
    if write_rows(&mut media, rows, bytes, &mut buf) {
        Ok(media)
    } else {
        drop(media);
        Err(Memory)
    }
}

/// What is found of a medium.
pub fn checked_of(alloc: Global, media: MemNand) -> Checked {
    let (checked, media) = findings(alloc, media);
    drop(media);
    checked
}

const BYTES: [Bytes; 11] = [
    SUPER,
    ROOT,
    ROOT_ADDRESS,
    FILE,
    POINTERS,
    SECOND,
    ENTRY,
    HEADER,
    IMAGE,
    IMAGE_COUNT,
    COMMIT,
];

// What is found of the volume with these changes, and with these pages besides; with the journal where it is asked for.
fn found(alloc: Global, changes: &[Bytes], more: &[Row], journal: bool) -> Result<Checked, Memory> {
    let mut bytes = BYTES.to_vec(alloc)?;
    bytes.extend_from_slice(changes)?;
    let mut rows = [metadata(0, 67, 5), metadata(1, 0, 6), metadata(2, 71, 7)].to_vec(alloc)?;
    if journal {
        rows.extend_from_slice(&[metadata(3, 1, 10), metadata(4, 2, 11), metadata(5, 66, 12)])?;
    }
    rows.extend_from_slice(&[data(256, 0, 3, 1), data(257, 1, 4, 2)])?;
    rows.extend_from_slice(more)?;
    Ok(checked_of(alloc, image(alloc, &rows, &bytes)?))
}

/// The findings with just this one.
pub fn only(what: What) -> Findings {
    let mut bits = Findings::none();
    bits.add(what);
    bits
}

/// Whether a check found just these, and so many calls.
pub fn is_found(checked: &Checked, wanted: Findings, calls: u64) -> bool {
    match checked {
        Checked::Found { bits, count } => *bits == wanted && *count == calls,
        _ => false,
    }
}

/// Whether just the wanted is found of the volume with these changes and pages, after so many calls.
fn is_right(
    alloc: Global,
    changes: &[Bytes],
    more: &[Row],
    journal: bool,
    wanted: Findings,
    calls: u64,
) -> Result<bool, Memory> {
    let checked = found(alloc, changes, more, journal)?;
    Ok(is_found(&checked, wanted, calls))
}

// What is found of each volume with two changes; where it is less than three phases, one is repeated.
const FAULTS: [([Bytes; 2], [What; 3]); 10] = [
    ([OTHER_BLOCKS, OTHER_BLOCKS], [What::Super; 3]),
    ([KIND_3, KIND_3], [What::Inode; 3]),
    (
        [OTHER_ADDRESS, OTHER_ADDRESS],
        [What::Pages, What::Entry, What::Entry],
    ),
    ([OLD_ENTRY, OLD_ENTRY], [What::Entry; 3]),
    ([BEHIND, BEHIND], [What::Entry; 3]),
    ([EMPTY_ROOT, NO_ADDRESS], [What::Entry; 3]),
    (
        [SECOND_AS_FIRST, SECOND_AS_FIRST],
        [What::Pointer, What::Names, What::Names],
    ),
    ([KIND_3, OTHER_BLOCKS], [What::Super; 3]),
    ([KIND_3, SECOND_AS_FIRST], [What::Inode; 3]),
    (
        [SECOND_AS_FIRST, OLD_ENTRY],
        [What::Entry, What::Pointer, What::Names],
    ),
];

/// The findings with just these.
pub fn all_of(whats: &[What]) -> Findings {
    let mut bits = Findings::none();
    for what in whats {
        bits.add(*what);
    }
    bits
}

// How many of the faults are found before the first that is not.
fn faults_found(alloc: Global) -> Result<usize, Memory> {
    for (at, fault) in FAULTS.iter().enumerate() {
        let (changes, whats) = *fault;
        if !is_right(alloc, &changes, &[], false, all_of(&whats), 0)? {
            return Ok(at);
        }
    }
    Ok(FAULTS.len())
}

// One change for each phase, and two at once. A node whose directory has no page is not reached, and a second pointer with the number of
// the first names a page that holds another one. After the super page, and after a node, nothing more is told.
#[test]
fn all_faults(rt: HostRuntime) -> Result<(), Fail> {
    assert_eq!(rt; faults_found(rt.alloc())?, FAULTS.len());
    Ok(())
}

// A page that differs from a lower one, alone and beside other faults, a name that another page took, and no fault.
fn others_right(alloc: Global) -> Result<bool, Memory> {
    let none = Findings::none();
    let stamp = only(What::Stamp);
    let both = all_of(&[What::Stamp, What::Inode]);
    let first = only(What::Super);
    let names = only(What::Names);
    let other = [SECOND_NAMES_259, SECOND];
    Ok(
        is_right(alloc, &[ROOT], &[], false, none, 0)?
            && is_right(alloc, &[ROOT], &[data(258, 0, 3, 9)], false, stamp, 0)?
            && is_right(alloc, &[KIND_3], &[data(258, 0, 3, 9)], false, both, 0)?
            && is_right(
                alloc,
                &[OTHER_BLOCKS],
                &[data(258, 0, 3, 9)],
                false,
                first,
                0,
            )?
            && is_right(alloc, &[ROOT], &[data(258, 0, 3, 1)], false, none, 0)?
            && is_right(alloc, &other, &[data(259, 7, 9, 1)], false, names, 0)?
            && is_right(alloc, &other, &[], false, none, 0)?,
    )
}

#[test]
fn beside_other_pages(rt: HostRuntime) -> Result<(), Fail> {
    assert!(rt; others_right(rt.alloc())?);
    Ok(())
}

// A transaction with another count of calls: it counts with its own commit page, and with no other one.
#[test]
fn with_a_transaction(rt: HostRuntime) -> Result<(), Fail> {
    let alloc = rt.alloc();
    let none = Findings::none();
    let right = is_right(alloc, &[ROOT], &[], true, none, 2)?
        && is_right(alloc, &[COMMIT_2], &[], true, none, 0)?;
    assert!(rt; right);
    Ok(())
}

// No page is readable, or none was formed.
fn are_blank(alloc: Global) -> Result<bool, Memory> {
    let erased = checked_of(alloc, image(alloc, &[], &[ROOT])?);
    let media = MemNand::new(alloc, FailList::new(alloc), FailList::new(alloc), None);
    let unformed = checked_of(alloc, media);
    Ok(is_blank(&erased) && is_blank(&unformed))
}

#[test]
fn without_pages(rt: HostRuntime) -> Result<(), Fail> {
    assert!(rt; are_blank(rt.alloc())?);
    Ok(())
}

fn is_blank(checked: &Checked) -> bool {
    match checked {
        Checked::Blank => true,
        _ => false,
    }
}
