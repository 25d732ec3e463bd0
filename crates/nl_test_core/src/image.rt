// A small full volume, byte by byte, on 32 blocks of 32 pages: 64 nodes in addresses 67 to 70, the pool from 71 on, and the pages of files
// from page 256 on. The root has file `a`, node 1, and directory `d`, node 2, which has file `b`, node 3. Of the 480 pages that its files
// may have, `a` has 464 and `b` 16.
ghost use Rattle.std.specs.Prelude.{◌≡◌, ◌+◌, ◌<◌, ◌≤◌, IfOk, IfSome};
ghost use Rattle.nl_nand.specs.Memory.{contents_of, geometry_of};
ghost use Rattle.nl_nand.specs.Nand.{ErasedWithin};

use nl_field::{FailList, Memory, PageBuf, SpareRec, Tag, spare_into};
use nl_nand::{FormAnswer, MemNand, Nand, Stop, WriteAnswer};
use std::alloc::Global;

/// How many pages the files have.
pub const PAGES: u32 = 480;

/// The addresses of the volume: of the super page, of the nodes, of the entries of the root, of the pointers of `a`, of the entries of `d`,
/// and of the pointers of `b`.
pub const ADDRESSES: [u32; 7] = [0, 67, 71, 72, 73, 74, 75];

/// How many live pages each block from 8 on begins with. The other pages of a block that has some were live once.
pub type Layout = [u32; 24];

/// Where a pointer stands: the address of its page, and the offset in it.
#[derive(Clone, Copy)]
pub struct Slot {
    pub vaddr: u32,
    pub at: usize,
}

/// Where the pointer of that page stands. The first eight pointers of a file stand in its node. Of `a` the next 256 stand in address 72,
/// and the others in address 73; of `b` the next eight in address 75.
pub fn slot_of(number: u32) -> Slot
    requires { number < 480 }
    ensures { result.at ≤ 4080 }
{
    if number < 8 {
        Slot {
            vaddr: 67,
            at: (320 + 16 * number) as usize,
        }
    } else if number < 264 {
        Slot {
            vaddr: 72,
            at: (16 * (number - 8)) as usize,
        }
    } else if number < 464 {
        Slot {
            vaddr: 73,
            at: (16 * (number - 264)) as usize,
        }
    } else if number < 472 {
        Slot {
            vaddr: 67,
            at: (832 + 16 * (number - 464)) as usize,
        }
    } else {
        Slot {
            vaddr: 75,
            at: (16 * (number - 472)) as usize,
        }
    }
}

/// The owner of that page.
pub fn tag(number: u32) -> Tag {
    if number < 464 {
        Tag {
            ino: 1,
            generation: 1,
            index: number,
        }
    } else {
        Tag {
            ino: 3,
            generation: 2,
            index: number - 464,
        }
    }
}

/// The write sequence number of that page.
pub fn stamp(number: u32) -> u64
    requires { number < 1024 }
    ensures first { 0 < result }
    ensures last { result < 4096 }
{
    100 + u64::from(number)
}

/// The bytes of that page.
pub fn fill_data(number: u32, buf: &mut PageBuf) {
    buf.clear();
    buf.set_main(0, &number.to_le_bytes());
    buf.set_main(90, &[0xa5]);
}

/// Where bytes stand: the address of their page, and the offset in it.
struct Bytes {
    slot: Slot,
    bytes: [u8; 24],
}

/// The bytes of the volume beside its count of calls and its pointers.
const BYTES: [Bytes; 9] = [
    // `NAMELESS`, version 1, 32 blocks of 32 pages,
    Bytes {
        slot: Slot { vaddr: 0, at: 0 },
        bytes: *b"NAMELESS\x01\0\0\0\x20\0\0\0\x20\0\0\0\0\0\0\0",
    },
    // the root, of two entries, in address 71,
    Bytes {
        slot: Slot { vaddr: 67, at: 0 },
        bytes: *b"\x02\0\0\0\0\0\0\0\x02\0\0\0\0\0\0\0\0\0\0\0\0\0\0\0",
    },
    Bytes {
        slot: Slot { vaddr: 67, at: 192 },
        bytes: *b"\x47\0\0\0\0\0\0\0\0\0\0\0\0\0\0\0\0\0\0\0\0\0\0\0",
    },
    // file `a`, of generation 1 and 464 pages of bytes, with addresses 72 and 73,
    Bytes {
        slot: Slot { vaddr: 67, at: 256 },
        bytes: *b"\x01\0\0\0\x01\0\0\0\0\0\x1d\0\0\0\0\0\0\0\0\0\0\0\0\0",
    },
    Bytes {
        slot: Slot { vaddr: 67, at: 448 },
        bytes: *b"\x48\0\0\0\x49\0\0\0\0\0\0\0\0\0\0\0\0\0\0\0\0\0\0\0",
    },
    // directory `d`, of generation 1 and one entry, in address 74,
    Bytes {
        slot: Slot { vaddr: 67, at: 512 },
        bytes: *b"\x02\0\0\0\x01\0\0\0\x01\0\0\0\0\0\0\0\0\0\0\0\0\0\0\0",
    },
    Bytes {
        slot: Slot { vaddr: 67, at: 704 },
        bytes: *b"\x4a\0\0\0\0\0\0\0\0\0\0\0\0\0\0\0\0\0\0\0\0\0\0\0",
    },
    // file `b`, of generation 2, with 15 pages and 100 bytes, and address 75,
    Bytes {
        slot: Slot { vaddr: 67, at: 768 },
        bytes: *b"\x01\0\0\0\x02\0\0\0\x64\xf0\0\0\0\0\0\0\0\0\0\0\0\0\0\0",
    },
    Bytes {
        slot: Slot { vaddr: 67, at: 960 },
        bytes: *b"\x4b\0\0\0\0\0\0\0\0\0\0\0\0\0\0\0\0\0\0\0\0\0\0\0",
    },
];

/// The entries: node 1 of generation 1 under `a` and node 2 of generation 1 under `d`, and in address 74 node 3 of generation 2 under `b`.
const ENTRIES: [Bytes; 3] = [
    Bytes {
        slot: Slot { vaddr: 71, at: 0 },
        bytes: *b"\x01\0\0\0\x01\0\0\0\x01a\0\0\0\0\0\0\0\0\0\0\0\0\0\0",
    },
    Bytes {
        slot: Slot { vaddr: 71, at: 64 },
        bytes: *b"\x02\0\0\0\x01\0\0\0\x01d\0\0\0\0\0\0\0\0\0\0\0\0\0\0",
    },
    Bytes {
        slot: Slot { vaddr: 74, at: 0 },
        bytes: *b"\x03\0\0\0\x02\0\0\0\x01b\0\0\0\0\0\0\0\0\0\0\0\0\0\0",
    },
];

fn put_bytes(rows: &[Bytes], vaddr: u32, buf: &mut PageBuf) {
    for row in rows {
        if row.slot.vaddr == vaddr && row.slot.at <= 4000 {
            buf.set_main(row.slot.at, &row.bytes);
        }
    }
}

fn put_pointer(number: u32, name: u32, buf: &mut PageBuf)
    requires { number < 480 }
{
    let slot = slot_of(number);
    buf.set_main(slot.at, &name.to_le_bytes());
    buf.set_main(slot.at + 8, &stamp(number).to_le_bytes());
}

/// The bytes of an address after so many calls, where the pages of the files have these names, in the order of their numbers.
pub fn fill_metadata(vaddr: u32, names: &[u32], calls: u64, buf: &mut PageBuf) {
    buf.clear();
    put_bytes(&BYTES, vaddr, buf);
    put_bytes(&ENTRIES, vaddr, buf);
    if vaddr == 0 {
        buf.set_main(24, &calls.to_le_bytes());
    }
    for number in 0..PAGES {
        if slot_of(number).vaddr == vaddr {
            match names.get(number as usize) {
                Some(name) => put_pointer(number, *name, buf),
                None => {}
            }
        }
    }
}

/// The numbers of the reads and of the programs and erases that fail, and where the medium stops.
#[derive(Drop)]
pub struct Plan {
    pub reads: FailList,
    pub writes: FailList,
    pub stop: Option<Stop>,
}

/// A medium of 32 blocks of 32 pages.
fn formed(alloc: Global, plan: Plan) -> Result<MemNand, Memory>
    ensures geometry { IfOk result (λ m. geometry_of m ≡ record { blocks = 32; pages = 32 }) }
    ensures erased { IfOk result (λ m. ErasedWithin (contents_of m) 0 1024) }
{
    let Plan {
        reads,
        writes,
        stop,
    } = plan;
    let mut media = MemNand::new(alloc, reads, writes, stop);
    match media.form(32, 32) {
        FormAnswer::Done => Ok(media),
        _ => {
            drop(media);
            Err(Memory)
        }
    }
}

/// Programs a page behind all that were written.
fn put(media: &mut MemNand, page: u32, buf: &PageBuf) -> WriteAnswer
    requires within { page < 1024 }
    requires geometry { geometry_of media.old ≡ record { blocks = 32; pages = 32 } }
    requires erased { ErasedWithin (contents_of media.old) page 1024 }
    ensures geometry { geometry_of media.new ≡ record { blocks = 32; pages = 32 } }
    ensures erased { ErasedWithin (contents_of media.new) (page + 1) 1024 }
{
    media.program(page, buf)
}

/// How many calls the volume has answered.
pub const CALLS: u64 = 7;

/// What a page of the medium holds.
#[derive(Clone, Copy)]
enum Content {
    Erased,
    /// The page of that place among the addresses.
    Metadata(usize),
    /// The page of that number of a file.
    Data(u32),
    /// A page of that place that was live once.
    Dead(u32),
}

/// A page of an address.
fn put_virtual(vaddr: u32, stamp: u64, buf: &mut PageBuf)
    requires first { 0 < stamp }
    requires last { stamp < 4096 }
{
    let rec = SpareRec::Virtual {
        vaddr,
        stamp,
        wear: 0,
    };
    let mut out = [0u8; 64];
    spare_into(&rec, &mut out);
    buf.set_spare(&out);
}

/// A page of a file.
fn put_physical(tag: Tag, stamp: u64, buf: &mut PageBuf)
    requires first { 0 < stamp }
    requires last { stamp < 4096 }
{
    let rec = SpareRec::Physical {
        tag,
        stamp,
        wear: 0,
    };
    let mut out = [0u8; 64];
    spare_into(&rec, &mut out);
    buf.set_spare(&out);
}

fn fill(content: Content, names: &[u32], buf: &mut PageBuf) {
    match content {
        Content::Erased => {}
        Content::Metadata(at) => {
            if at < ADDRESSES.len() {
                let vaddr = ADDRESSES[at];
                fill_metadata(vaddr, names, CALLS, buf);
                put_virtual(vaddr, at as u64 + 1, buf);
            }
        }
        Content::Data(number) => {
            if number < PAGES {
                fill_data(number, buf);
                put_physical(tag(number), stamp(number), buf);
            }
        }
        Content::Dead(page) => {
            if page < 1024 {
                fill_data(9999, buf);
                put_physical(tag(page % PAGES), 1000 + u64::from(page), buf);
            }
        }
    }
}

/// What each page holds.
fn contents(alloc: Global, layout: &Layout) -> Result<Vec<Content>, Memory> {
    let mut rows = vec![in alloc; Content::Erased; 1024]?;
    lay_metadata(&mut rows);
    lay_data(&mut rows, layout);
    Ok(rows)
}

fn lay_metadata(rows: &mut [Content]) {
    for at in 0..ADDRESSES.len() {
        if let Some(row) = rows.get_mut(at) {
            *row = Content::Metadata(at);
        }
    }
}

fn lay_data(rows: &mut [Content], layout: &Layout) {
    let mut number = 0u32;
    for block in 0..24 {
        let live = layout[block];
        for place in 0..32 {
            let page = 256 + 32 * block as u32 + place;
            if let Some(row) = rows.get_mut(page as usize) {
                *row = if live == 0 {
                    Content::Erased
                } else if place < live {
                    Content::Data(number)
                } else {
                    Content::Dead(page)
                };
            }
            if place < live {
                number = number.saturating_add(1);
            }
        }
    }
}

/// The names of the pages of the files, by their numbers.
fn names(alloc: Global, contents: &[Content]) -> Result<Vec<u32>, Memory> {
    let mut names = Vec::new(alloc);
    for (page, content) in contents.iter().enumerate() {
        if let Content::Data(_) = content
            && page < 1024
        {
            names.push(page as u32)?;
        }
    }
    Ok(names)
}

/// Whether each page could be programmed, one after the other.
fn put_all(media: &mut MemNand, contents: &[Content], names: &[u32], buf: &mut PageBuf) -> bool
    requires geometry { geometry_of media.old ≡ record { blocks = 32; pages = 32 } }
    requires erased { ErasedWithin (contents_of media.old) 0 1024 }
{
    'pages: for page in 0..1024 {
        match contents.get(page as usize) {
            None | Some(Content::Erased) => {}
            Some(content) => {
                fill(*content, names, buf);
                if put(media, page, buf) != WriteAnswer::Done {
                    return false;
                }
            }
        }
    }
    true
}

/// The medium of the volume. Its pages are programmed, and then its calls begin.
pub fn image(alloc: Global, layout: &Layout, plan: Plan) -> Result<MemNand, Memory> {
    let contents = contents(alloc, layout)?;
    let found = with_contents(alloc, &contents, plan);
    drop(contents);
    found
}

fn with_contents(alloc: Global, contents: &[Content], plan: Plan) -> Result<MemNand, Memory> {
    let names = names(alloc, contents)?;
    let found = with_names(alloc, contents, &names, plan);
    drop(names);
    found
}

// The same, with a buffer of its own.
fn put_with_buf(
    alloc: Global,
    media: &mut MemNand,
    contents: &[Content],
    names: &[u32],
) -> Result<bool, Memory>
    requires geometry { geometry_of media.old ≡ record { blocks = 32; pages = 32 } }
    requires erased { ErasedWithin (contents_of media.old) 0 1024 }
{
    let mut buf = PageBuf::new(alloc)?;
    let done = put_all(media, contents, names, &mut buf);
    drop(buf);
    Ok(done)
}

fn with_names(
    alloc: Global,
    contents: &[Content],
    names: &[u32],
    plan: Plan,
) -> Result<MemNand, Memory> {
    let mut media = formed(alloc, plan)?;
    let done = put_with_buf(alloc, &mut media, contents, names);
    if done == Ok(true) {
        Ok(media)
    } else {
        drop(media);
        Err(Memory)
    }
}
