//! What the resident pages say: the super record, the records of nodes, and whether bytes are zero.
ghost use Rattle.std.specs.Prelude.{◌≡◌, ◌≤◌, ◌+◌, bytes_eq, drop, replicate, take};
ghost use Rattle.nl_field.specs.Bytes.{all_zero};
ghost use Rattle.nl_field.specs.Inode.{inode_of};
ghost use Rattle.nl_meta.specs.Nodes.{bytes_of_node, inode_at, super_of_pages};
ghost use Rattle.nl_meta.specs.Pages.{page_of};
ghost use Rattle.nl_recover.specs.Blank.{unused_record};

use nl_field::{InodeRec, Kind, PageBuf, Pointer, SuperRec};
use nl_meta::Meta;

/// The super record that the resident pages have.
pub(crate) fn super_rec(meta: &Meta) -> Option<SuperRec>
    ensures { result ≡ super_of_pages (page_of meta.now) }
{
    if meta.resident(0) {
        SuperRec::of(meta.page(0), 0)
    } else {
        None
    }
}

/// The record of a node that the resident pages have.
pub(crate) fn inode(meta: &Meta, ino: u32) -> Option<InodeRec>
    ensures { result ≡ inode_at (page_of meta.now) ino }
{
    let vaddr = 67 + ino / 16;
    if meta.resident(vaddr) {
        decode(meta.page(vaddr), 256 * (ino % 16))
    } else {
        None
    }
}

/// The record that 256 bytes of a page from an offset on spell. Most nodes of a volume were never used: zeros are known at a glance.
fn decode(page: &PageBuf, at: u32) -> Option<InodeRec>
    requires { at + 256 ≤ 4096 }
    ensures { result ≡ inode_of (take 256 (drop at page.now.main)) }
{
    if is_blank(page, at as usize) {
        return Some(unused());
    }
    InodeRec::of(page, at)
}

// The record of a node that was never used.
fn unused() -> InodeRec
    ensures { result ≡ unused_record }
{
    let none = Pointer { name: 0, stamp: 0 };
    InodeRec {
        kind: Kind::Unused,
        generation: 0,
        size: 0,
        direct: [none; 8],
        addresses: [0; 16],
    }
}

// Whether 256 bytes of a page from an offset on are zeros.
fn is_blank(page: &PageBuf, at: usize) -> bool
    requires { at + 256 ≤ 4096 }
    ensures { result ≡ bytes_eq (take 256 (drop at page.now.main)) (replicate 256 0) }
{
    are_same(&page.main()[at..at + 256], &[0; 256])
}

fn are_same(bytes: &[u8], others: &[u8; 256]) -> bool
    ensures { result ≡ bytes_eq bytes.now others.now }
{
    bytes == &others[..]
}

/// Whether the place of a node has nothing but zeros.
pub(crate) fn is_zero_node(meta: &Meta, ino: u32) -> bool
    ensures { result ≡ all_zero (bytes_of_node (page_of meta.now) ino) }
{
    let vaddr = 67 + ino / 16;
    if meta.resident(vaddr) {
        are_zero(meta.page(vaddr), 256 * (ino as usize % 16), 256)
    } else {
        true
    }
}

/// Whether so many bytes of a page from an offset on are zero.
pub(crate) fn are_zero(page: &PageBuf, at: usize, count: usize) -> bool
    requires { at + count ≤ 4096 }
    ensures { result ≡ all_zero (take count (drop at page.now.main)) }
{
    is_all_zero(&page.main()[at..at + count])
}

fn is_all_zero(bytes: &[u8]) -> bool
    ensures { result ≡ all_zero bytes.now }
{
    for byte in bytes {
        if *byte != 0 {
            return false;
        }
    }
    true
}
