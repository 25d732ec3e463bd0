//! The record of a node in 256 bytes of a page: read from them, and written to them.
ghost use Rattle.std.specs.Prelude.{◌≡◌, ◌≤◌, ◌+◌, ◌++◌, ◌==◌, not, IsTrue, IsSome, Some, length, take, drop, bytes_eq};
ghost use Rattle.std.specs.List.{list_all};
ghost use Rattle.nl_field.specs.Bytes.{all_zero};
ghost use Rattle.nl_field.specs.Spelling.{Decodes};
ghost use Rattle.nl_field.specs.Pointers.{is_pointer, is_none_pointer};
ghost use Rattle.nl_field.specs.Inode.{inode_bytes, inode_of, inode_fields, is_inode, is_inode_of_kind, fits_inode, are_filled, kind_byte, kind_of};

use crate::limits::{MAX_ENTRIES, MAX_FILE_SIZE};
use crate::numbers::{
    pointers_from, put_pointers, put_u32, put_u32s, put_u64, u32_from, u32s_from, u64_from,
};
use crate::{PageBuf, Pointer};

/// What a node is.
#[derive(Clone, Copy, Debug, PartialEq, Eq)]
pub enum Kind {
    Unused,
    File,
    Dir,
}

/// The record of a node.
#[derive(Clone, Copy, Debug)]
pub struct InodeRec {
    pub kind: Kind,
    pub generation: u32,
    /// Bytes of a file, entries of a directory.
    pub size: u64,
    /// The pointers of a file's first 8 pages; name and sequence number 0 for none.
    pub direct: [Pointer; 8],
    /// Virtual addresses, 0 for none: of a file's pages of 256 pointers each, or of a directory's pages of 64 entries each.
    pub addresses: [u32; 16],
}

impl InodeRec {
    /// The record that the 256 main bytes from an offset on spell, None exactly where they spell none.
    pub fn of(page: &PageBuf, at: u32) -> Option<InodeRec>
        requires { at + 256 ≤ 4096 }
        ensures value { result ≡ inode_of (take 256 (drop at page.now.main)) }
        ensures reads { Decodes fits_inode is_inode inode_bytes (take 256 (drop at page.now.main)) result }
    {
        let at = at as usize;
        read(&page.main()[at..at + 256])
    }

    /// The record that 256 main bytes from an offset on spell that spell one. It looks at nothing but the record.
    pub fn spelled_at(page: &PageBuf, at: u32) -> InodeRec
        requires inside { at + 256 ≤ 4096 }
        requires spelled { IsSome (inode_of (take 256 (drop at page.now.main))) }
        ensures { inode_of (take 256 (drop at page.now.main)) ≡ Some result }
    {
        let at = at as usize;
        spelled(&page.main()[at..at + 256])
    }

    /// Writes the record's one spelling over the 256 main bytes from an offset on. An unused node has nothing but its
    /// generation; a file has a size of at most 16,809,984 and spelled pointers; a directory has at most 1024 entries, no
    /// pointers, and an address that is not 0 for each 64 entries and no more.
    pub fn into_page(&self, page: &mut PageBuf, at: u32)
        requires inside { at + 256 ≤ 4096 }
        requires spelled { IsTrue (is_inode self.now) }
        ensures main { page.new.main ≡ take at page.old.main ++ inode_bytes self.now ++ drop (at + 256) page.old.main }
        ensures spare { page.new.spare ≡ page.old.spare }
        ensures back { inode_of (inode_bytes self.now) ≡ Some self.now }
    {
        let bytes = self.spelling();
        page.set_main(at as usize, &bytes);
    }

    #[tactic(auto, unfolding(crate::specs::Inode::is_inode_of_kind))]
    fn is_spelled(&self) -> bool
        ensures { result ≡ is_inode self.now }
    {
        match self.kind {
            Kind::Unused => {
                self.size == 0 && are_none(&self.direct) && are_zero(&self.addresses)
            }
            Kind::File => self.size <= MAX_FILE_SIZE && are_pointers(&self.direct),
            Kind::Dir => {
                self.size <= u64::from(MAX_ENTRIES)
                    && are_none(&self.direct)
                    && have_filled(self.size.div_ceil(64) as usize, &self.addresses)
            }
        }
    }

    fn is_in(&self, bytes: &[u8]) -> bool
        ensures { result ≡ bytes_eq (inode_bytes self.now) bytes.now }
    {
        let again = self.spelling();
        &again[..] == bytes
    }

    #[tactic(auto, unfolding(crate::specs::Inode::fits_inode))]
    fn spelling(&self) -> [u8; 256]
        ensures bytes { result ≡ inode_bytes self.now }
        ensures fits { IsTrue (fits_inode self.now) }
    {
        let generation = self.generation;
        let mut out = [0; 256];
        out[0] = byte_of(self.kind);
        put_u32(&mut out, 4, generation);
        put_u64(&mut out, 8, self.size);
        put_pointers(&mut out, 64, &self.direct);
        put_u32s(&mut out, 192, &self.addresses);
        out
    }
}

fn read(bytes: &[u8]) -> Option<InodeRec>
    requires { length bytes.now ≡ 256 }
    ensures value { result ≡ inode_of bytes.now }
    ensures reads { Decodes fits_inode is_inode inode_bytes bytes.now result }
{
    decode(bytes)
}

#[tactic(auto, unfolding(crate::specs::Inode::inode_of))]
fn spelled(bytes: &[u8]) -> InodeRec
    requires length { length bytes.now ≡ 256 }
    requires spelled { IsSome (inode_of bytes.now) }
    ensures { inode_of bytes.now ≡ Some result }
{
    fields(bytes)
}

#[tactic(auto, unfolding(crate::specs::Inode::inode_of))]
fn decode(bytes: &[u8]) -> Option<InodeRec>
    requires { length bytes.now ≡ 256 }
    ensures { result ≡ inode_of bytes.now }
{
    let rec = fields(bytes);
    if rec.is_spelled() && rec.is_in(bytes) {
        Some(rec)
    } else {
        None
    }
}

#[tactic(auto, unfolding(crate::specs::Inode::inode_fields))]
fn fields(bytes: &[u8]) -> InodeRec
    requires { length bytes.now ≡ 256 }
    ensures { result ≡ inode_fields bytes.now }
{
    let none = Pointer { name: 0, stamp: 0 };
    let mut direct = [none; 8];
    pointers_from(&bytes[64..], &mut direct);
    let mut addresses = [0; 16];
    u32s_from(&bytes[192..], &mut addresses);
    InodeRec {
        kind: kind_from(bytes[0]),
        generation: u32_from(bytes, 4),
        size: u64_from(bytes, 8),
        direct,
        addresses,
    }
}

fn byte_of(kind: Kind) -> u8
    ensures { result ≡ kind_byte kind }
{
    match kind {
        Kind::Unused => 0,
        Kind::File => 1,
        Kind::Dir => 2,
    }
}

fn kind_from(byte: u8) -> Kind
    ensures { result ≡ kind_of byte }
{
    match byte {
        1 => Kind::File,
        2 => Kind::Dir,
        _ => Kind::Unused,
    }
}

fn are_none(pointers: &[Pointer]) -> bool
    ensures { result ≡ list_all is_none_pointer pointers.now }
{
    for pointer in pointers {
        if !pointer.is_none() {
            return false;
        }
    }
    true
}

fn are_pointers(pointers: &[Pointer]) -> bool
    ensures { result ≡ list_all is_pointer pointers.now }
{
    for pointer in pointers {
        if !pointer.is_spelled() {
            return false;
        }
    }
    true
}

fn are_zero(numbers: &[u32]) -> bool
    ensures { result ≡ all_zero numbers.now }
{
    for number in numbers {
        if *number != 0 {
            return false;
        }
    }
    true
}

// Whether the first addresses, so many, are not 0, and the others are.
fn have_filled(count: usize, addresses: &[u32]) -> bool
    ensures { result ≡ are_filled count addresses.now }
{
    if addresses.len() < count {
        return false;
    }
    are_not_zero(&addresses[..count]) && are_zero(&addresses[count..])
}

fn are_not_zero(numbers: &[u32]) -> bool
    ensures { result ≡ list_all (λ number. not (number == 0)) numbers.now }
{
    for number in numbers {
        if *number == 0 {
            return false;
        }
    }
    true
}
