//! Pointers to pages under names: written to a page, and read from one.
ghost use Rattle.std.specs.Prelude.{◌≡◌, ◌≤◌, ◌+◌, ◌++◌, IsTrue, IsSome, Some, length, take, drop, bytes_eq};
ghost use Rattle.nl_field.specs.Spelling.{Decodes};
ghost use Rattle.nl_field.specs.Pointers.{pointer_bytes, pointer_of, is_pointer, is_none_pointer, fits_pointer};

use crate::PageBuf;
use crate::numbers::{pointer_from, put_pointer};

/// The name of a physical page, which is a page number, and the write sequence number that its page holds.
/// Both are 0 for no pointer.
#[derive(Clone, Copy, Debug, PartialEq, Eq)]
pub struct Pointer {
    pub name: u32,
    pub stamp: u64,
}

/// The owner of a physical page: a node, the node's generation, and the index of the page in its file.
#[derive(Clone, Copy, Debug, PartialEq, Eq)]
pub struct Tag {
    pub ino: u32,
    pub generation: u32,
    pub index: u32,
}

impl Pointer {
    /// The pointer that the 16 main bytes from an offset on spell, None exactly where they spell none. Zeros spell no
    /// pointer, with name and sequence number 0.
    pub fn of(page: &PageBuf, at: u32) -> Option<Pointer>
        requires { at + 16 ≤ 4096 }
        ensures value { result ≡ pointer_of (take 16 (drop at page.now.main)) }
        ensures reads { Decodes fits_pointer is_pointer pointer_bytes (take 16 (drop at page.now.main)) result }
    {
        let at = at as usize;
        read(&page.main()[at..at + 16])
    }

    /// The pointer that 16 main bytes from an offset on spell that spell one. It looks at nothing but the pointer.
    pub fn spelled_at(page: &PageBuf, at: u32) -> Pointer
        requires inside { at + 16 ≤ 4096 }
        requires spelled { IsSome (pointer_of (take 16 (drop at page.now.main))) }
        ensures { pointer_of (take 16 (drop at page.now.main)) ≡ Some result }
    {
        let at = at as usize;
        spelled(&page.main()[at..at + 16])
    }

    /// Writes the pointer's one spelling over the 16 main bytes from an offset on. Its sequence number is from 1 and below
    /// 2^63, or it is no pointer.
    pub fn into_page(&self, page: &mut PageBuf, at: u32)
        requires inside { at + 16 ≤ 4096 }
        requires spelled { IsTrue (is_pointer self.now) }
        ensures main { page.new.main ≡ take at page.old.main ++ pointer_bytes self.now ++ drop (at + 16) page.old.main }
        ensures spare { page.new.spare ≡ page.old.spare }
        ensures back { pointer_of (pointer_bytes self.now) ≡ Some self.now }
    {
        let bytes = self.spelling();
        page.set_main(at as usize, &bytes);
    }

    /// Whether it is no pointer.
    pub fn is_none(&self) -> bool
        ensures { result ≡ is_none_pointer self.now }
    {
        self.name == 0 && self.stamp == 0
    }

    /// Whether it has a spelling: it is no pointer, or its write sequence number is at least 1 and below 2^63.
    pub(crate) fn is_spelled(&self) -> bool
        ensures { result ≡ is_pointer self.now }
    {
        self.is_none() || 1 <= self.stamp && self.stamp < 1 << 63
    }

    fn spelling(&self) -> [u8; 16]
        ensures bytes { result ≡ pointer_bytes self.now }
        ensures fits { IsTrue (fits_pointer self.now) }
    {
        let mut out = [0; 16];
        put_pointer(&mut out, self);
        out
    }

    fn is_in(&self, bytes: &[u8]) -> bool
        ensures { result ≡ bytes_eq (pointer_bytes self.now) bytes.now }
    {
        let again = self.spelling();
        &again[..] == bytes
    }
}

fn read(bytes: &[u8]) -> Option<Pointer>
    requires { length bytes.now ≡ 16 }
    ensures value { result ≡ pointer_of bytes.now }
    ensures reads { Decodes fits_pointer is_pointer pointer_bytes bytes.now result }
{
    decode(bytes)
}

#[tactic(auto, unfolding(crate::specs::Pointers::pointer_of))]
fn spelled(bytes: &[u8]) -> Pointer
    requires length { length bytes.now ≡ 16 }
    requires spelled { IsSome (pointer_of bytes.now) }
    ensures { pointer_of bytes.now ≡ Some result }
{
    pointer_from(bytes)
}

#[tactic(auto, unfolding(crate::specs::Pointers::pointer_of))]
fn decode(bytes: &[u8]) -> Option<Pointer>
    requires { length bytes.now ≡ 16 }
    ensures { result ≡ pointer_of bytes.now }
{
    let pointer = pointer_from(bytes);
    if pointer.is_spelled() && pointer.is_in(bytes) {
        Some(pointer)
    } else {
        None
    }
}
