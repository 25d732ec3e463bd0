//! The record of a directory entry: written to a page, and read from one.
ghost use Rattle.std.specs.Prelude.{◌≡◌, ◌↔◌, ◌≤◌, ◌+◌, ◌++◌, IsTrue, IsSome, IfSome, Some, length, take, drop, bytes_eq};
ghost use Rattle.nl_field.specs.Spelling.{Decodes};
ghost use Rattle.nl_field.specs.EntryRecord.{entry_bytes, entry_of, entry_fields, is_entry, fits_entry};

use crate::limits::MAX_NAME;
use crate::numbers::{put_u32, u32_from};
use crate::{Name, PageBuf};

/// An entry of a directory: the node that it names, that node's generation, and the name.
#[derive(Debug, Drop)]
pub struct EntryRec {
    pub ino: u32,
    pub generation: u32,
    pub name: Name,
}

impl EntryRec {
    /// The record that the 64 main bytes from an offset on spell, None exactly where they spell none.
    pub fn of(page: &PageBuf, at: u32) -> Option<EntryRec>
        requires { at + 64 ≤ 4096 }
        ensures value { result ≡ entry_of (take 64 (drop at page.now.main)) }
        ensures reads { Decodes fits_entry is_entry entry_bytes (take 64 (drop at page.now.main)) result }
    {
        let at = at as usize;
        read(&page.main()[at..at + 64])
    }

    /// The record that 64 main bytes from an offset on spell that spell one. It looks at nothing but the record.
    pub fn spelled_at(page: &PageBuf, at: u32) -> EntryRec
        requires inside { at + 64 ≤ 4096 }
        requires spelled { IsSome (entry_of (take 64 (drop at page.now.main))) }
        ensures { entry_of (take 64 (drop at page.now.main)) ≡ Some result }
    {
        let at = at as usize;
        spelled(&page.main()[at..at + 64])
    }

    /// Writes the record's one spelling over the 64 main bytes from an offset on.
    pub fn into_page(&self, page: &mut PageBuf, at: u32)
        requires { at + 64 ≤ 4096 }
        ensures main { page.new.main ≡ take at page.old.main ++ entry_bytes self.now ++ drop (at + 64) page.old.main }
        ensures spare { page.new.spare ≡ page.old.spare }
        ensures spelled { IsTrue (is_entry self.now) }
        ensures back { entry_of (entry_bytes self.now) ≡ Some self.now }
    {
        let bytes = self.spelling();
        page.set_main(at as usize, &bytes);
    }

    #[tactic(auto, unfolding(crate::specs::EntryRecord::fits_entry))]
    fn spelling(&self) -> [u8; 64]
        ensures bytes { result ≡ entry_bytes self.now }
        ensures fits { IsTrue (fits_entry self.now) }
        ensures spelled { IsTrue (is_entry self.now) }
    {
        let (ino, generation) = (self.ino, self.generation);
        let name = self.name.bytes();
        let mut out = [0; 64];
        put_u32(&mut out, 0, ino);
        put_u32(&mut out, 4, generation);
        out[8] = name.len() as u8;
        out[9..9 + name.len()].copy_from_slice(name);
        out
    }

    fn is_in(&self, bytes: &[u8]) -> bool
        ensures { result ≡ bytes_eq (entry_bytes self.now) bytes.now }
    {
        let again = self.spelling();
        &again[..] == bytes
    }
}

fn read(bytes: &[u8]) -> Option<EntryRec>
    requires { length bytes.now ≡ 64 }
    ensures value { result ≡ entry_of bytes.now }
    ensures reads { Decodes fits_entry is_entry entry_bytes bytes.now result }
{
    decode(bytes)
}

#[tactic(auto, unfolding(crate::specs::EntryRecord::entry_of))]
fn spelled(bytes: &[u8]) -> EntryRec
    requires length { length bytes.now ≡ 64 }
    requires spelled { IsSome (entry_of bytes.now) }
    ensures { entry_of bytes.now ≡ Some result }
{
    match fields(bytes) {
        Some(rec) => rec,
        None => unreachable!(),
    }
}

#[tactic(auto, unfolding(crate::specs::EntryRecord::entry_of))]
fn decode(bytes: &[u8]) -> Option<EntryRec>
    requires { length bytes.now ≡ 64 }
    ensures { result ≡ entry_of bytes.now }
{
    let rec = fields(bytes)?;
    if rec.is_in(bytes) { Some(rec) } else { None }
}

#[tactic(auto, unfolding(crate::specs::EntryRecord::entry_fields))]
fn fields(bytes: &[u8]) -> Option<EntryRec>
    requires { length bytes.now ≡ 64 }
    ensures value { IfSome result (λ rec. rec ≡ entry_fields bytes.now) }
    ensures spelled { IsSome result ↔ IsTrue (is_entry (entry_fields bytes.now)) }
{
    let len = bytes[8].min(MAX_NAME as u8) as usize;
    let name = Name::of(&bytes[9..9 + len])?;
    Some(EntryRec {
        ino: u32_from(bytes, 0),
        generation: u32_from(bytes, 4),
        name,
    })
}
