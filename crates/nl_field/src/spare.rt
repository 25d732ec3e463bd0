//! The record in the spare bytes of a page: written to a page, and read from one.
ghost use Rattle.std.specs.Prelude.{◌≡◌, IsTrue, Some};
ghost use Rattle.nl_field.specs.Spelling.{Decodes};
ghost use Rattle.nl_field.specs.declared.spare.SpareRec.TheVariants.{Virtual, Physical};
ghost use Rattle.nl_field.specs.SpareRecord.{spare_bytes, spare_rec_of, spare_fields, is_spare, fits_spare};

use crate::Tag;
use crate::numbers::{put_u32, put_u64, u32_from, u64_from};

/// What the spare bytes of a page spell: a page of a virtual address, or a page of an owner, each with its write sequence
/// number and the count of erases of its block as it was programmed.
#[derive(Clone, Copy, Debug, PartialEq, Eq)]
pub enum SpareRec {
    Virtual { vaddr: u32, stamp: u64, wear: u32 },
    Physical { tag: Tag, stamp: u64, wear: u32 },
}

/// The record that 64 spare bytes spell, None exactly where they spell none.
pub fn spare_of(bytes: &[u8; 64]) -> Option<SpareRec>
    ensures value { result ≡ spare_rec_of bytes.now }
    ensures reads { Decodes fits_spare is_spare spare_bytes bytes.now result }
{
    read(bytes)
}

/// Writes the record's one spelling. Its sequence number is from 1 and below 2^63.
pub fn spare_into(rec: &SpareRec, out: &mut [u8; 64])
    requires { IsTrue (is_spare rec.now) }
    ensures bytes { out.new ≡ spare_bytes rec.now }
    ensures back { spare_rec_of (spare_bytes rec.now) ≡ Some rec.now }
{
    put(rec, out);
}

#[tactic(auto, unfolding(crate::specs::SpareRecord::spare_rec_of))]
fn read(bytes: &[u8; 64]) -> Option<SpareRec>
    ensures { result ≡ spare_rec_of bytes.now }
{
    let rec = fields(bytes);
    if !is_spelled(&rec) {
        return None;
    }
    let mut again = [0; 64];
    put(&rec, &mut again);
    if again == *bytes { Some(rec) } else { None }
}

#[tactic(auto, unfolding(crate::specs::SpareRecord::spare_fields))]
fn fields(bytes: &[u8; 64]) -> SpareRec
    ensures { result ≡ spare_fields bytes.now }
{
    let wear = u32_from(bytes, 4);
    let stamp = u64_from(bytes, 8);
    if bytes[0] == 1 {
        return SpareRec::Virtual {
            vaddr: u32_from(bytes, 16),
            stamp,
            wear,
        };
    }
    let tag = Tag {
        ino: u32_from(bytes, 16),
        generation: u32_from(bytes, 20),
        index: u32_from(bytes, 24),
    };
    SpareRec::Physical { tag, stamp, wear }
}

fn is_spelled(rec: &SpareRec) -> bool
    ensures { result ≡ is_spare rec.now }
{
    let stamp = match *rec {
        SpareRec::Virtual { stamp, .. } => stamp,
        SpareRec::Physical { stamp, .. } => stamp,
    };
    1 <= stamp && stamp < 1 << 63
}

#[tactic(auto, unfolding(crate::specs::SpareRecord::fits_spare))]
fn put(rec: &SpareRec, out: &mut [u8; 64])
    ensures bytes { out.new ≡ spare_bytes rec.now }
    ensures fits { IsTrue (fits_spare rec.now) }
{
    match *rec {
        SpareRec::Virtual { vaddr, stamp, wear } => put_virtual(vaddr, stamp, wear, out),
        SpareRec::Physical { tag, stamp, wear } => put_physical(
            tag.ino,
            tag.generation,
            tag.index,
            stamp,
            wear,
            out,
        ),
    }
}

fn put_virtual(vaddr: u32, stamp: u64, wear: u32, out: &mut [u8; 64])
    ensures { out.new ≡ spare_bytes (Virtual vaddr stamp wear) }
{
    *out = [0; 64];
    out[0] = 1;
    put_u32(out, 4, wear);
    put_u64(out, 8, stamp);
    put_u32(out, 16, vaddr);
}

#[tactic(auto, unfolding(crate::specs::SpareRecord::fits_spare))]
fn put_physical(ino: u32, generation: u32, index: u32, stamp: u64, wear: u32, out: &mut [u8; 64])
    ensures bytes { out.new ≡ spare_bytes (Physical (record { ino = ino; generation = generation; index = index }) stamp wear) }
    ensures fits { IsTrue (fits_spare (Physical (record { ino = ino; generation = generation; index = index }) stamp wear)) }
{
    *out = [0; 64];
    out[0] = 2;
    put_u32(out, 4, wear);
    put_u64(out, 8, stamp);
    put_u32(out, 16, ino);
    put_u32(out, 20, generation);
    put_u32(out, 24, index);
}
