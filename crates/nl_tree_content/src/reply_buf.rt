//! The bytes of a reply, whose room is taken beforehand.
ghost use Rattle.std.specs.Prelude.{◌≡◌, ◌<◌, ◌≤◌, ◌+◌, [], ◌∷◌, ◌++◌, length, IfOk, Some, slice_get};
ghost use Rattle.nl_field.specs.Numbers.{max_bytes};

use nl_field::{MAX_BYTES, Memory};
use std::alloc::Global;
use std::marker::Model;

/// Room for the bytes of a reply: the content that was read, or the names as they are printed. Only `new` takes memory.
#[derive(Debug, Drop)]
pub struct ReplyBuf {
    bytes: Vec<u8>,
}

impl Model for ReplyBuf {
    ghost use Rattle.std.specs.Prelude.{List, ℕ, ◌≤◌, vec_capacity, length};
    ghost use Rattle.nl_field.specs.Numbers.{max_bytes};

    ghost Value = { List ℕ };

    ghost view = { λ b. b.bytes.items };

    ghost invariant = { λ b. (length b.bytes.items ≤ max_bytes) × (max_bytes ≤ vec_capacity b.bytes) };
}

impl ReplyBuf {
    /// No bytes.
    pub fn new(alloc: Global) -> Result<ReplyBuf, Memory>
        ensures { IfOk result (λ b. b ≡ []) }
    {
        Ok(ReplyBuf {
            bytes: Vec::with_capacity(alloc, MAX_BYTES)?,
        })
    }

    /// How many bytes there are.
    pub fn len(&self) -> u32
        ensures count { result ≡ length self.now }
        ensures room { length self.now ≤ max_bytes }
    {
        self.bytes.len() as u32
    }

    /// The byte at a place below the length.
    pub fn get(&self, at: u32) -> &u8
        requires { at < length self.now }
        ensures { slice_get self.now at ≡ Some result.now }
    {
        &self.bytes[at as usize]
    }

    /// All its bytes, in order.
    pub fn bytes(&self) -> &[u8]
        ensures bytes { result.now ≡ self.now }
        ensures room { length self.now ≤ max_bytes }
    {
        &self.bytes
    }

    /// Takes all bytes out.
    pub fn clear(&mut self)
        ensures { self.new ≡ [] }
    {
        self.bytes.clear();
    }

    /// Adds a byte at the end, where there are fewer than a reply may have.
    pub fn push(&mut self, byte: u8)
        requires { length self.old < max_bytes }
        ensures { self.new ≡ self.old ++ byte ∷ [] }
    {
        match self.bytes.push(byte) {
            Ok(()) => {}
            Err(_) => unreachable!(),
        }
    }

    /// Adds these bytes behind the others.
    pub fn extend(&mut self, more: &[u8])
        requires { length self.old + length more.now ≤ max_bytes }
        ensures { self.new ≡ self.old ++ more.now }
    {
        match self.bytes.extend_from_slice(more) {
            Ok(()) => {}
            Err(_) => unreachable!(),
        }
    }
}
