//! A short list of virtual addresses, without memory of its own.
ghost use Rattle.std.specs.Prelude.{◌≡◌, ◌<◌, ◌≤◌, [], ◌∷◌, ◌++◌, length, slice_index};

use std::marker::Model;

/// Up to 64 addresses, held in itself.
#[derive(Debug, Drop)]
pub struct AddressList {
    items: [u32; 64],
    len: u32,
}

impl Model for AddressList {
    ghost use Rattle.std.specs.Prelude.{List, ℕ, ◌≤◌, take};

    ghost Value = { List ℕ };

    ghost view = { λ a. take a.len a.items };

    ghost invariant = { λ a. a.len ≤ 64 };
}

impl AddressList {
    /// The empty list. It takes no memory.
    pub fn new() -> Self
        ensures { result ≡ [] }
    {
        AddressList {
            items: [0; 64],
            len: 0,
        }
    }

    /// Adds an address to fewer than 64.
    pub fn push(&mut self, address: u32)
        requires { length self.old < 64 }
        ensures { self.new ≡ self.old ++ address ∷ [] }
    {
        self.items[self.len as usize] = address;
        self.len += 1;
    }

    /// How many addresses there are, 0 to 64.
    pub fn len(&self) -> u32
        ensures count { result ≡ length self.now }
        ensures most { result ≤ 64 }
    {
        self.len
    }

    /// The address at a place below the length.
    pub fn get(&self, at: u32) -> &u32
        requires { at < length self.now }
        ensures { result.now ≡ slice_index self.now at }
    {
        &self.items[at as usize]
    }

    /// The addresses.
    pub fn as_slice(&self) -> &[u32]
        ensures value { result.now ≡ self.now }
        ensures most { length self.now ≤ 64 }
    {
        &self.items[..self.len as usize]
    }
}
