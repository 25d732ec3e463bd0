//! Paths as lists of names.
ghost use Rattle.std.specs.Prelude.{◌≡◌, ◌<◌, ◌^◌, ◌+◌, ◌↔◌, [], ◌∷◌, ◌++◌, length, OnOk, OnErr, IsSome, slice_get, Some};
ghost use Rattle.std.specs.Option.{option_to_list};

use nl_field::{Memory, Text};
use std::alloc::Global;
use std::marker::Model;

/// The most names of a path.
const MOST_NAMES: usize = 4_294_967_294;

/// A path as the list of its names from the root on. The empty list is the root.
#[derive(Debug, Drop)]
pub struct Path {
    names: Vec<Text>,
}

impl Model for Path {
    ghost use Rattle.std.specs.Prelude.{List, ℕ, ◌+◌, ◌<◌, ◌^◌, length};

    ghost Value = { List (List ℕ) };

    ghost view = { λ p. p.names.items };

    ghost invariant = { λ p. length p.names.items + 1 < 2 ^ 32 };
}

impl Path {
    /// The root. It takes no memory.
    pub fn new(alloc: Global) -> Self
        ensures { result ≡ [] }
    {
        Path {
            names: Vec::new(alloc),
        }
    }

    /// Adds a name at the end. There is no memory for more than 2^32 - 2 names.
    pub fn push(&mut self, name: Text) -> Result<(), Memory>
        ensures ok { OnOk result (self.new ≡ self.old ++ name ∷ []) }
        ensures err { OnErr result (self.new ≡ self.old) }
    {
        if self.names.len() >= MOST_NAMES {
            return Err(Memory);
        }
        self.names.push(name)?;
        Ok(())
    }

    /// Takes room for so many further names. The names stay.
    pub fn reserve(&mut self, more: u32) -> Result<(), Memory>
        ensures { self.new ≡ self.old }
    {
        self.names.reserve(more as usize)?;
        Ok(())
    }

    /// Becomes the root.
    pub fn clear(&mut self)
        ensures { self.new ≡ [] }
    {
        self.names.clear();
    }

    /// Takes the last name off.
    pub fn pop(&mut self) -> Option<Text>
        ensures names { self.old ≡ self.new ++ option_to_list result }
        ensures some { IsSome result ↔ (0 < length self.old) }
    {
        self.names.pop()
    }

    /// The count of names.
    pub fn len(&self) -> u32
        ensures count { result ≡ length self.now }
        ensures small { length self.now + 1 < 2 ^ 32 }
    {
        self.names.len() as u32
    }

    /// The name at a position from 0.
    pub fn get(&self, at: u32) -> &Text
        requires { at < length self.now }
        ensures { slice_get self.now at ≡ Some result.now }
    {
        &self.names[at as usize]
    }

    /// The names of the path, from the root on.
    pub fn names(&self) -> &[Text]
        ensures { result.now ≡ self.now }
    {
        &self.names
    }
}
