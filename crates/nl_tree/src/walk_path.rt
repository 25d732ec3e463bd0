//! The path of a walk over a tree, whose room is taken beforehand.
ghost use Rattle.std.specs.Prelude.{◌≡◌, ◌<◌, ◌≤◌, ◌^◌, ◌+◌, ◌↔◌, [], ◌∷◌, ◌++◌, length, take, IfOk, IsSome, slice_get, Some};
ghost use Rattle.std.specs.Option.{option_to_list};

use crate::Names;
use nl_field::{Memory, Name};
use std::alloc::Global;
use std::marker::Model;

/// A path with room for so many names of at most 55 bytes. Only `new` takes memory: a walk over a tree begins with the
/// room for the longest path.
#[derive(Debug, Drop)]
pub struct WalkPath {
    names: Vec<Name>,
    room: u32,
}

impl Model for WalkPath {
    ghost use Rattle.std.specs.Prelude.{List, ℕ, ◌≤◌, length, vec_capacity};
    ghost use Rattle.nl_tree.specs.Calls.{RoomyPath};

    ghost Value = { RoomyPath };

    ghost view = { λ p. record { names = p.names.items; room = p.room } };

    ghost invariant = { λ p. (length p.names.items ≤ p.room) × (p.room ≤ vec_capacity p.names) };
}

impl WalkPath {
    /// The root, with room for so many names.
    pub fn new(alloc: Global, room: u32) -> Result<Self, Memory>
        ensures { IfOk result (λ p. p ≡ record { names = []; room = room }) }
    {
        Ok(WalkPath {
            names: Vec::with_capacity(alloc, room as usize)?,
            room,
        })
    }

    /// Adds a name at the end.
    pub fn push(&mut self, name: Name)
        requires room { length self.old.names < self.old.room }
        ensures { self.new ≡ record { names = self.old.names ++ name ∷ []; room = self.old.room } }
    {
        self.names.push_reserved(name);
    }

    /// Takes the last name off.
    pub fn pop(&mut self) -> Option<Name>
        ensures names { self.old.names ≡ self.new.names ++ option_to_list result }
        ensures some { IsSome result ↔ (0 < length self.old.names) }
        ensures room { self.new.room ≡ self.old.room }
    {
        self.names.pop()
    }

    /// Keeps so many names from the root on.
    pub fn shorten(&mut self, count: u32)
        ensures { self.new ≡ record { names = take count self.old.names; room = self.old.room } }
    {
        self.names.truncate(count as usize);
    }

    /// Becomes the root.
    pub fn clear(&mut self)
        ensures { self.new ≡ record { names = []; room = self.old.room } }
    {
        self.names.clear();
    }

    /// The count of names, which is at most the room.
    pub fn len(&self) -> u32
        ensures count { result ≡ length self.now.names }
        ensures within { length self.now.names ≤ self.now.room }
    {
        let _room = self.room;
        self.names.len() as u32
    }
}

impl Names for WalkPath {
    ghost names = { λ p. p.names };

    fn count(&self) -> u32 {
        self.len()
    }

    fn name_at(&self, at: u32) -> &[u8] {
        self.names[at as usize].bytes()
    }
}
