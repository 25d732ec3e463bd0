//! A list of pointers whose room is taken beforehand.
ghost use Rattle.std.specs.Prelude.{◌≡◌, ◌<◌, ◌≤◌, ◌+◌, ◌-◌, ◌^◌, [], ◌∷◌, ◌++◌, length, take, drop, slice_set, slice_get, Some, OnOk, OnErr, IsOk};

use crate::{Memory, Pointer};
use std::alloc::Global;
use std::marker::Model;

/// A list of pointers, and room for more of them. A push within the room always succeeds.
#[derive(Debug, Drop)]
pub struct PointerList {
    list: Vec<Pointer>,
}

impl Model for PointerList {
    ghost use Rattle.std.specs.Prelude.{◌<◌, ◌-◌, ◌^◌, length, vec_capacity};
    ghost use Rattle.nl_field.specs.PointerItems.{PointerItems};

    ghost Value = { PointerItems };

    ghost view = { λ p. record { items = p.list.items; room = vec_capacity p.list - length p.list.items } };

    ghost invariant = { λ p. length p.list.items < 2 ^ 32 };
}

impl PointerList {
    /// The empty list. It takes no memory.
    pub fn new(alloc: Global) -> Self
        ensures { result.items ≡ [] }
    {
        PointerList {
            list: Vec::new(alloc),
        }
    }

    /// Adds a pointer behind the others.
    pub fn push(&mut self, pointer: Pointer) -> Result<(), Memory>
        requires few { length self.old.items + 1 < 2 ^ 32 }
        ensures ok { OnOk result (self.new.items ≡ self.old.items ++ pointer ∷ []) }
        ensures err { OnErr result (self.new.items ≡ self.old.items) }
        ensures succeeds { 0 < self.old.room → IsOk result }
        ensures room { self.old.room ≤ self.new.room + 1 }
    {
        self.list.push(pointer)?;
        Ok(())
    }

    /// Takes room for that many more.
    pub fn reserve(&mut self, more: u32) -> Result<(), Memory>
        ensures ok { OnOk result (more ≤ self.new.room) }
        ensures items { self.new.items ≡ self.old.items }
        ensures room { self.old.room ≤ self.new.room }
    {
        self.list.reserve(more as usize)?;
        Ok(())
    }

    /// How many pointers there are.
    pub fn len(&self) -> u32
        ensures count { result ≡ length self.now.items }
    {
        self.list.len() as u32
    }

    /// The pointer at a place below the length.
    pub fn get(&self, at: u32) -> &Pointer
        requires { at < length self.now.items }
        ensures { slice_get self.now.items at ≡ Some result.now }
    {
        &self.list[at as usize]
    }

    /// Puts a pointer in the place of another, below the length.
    pub fn set(&mut self, at: u32, to: Pointer)
        requires { at < length self.old.items }
        ensures items { self.new.items ≡ slice_set self.old.items at to }
        ensures room { self.new.room ≡ self.old.room }
    {
        self.list[at as usize] = to;
    }

    /// Keeps the first pointers, at most all. The room of the others is given back.
    pub fn shorten(&mut self, len: u32)
        requires { len ≤ length self.old.items }
        ensures items { self.new.items ≡ take len self.old.items }
        ensures room { self.new.room ≡ self.old.room + (length self.old.items - len) }
    {
        self.list.truncate(len as usize);
    }

    /// Drops the first pointers, at most all. Their room is given back.
    pub fn drop_first(&mut self, count: u32)
        requires { count ≤ length self.old.items }
        ensures items { self.new.items ≡ drop count self.old.items }
        ensures room { self.new.room ≡ self.old.room + count }
    {
        let len = self.list.len();
        self.list.copy_within(count as usize.., 0);
        self.list.truncate(len - count as usize);
    }
}
