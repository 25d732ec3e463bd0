//! The pointers of files as a walk gathers them, each with the owner of its page and the size of its file.
ghost use Rattle.std.specs.Prelude.{◌≡◌, ◌<◌, ◌+◌, ◌^◌, [], ◌∷◌, ◌++◌, length, map, slice_get, Some, IfOk, OnOk, OnErr};
ghost use Rattle.nl_recover_pointers.specs.Held.{held_of};

use nl_field::{Memory, Pointer, PointerList, Tag};
use std::alloc::Global;
use std::marker::Model;

/// A pointer of a file, with the size of the file and the owner that its page has.
#[derive(Clone, Copy, Debug, PartialEq, Eq)]
pub struct HeldPointer {
    pub size: u64,
    pub tag: Tag,
    pub pointer: Pointer,
}

/// The pointers of files, in their order.
#[derive(Debug, Drop)]
pub struct HeldList {
    list: Vec<HeldPointer>,
}

impl Model for HeldList {
    ghost use Rattle.std.specs.Prelude.{◌<◌, ◌^◌, length, map, List};
    ghost use Rattle.nl_meta.specs.Nodes.{Held};
    ghost use Rattle.nl_recover_pointers.specs.Held.{held_of};

    ghost Value = { List Held };

    ghost view = { λ h. map held_of h.list.items };

    ghost invariant = { λ h. length h.list.items < 2 ^ 32 };
}

impl HeldList {
    /// The empty list. It takes no memory.
    pub fn new(alloc: Global) -> Self
        ensures { result ≡ [] }
    {
        HeldList {
            list: Vec::new(alloc),
        }
    }

    /// Adds a pointer behind the others.
    pub fn push(&mut self, held: HeldPointer) -> Result<(), Memory>
        requires few { length self.old + 1 < 2 ^ 32 }
        ensures ok { OnOk result (self.new ≡ self.old ++ held_of held ∷ []) }
        ensures err { OnErr result (self.new ≡ self.old) }
    {
        self.list.push(held)?;
        Ok(())
    }

    /// How many pointers the list has.
    pub fn len(&self) -> u32
        ensures count { result ≡ length self.now }
    {
        self.list.len() as u32
    }

    /// The pointer at a place below the length.
    pub fn get(&self, at: u32) -> &HeldPointer
        requires { at < length self.now }
        ensures { slice_get self.now at ≡ Some (held_of result.now) }
    {
        &self.list[at as usize]
    }

    /// The pointers alone, in the same order.
    pub fn pointers(&self, alloc: Global) -> Result<PointerList, Memory>
        ensures { IfOk result (λ p. p.items ≡ map (λ h. h.pointer) self.now) }
    {
        let mut pointers = PointerList::new(alloc);
        'held: for at in 0..self.len() {
            pointers.push(self.get(at).pointer)?;
        }
        Ok(pointers)
    }
}
