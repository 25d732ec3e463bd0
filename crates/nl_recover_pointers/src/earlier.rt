//! The write sequence numbers and the names that pointers before one have.
ghost use Rattle.std.specs.Prelude.{◌≡◌, not, ◌||◌, IfOk, OnOk};
ghost use Rattle.nl_recover_pointers.specs.Numbers.{AddsNumber, HasNone, has_number};

use crate::numbers::Numbers;
use nl_field::{Memory, Pointer};
use std::alloc::Global;

/// The write sequence numbers and the names of the pointers so far.
#[derive(Drop)]
pub struct Earlier {
    pub stamps: Numbers,
    pub names: Numbers,
}

impl Earlier {
    /// No numbers and no names, with places for so many of each.
    pub fn new(alloc: Global, count: usize) -> Result<Earlier, Memory>
        ensures stamps { IfOk result (λ earlier. HasNone earlier.stamps) }
        ensures names { IfOk result (λ earlier. HasNone earlier.names) }
    {
        let stamps = Numbers::new(alloc, count)?;
        let names = Numbers::new(alloc, count)?;
        Ok(Earlier { stamps, names })
    }

    /// Adds a pointer. Answers whether neither its write sequence number nor its name came before.
    pub fn add(&mut self, pointer: &Pointer) -> Result<bool, Memory>
        ensures is_new { IfOk result (λ is_new. is_new
            ≡ not (has_number self.old.stamps pointer.now.stamp || has_number self.old.names pointer.now.name)) }
        ensures stamps { OnOk result (AddsNumber self.old.stamps self.new.stamps pointer.now.stamp) }
        ensures names { OnOk result (AddsNumber self.old.names self.new.names pointer.now.name) }
    {
        let is_new = !self.has(pointer);
        self.stamps.add(pointer.stamp)?;
        self.names.add(pointer.name as u64)?;
        Ok(is_new)
    }

    // Whether the write sequence number of a pointer or its name came before.
    fn has(&self, pointer: &Pointer) -> bool
        ensures { result ≡ (has_number self.now.stamps pointer.now.stamp || has_number self.now.names pointer.now.name) }
    {
        self.stamps.contains(pointer.stamp) || self.names.contains(pointer.name as u64)
    }
}
