//! Which calls are to fail, by number.
ghost use Rattle.std.specs.Prelude.{◌≡◌, ◌<◌, ◌↔◌, [], ◌∷◌, ◌++◌, All, Contains, length, slice_get, Some, IsTrue, OnOk, OnErr};
ghost use Rattle.nl_field.specs.FailNumbers.{AreFailNumbers};

use crate::Memory;
use std::alloc::Global;
use std::marker::Model;

/// The rising list of the numbers, from 1, of the calls that fail.
#[derive(Debug, Drop)]
pub struct FailList {
    numbers: Vec<u64>,
}

impl Model for FailList {
    ghost use Rattle.std.specs.Prelude.{List, ℕ};
    ghost use Rattle.nl_field.specs.FailNumbers.{AreFailNumbers};

    ghost Value = { List ℕ };

    ghost view = { λ f. f.numbers.items };

    ghost invariant = { λ f. AreFailNumbers f.numbers.items };
}

impl FailList {
    /// The empty list. It takes no memory.
    pub fn new(alloc: Global) -> Self
        ensures { result ≡ [] }
    {
        FailList {
            numbers: Vec::new(alloc),
        }
    }

    /// Adds a number above the last.
    pub fn push(&mut self, number: u64) -> Result<(), Memory>
        requires first { 0 < number }
        requires rising { All (λ n. n < number) self.old }
        ensures ok { OnOk result (self.new ≡ self.old ++ number ∷ []) }
        ensures err { OnErr result (self.new ≡ self.old) }
    {
        self.numbers.push(number)?;
        Ok(())
    }

    /// How many numbers it has. They rise, from 1.
    pub fn len(&self) -> usize
        ensures count { result ≡ length self.now }
        ensures rising { AreFailNumbers self.now }
    {
        self.numbers.len()
    }

    /// The number at a position from 0.
    pub fn get(&self, at: usize) -> u64
        requires { at < length self.now }
        ensures number { slice_get self.now at ≡ Some result }
        ensures first { 0 < result }
    {
        self.numbers[at]
    }

    /// Whether the call of this number fails.
    pub fn has(&self, number: u64) -> bool
        ensures { IsTrue result ↔ Contains self.now number }
    {
        self.numbers.contains(&number)
    }
}
