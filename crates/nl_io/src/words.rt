//! The words of a command line.
ghost use Rattle.std.specs.Prelude.{◌≡◌, ◌<◌, ◌+◌, ◌^◌, ◌-◌, [], ◌∷◌, ◌++◌, Some, length, OnOk, OnErr, slice_get};

use nl_field::{Memory, Text};
use std::alloc::Global;
use std::marker::Model;

/// The words of a command line, each a list of bytes.
#[derive(Debug, Drop)]
pub struct Words {
    alloc: Global,
    words: Vec<Text>,
}

impl Model for Words {
    ghost use Rattle.std.specs.Prelude.{List, ℕ, ◌<◌, ◌^◌, length};

    ghost Value = { List (List ℕ) };

    ghost view = { λ w. w.words.items };

    ghost invariant = { λ w. length w.words.items < 2 ^ 32 };
}

impl Words {
    /// No words. It takes no memory.
    pub fn new(alloc: Global) -> Self
        ensures { result ≡ [] }
    {
        Words {
            alloc,
            words: Vec::new(alloc),
        }
    }

    /// Adds a copy of the word at the end.
    pub fn push(&mut self, word: &[u8]) -> Result<(), Memory>
        requires { length self.old + 1 < 2 ^ 32 }
        ensures ok { OnOk result (self.new ≡ self.old ++ word.now ∷ []) }
        ensures err { OnErr result (self.new ≡ self.old) }
    {
        let word = Text::of(self.alloc, word)?;
        self.words.push(word)?;
        Ok(())
    }

    /// How many words there are.
    pub fn len(&self) -> u32
        ensures { result ≡ length self.now }
    {
        self.words.len() as u32
    }

    /// The word at a place below the length.
    pub fn get(&self, at: u32) -> &Text
        requires { at < length self.now }
        ensures { slice_get self.now at ≡ Some result.now }
    {
        &self.words[at as usize]
    }

    /// All words, in order.
    pub fn as_slice(&self) -> &[Text]
        ensures { result.now ≡ self.now }
    {
        &self.words
    }
}
