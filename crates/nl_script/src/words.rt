// Cuts a line into its words.
ghost use Rattle.std.specs.Prelude.{◌≡◌, ◌<◌, ◌≤◌, ◌+◌, [], ◌∷◌, length, MatchOption};
ghost use Rattle.nl_script.specs.Words.{words_from, with_part};

use crate::cut::cut;
use std::marker::Model;

// A word, and the column of its first byte.
#[derive(Drop)]
pub(crate) struct Word<'a> {
    column: u32,
    bytes: &'a [u8],
}

impl<'a> Model for Word<'a> {
    ghost use Rattle.nl_script.specs.Words.{Word};

    ghost Value = { Word };

    ghost view = { λ w. record { column = w.column; bytes = w.bytes.now } };
}

impl<'a> Word<'a> {
    /// The column of its first byte in the line, from 1.
    pub(crate) fn column(&self) -> u32
        ensures { result ≡ self.now.column }
    {
        self.column
    }

    /// The bytes of the word.
    pub(crate) fn bytes(&self) -> &'a [u8]
        ensures { result.now ≡ self.now.bytes }
    {
        self.bytes
    }
}

// The words of a line that are left, from a column on.
#[derive(Drop)]
pub(crate) struct Words<'a> {
    column: u32,
    rest: &'a [u8],
}

impl<'a> Model for Words<'a> {
    ghost use Rattle.std.specs.Prelude.{List, ◌+◌, ◌≤◌, length};
    ghost use Rattle.nl_script.specs.Words.{Word, words_from};

    ghost Value = { List Word };

    ghost view = { λ w. words_from w.column w.rest.now };

    ghost invariant = { λ w. w.column + length w.rest.now ≤ 140001 };
}

impl<'a> Words<'a> {
    /// The words of a line of at most 140,000 bytes, none taken yet.
    pub(crate) fn of(line: &'a [u8]) -> Words<'a>
        requires { length line.now ≤ 140000 }
        ensures { result ≡ words_from 1 line.now }
    {
        Words {
            column: 1,
            rest: line,
        }
    }

    // Takes the first word off.
    pub(crate) fn next(&mut self) -> Option<Word<'a>>
        ensures { MatchOption result ((self.old ≡ []) × (self.new ≡ [])) (λ w. self.old ≡ w ∷ self.new) }
    {
        while !self.rest.is_empty() {
            let (part, column, rest) = first_part(self.rest, self.column);
            let word = Word {
                column: self.column,
                bytes: part,
            };
            self.column = column;
            self.rest = rest;
            if !part.is_empty() {
                return Some(word);
            }
        }
        None
    }
}

// The bytes before the first space, and the bytes behind it with their column.
fn first_part(bytes: &[u8], column: u32) -> (&[u8], u32, &[u8])
    requires some { 0 < length bytes.now }
    requires bound { column + length bytes.now ≤ 140001 }
    ensures words { words_from column bytes.now ≡ with_part column result.0.now (words_from result.1 result.2.now) }
    ensures bound { result.1 + length result.2.now ≤ 140001 }
    ensures shorter { length result.2.now < length bytes.now }
{
    let (part, after) = cut(bytes, b' ');
    match after {
        Some(after) => (part, column + part.len() as u32 + 1, after),
        None => (part, column + part.len() as u32, &[]),
    }
}
