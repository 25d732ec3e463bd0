//! The lines of a script, each a call of a worker in a round.
ghost use Rattle.std.specs.Prelude.{◌≡◌, ◌==◌, ◌<◌, ◌≤◌, ◌+◌, ◌^◌, [], ◌∷◌, ◌++◌, length, All, OnOk, OnErr, Some, slice_get, find};
ghost use Rattle.nl_tree.specs.Calls.{IsLine, AreLines};

use crate::Line;
use nl_field::Memory;
use std::alloc::Global;
use std::marker::Model;

/// The lines of a script, in its order. Their numbers rise from 1 on, their rounds do not fall, their workers are 0 to 7,
/// and each call has names in its paths and at most 65,536 bytes to write or read.
#[derive(Debug, Drop)]
pub struct Lines {
    lines: Vec<Line>,
}

impl Model for Lines {
    ghost use Rattle.std.specs.Prelude.{List, ◌<◌, ◌^◌, length};
    ghost use Rattle.nl_tree.specs.Calls.{AreLines};
    ghost use Rattle.nl_tree.specs.declared.call.Line.{Line};

    ghost Value = { List Line };

    ghost view = { λ l. l.lines.items };

    ghost invariant = { λ l. (length l.lines.items < 2 ^ 32) × AreLines l.lines.items };
}

impl Lines {
    /// No lines. It takes no memory.
    pub fn new(alloc: Global) -> Self
        ensures { result ≡ [] }
    {
        Lines {
            lines: Vec::new(alloc),
        }
    }

    /// Adds a line behind the others: of a number above theirs, and of no earlier round.
    pub fn push(&mut self, line: Line) -> Result<(), Memory>
        requires room { length self.old + 1 < 2 ^ 32 }
        requires line { IsLine line }
        requires rising { All (λ l. (l.line < line.line) × (l.round ≤ line.round)) self.old }
        ensures ok { OnOk result (self.new ≡ self.old ++ line ∷ []) }
        ensures err { OnErr result (self.new ≡ self.old) }
    {
        self.lines.push(line)?;
        Ok(())
    }

    /// How many lines there are.
    pub fn len(&self) -> u32
        ensures count { result ≡ length self.now }
    {
        self.lines.len() as u32
    }

    /// The line at a position from 0. It is the line of its number.
    pub fn get(&self, at: u32) -> &Line
        requires { at < length self.now }
        ensures line { slice_get self.now at ≡ Some result.now }
        ensures found { find (λ l. l.line == result.now.line) self.now ≡ Some result.now }
        ensures bounded { IsLine result.now }
    {
        &self.lines[at as usize]
    }

    /// All lines, in the order of the script.
    pub fn as_slice(&self) -> &[Line]
        ensures lines { result.now ≡ self.now }
        ensures small { length self.now < 2 ^ 32 }
        ensures each { AreLines self.now }
    {
        &self.lines
    }

    /// All lines, in the order of the script, without a copy.
    pub fn into_vec(self) -> Vec<Line>
        ensures lines { result.items ≡ self }
        ensures small { length result.items < 2 ^ 32 }
        ensures each { AreLines result.items }
    {
        self.lines
    }
}
