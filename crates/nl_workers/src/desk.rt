//! The answers of one worker, a row for each line.
ghost use Rattle.std.specs.Prelude.{◌≡◌, ◌+◌, ◌-◌, ◌<◌, ◌≤◌, ◌++◌, ◌∷◌, [], IfOk, IfSome, Some, slice_get, length, vec_len, vec_capacity};
ghost use Rattle.nl_field.specs.Numbers.{max_bytes};
ghost use Rattle.nl_tree.specs.Calls.{read_length};
ghost use Rattle.nl_workers.specs.Table.{kept_bytes};

use nl_field::Memory;
use nl_tree::{Answered, Call, ReplyBuf};
use std::alloc::Global;
use std::marker::Model;

/// The answer of one line: the line's number, and what its effect answered.
#[derive(Clone, Copy, Debug, PartialEq, Eq)]
pub struct LineAnswer {
    pub line: u32,
    pub answered: Answered,
}

/// An answer, and where its bytes stand.
#[derive(Drop)]
struct Filed {
    answer: LineAnswer,
    from: usize,
    len: usize,
}

/// The answers of one worker. Contracts see its rows, and for how many lines and bytes it has room.
#[derive(Drop)]
pub(crate) struct Desk {
    filed: Vec<Filed>,
    bytes: Vec<u8>,
    lines_left: u32,
    bytes_left: usize,
}

impl Model for Desk {
    ghost use Rattle.std.specs.Prelude.{vec_capacity};
    ghost use Rattle.nl_workers.specs.Table.{DeskState};
    ghost use Rattle.nl_workers.specs.Filing.{rows_of, IsFiled};

    ghost Value = { DeskState };

    ghost view = { λ d. record { rows = rows_of d.bytes.items d.filed.items; lines_left = d.lines_left; bytes_left = d.bytes_left } };

    ghost invariant = { λ d. IsFiled d.filed.items (vec_capacity d.filed) d.bytes.items (vec_capacity d.bytes) d.lines_left d.bytes_left };
}

impl Desk {
    /// A desk with room for so many lines and bytes.
    pub(crate) fn new(alloc: Global, lines: u32, bytes: usize) -> Result<Desk, Memory>
        ensures { IfOk result (λ d. d ≡ record { rows = []; lines_left = lines; bytes_left = bytes }) }
    {
        Ok(Desk {
            filed: Vec::with_capacity(alloc, lines as usize)?,
            bytes: Vec::with_capacity(alloc, bytes)?,
            lines_left: lines,
            bytes_left: bytes,
        })
    }

    /// Files an answer, with its bytes if they are no more than the call may answer.
    pub(crate) fn add(&mut self, line: u32, call: &Call, answered: Answered, out: &ReplyBuf)
        requires lines { 0 < self.old.lines_left }
        requires bytes { read_length call.now ≤ self.old.bytes_left }
        ensures rows { self.new.rows
            ≡ self.old.rows ++ record { line = line; answered = answered; bytes = kept_bytes (read_length call.now) out.now } ∷ [] }
        ensures lines { self.new.lines_left ≡ self.old.lines_left - 1 }
        ensures bytes { self.new.bytes_left ≡ self.old.bytes_left - read_length call.now }
        ensures out { length out.now ≤ max_bytes }
    {
        let room = room_of(call);
        let from = self.bytes.len();
        keep_bytes(&mut self.bytes, out.bytes(), room);
        let len = self.bytes.len() - from;
        self.filed.push_reserved(Filed {
            answer: LineAnswer { line, answered },
            from,
            len,
        });
        self.lines_left -= 1;
        self.bytes_left -= room;
    }

    /// How many lines the worker has answered.
    pub(crate) fn len(&self) -> u32
        ensures { result ≡ length self.now.rows }
    {
        self.filed.len() as u32
    }

    /// The answer at a place below the length, in the order in which they were given.
    pub(crate) fn get(&self, at: u32) -> &LineAnswer
        requires { at < length self.now.rows }
        ensures { IfSome (slice_get self.now.rows at) (λ row. (result.now.line ≡ row.line) × (result.now.answered ≡ row.answered)) }
    {
        &self.filed[at as usize].answer
    }

    /// The bytes of the reply.
    pub(crate) fn bytes(&self, at: u32) -> &[u8]
        requires { at < length self.now.rows }
        ensures { IfSome (slice_get self.now.rows at) (λ row. result.now ≡ row.bytes) }
    {
        let filed = &self.filed[at as usize];
        &self.bytes[filed.from..filed.from + filed.len]
    }
}

/// Adds bytes behind the others, if they are no more than there is room for.
fn keep_bytes(bytes: &mut Vec<u8>, out: &[u8], room: usize)
    requires { vec_len bytes.old + room ≤ vec_capacity bytes.old }
    ensures bytes { bytes.new.items ≡ bytes.old.items ++ kept_bytes room out.now }
    ensures few { length (kept_bytes room out.now) ≤ room }
    ensures capacity { vec_capacity bytes.old ≤ vec_capacity bytes.new }
{
    if out.len() <= room {
        match bytes.extend_from_slice(out) {
            Ok(()) => {}
            Err(_) => unreachable!(),
        }
    }
}

/// How many bytes the reply of a call may hold.
pub(crate) fn room_of(call: &Call) -> usize
    ensures { result ≡ read_length call.now }
{
    match call {
        Call::Read(_, _, len) => *len as usize,
        Call::List(_) => nl_field::MAX_BYTES,
        _ => 0,
    }
}
