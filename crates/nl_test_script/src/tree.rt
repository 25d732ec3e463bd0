//! The worked examples on the plain tree as a program. Each expected answer is written by hand.
ghost use Rattle.std.specs.Prelude.{IsTrue};
ghost use Rattle.nl_tree.specs.Calls.{HasFewBytes};

use nl_field::{Memory, Text, shape_of};
use nl_tree::{Call, Path, Refusal, Reply, ReplyBuf, Space};
use nl_tree_model::Plain;
use std::alloc::Global;

/// A call, with its path first.
#[derive(Clone, Copy)]
enum Step {
    Mkdir(&'static [u8]),
    Create(&'static [u8]),
    Rename(&'static [u8], &'static [u8]),
    Write(&'static [u8], u64, &'static [u8]),
    /// Writes the byte so many times.
    Fill(&'static [u8], u64, u32, u8),
    Unlink(&'static [u8]),
    Sync,
    Read(&'static [u8], u64, u32),
    Truncate(&'static [u8], u64),
    Stat(&'static [u8]),
    List(&'static [u8]),
    /// Creates so many files in a directory.
    CreateAll(&'static [u8], u32),
    /// Writes a byte into each of so many ranges of a file, from the first on.
    WriteRanges(&'static [u8], u64),
    /// Fills 30 times 16 pages of `/a`.
    FillAll(u8),
}

/// A call, its answer, and the bytes or the names that come with it.
type Row = (Step, Reply, &'static [u8]);

/// A plain tree.
#[derive(Drop)]
struct Run {
    alloc: Global,
    plain: Plain,
    out: ReplyBuf,
}

impl Run {
    fn new(alloc: Global, blocks: u32, pages: u32) -> Result<Option<Run>, Memory> {
        match shape_of(blocks, pages) {
            Some(shape) if shape.nodes > 0 => Ok(Some(Run {
                alloc,
                plain: Plain::new(alloc, shape)?,
                out: ReplyBuf::new(alloc)?,
            })),
            _ => Ok(None),
        }
    }

    /// Whether a call is answered so.
    fn ask(&mut self, call: &Call, reply: Reply, bytes: &[u8]) -> Result<bool, Memory> {
        if !is_bounded(call) {
            return Ok(false);
        }
        let got = self.plain.step(call, &mut self.out)?;
        Ok(got == reply && self.out.bytes() == bytes)
    }

    fn ask_step(&mut self, step: Step, reply: Reply, bytes: &[u8]) -> Result<bool, Memory> {
        let call = call_of(self.alloc, step)?;
        let is_so = self.ask(&call, reply, bytes);
        drop(call);
        is_so
    }

    fn creates(&mut self, directory: &[u8], number: u32) -> Result<bool, Memory> {
        let call = Call::Create(numbered(self.alloc, directory, number)?);
        let is_so = self.ask(&call, Reply::Done, b"");
        drop(call);
        is_so
    }

    fn creates_all(&mut self, directory: &[u8], count: u32) -> Result<bool, Memory> {
        for number in 0..count {
            if !self.creates(directory, number)? {
                return Ok(false);
            }
        }
        Ok(true)
    }

    fn writes_ranges(&mut self, file: &'static [u8], count: u64) -> Result<bool, Memory> {
        let mut at = 32768u64;
        for _ in 0..count {
            if !self.ask_step(Step::Write(file, at, b"a"), Reply::Count(1), b"")? {
                return Ok(false);
            }
            at = at.saturating_add(1048576);
        }
        Ok(true)
    }

    fn fills_all(&mut self, byte: u8) -> Result<bool, Memory> {
        for number in 0..30u64 {
            let fill = Step::Fill(b"/a", 65536 * number, 65536, byte);
            if !self.ask_step(fill, Reply::Count(65536), b"")? {
                return Ok(false);
            }
        }
        Ok(true)
    }

    fn row(&mut self, row: &Row) -> Result<bool, Memory> {
        let (step, reply, bytes) = *row;
        match step {
            Step::CreateAll(directory, count) => self.creates_all(directory, count),
            Step::WriteRanges(file, count) => self.writes_ranges(file, count),
            Step::FillAll(byte) => self.fills_all(byte),
            step => self.ask_step(step, reply, bytes),
        }
    }

    /// How many rows are answered so before the first that is not.
    fn rows(&mut self, rows: &[Row]) -> Result<usize, Memory> {
        for (at, row) in rows.iter().enumerate() {
            if !self.row(row)? {
                return Ok(at);
            }
        }
        Ok(rows.len())
    }
}

/// The call of a step that is one.
fn call_of(alloc: Global, step: Step) -> Result<Call, Memory> {
    match step {
        Step::Mkdir(at) => Ok(Call::Mkdir(path(alloc, at)?)),
        Step::Create(at) => Ok(Call::Create(path(alloc, at)?)),
        Step::Rename(from, to) => Ok(Call::Rename(path(alloc, from)?, path(alloc, to)?)),
        Step::Write(at, from, bytes) => {
            Ok(Call::Write(path(alloc, at)?, from, Text::of(alloc, bytes)?))
        }
        Step::Fill(at, from, len, byte) => Ok(Call::Fill(path(alloc, at)?, from, len, byte)),
        Step::Unlink(at) => Ok(Call::Unlink(path(alloc, at)?)),
        Step::Read(at, from, len) => Ok(Call::Read(path(alloc, at)?, from, len)),
        Step::Truncate(at, size) => Ok(Call::Truncate(path(alloc, at)?, size)),
        Step::Stat(at) => Ok(Call::Stat(path(alloc, at)?)),
        Step::List(at) => Ok(Call::List(path(alloc, at)?)),
        _ => Ok(Call::Sync),
    }
}

fn path(alloc: Global, text: &[u8]) -> Result<Path, Memory> {
    let mut path = Path::new(alloc);
    for name in text.split(|byte| *byte == b'/') {
        if !name.is_empty() {
            path.push(Text::of(alloc, name)?)?;
        }
    }
    Ok(path)
}

/// A path in a directory, with a name of two letters or, from 676 on, of three bytes.
fn numbered(alloc: Global, directory: &[u8], number: u32) -> Result<Path, Memory> {
    let mut path = path(alloc, directory)?;
    let mut name = Text::new(alloc);
    name.push(b'a' + (number % 26) as u8)?;
    name.push(b'a' + (number / 26 % 26) as u8)?;
    if number >= 676 {
        name.push(b'!')?;
    }
    path.push(name)?;
    Ok(path)
}

fn is_bounded(call: &Call) -> bool
    ensures { IsTrue result → HasFewBytes call.now }
{
    match call {
        Call::Write(_, _, bytes) => bytes.bytes().len() <= 65536,
        Call::Fill(_, _, len, _) | Call::Read(_, _, len) => *len <= 65536,
        _ => true,
    }
}

const FILES: [Row; 4] = [
    (Step::Create(b"/a"), Reply::Done, b""),
    (Step::Write(b"/a", 0, b"hello"), Reply::Count(5), b""),
    (Step::Read(b"/a", 0, 5), Reply::Content, b"hello"),
    (Step::Sync, Reply::Synced { upto: 3, moment: 0 }, b""),
];

const CUTS: [Row; 5] = [
    (Step::Create(b"/a"), Reply::Done, b""),
    (Step::Write(b"/a", 0, b"hello"), Reply::Count(5), b""),
    (Step::Truncate(b"/a", 3), Reply::Done, b""),
    (Step::Truncate(b"/a", 10), Reply::Done, b""),
    (
        Step::Read(b"/a", 0, 10),
        Reply::Content,
        b"hel\0\0\0\0\0\0\0",
    ),
];

const LIMITS: [Row; 5] = [
    (Step::Create(b"/a"), Reply::Done, b""),
    (
        Step::Fill(b"/a", 16744448, 65536, b'a'),
        Reply::Count(65536),
        b"",
    ),
    (
        Step::Write(b"/a", 16809984, b"b"),
        Reply::No(Refusal::Efbig),
        b"",
    ),
    (
        Step::Stat(b"/a"),
        Reply::File {
            size: 16809984,
            pages: 16,
        },
        b"",
    ),
    (Step::Read(b"/a", 16809980, 8), Reply::Content, b"aaaa"),
];

const RENAMES: [Row; 12] = [
    (Step::Mkdir(b"/d"), Reply::Done, b""),
    (Step::Create(b"/a"), Reply::Done, b""),
    (Step::Create(b"/b"), Reply::Done, b""),
    (Step::Write(b"/a", 0, b"a"), Reply::Count(1), b""),
    (Step::Rename(b"/a", b"/a"), Reply::Done, b""),
    (
        Step::Rename(b"/d", b"/d/x"),
        Reply::No(Refusal::Einval),
        b"",
    ),
    (Step::Rename(b"/a", b"/b"), Reply::Done, b""),
    (Step::Rename(b"/b", b"/d"), Reply::No(Refusal::Eisdir), b""),
    (Step::Rename(b"/d", b"/b"), Reply::No(Refusal::Enotdir), b""),
    (Step::Read(b"/b", 0, 1), Reply::Content, b"a"),
    (Step::List(b"/"), Reply::Names(2), b" b d/"),
    (Step::Read(b"/a", 0, 1), Reply::No(Refusal::Enoent), b""),
];

const SAVES_A_NOTE: [Row; 13] = [
    (Step::Mkdir(b"/home"), Reply::Done, b""),
    (Step::Mkdir(b"/home/ann"), Reply::Done, b""),
    (Step::Create(b"/home/ann/note"), Reply::Done, b""),
    (
        Step::Write(b"/home/ann/note", 0, b"old\n"),
        Reply::Count(4),
        b"",
    ),
    (Step::Sync, Reply::Synced { upto: 4, moment: 0 }, b""),
    (Step::Create(b"/home/ann/.note.tmp"), Reply::Done, b""),
    (
        Step::Write(b"/home/ann/.note.tmp", 0, b"new\n"),
        Reply::Count(4),
        b"",
    ),
    (Step::Sync, Reply::Synced { upto: 7, moment: 0 }, b""),
    (
        Step::Rename(b"/home/ann/.note.tmp", b"/home/ann/note"),
        Reply::Done,
        b"",
    ),
    (Step::Sync, Reply::Synced { upto: 9, moment: 0 }, b""),
    (
        Step::Read(b"/home/ann/note", 0, 100),
        Reply::Content,
        b"new\n",
    ),
    (Step::List(b"/home/ann"), Reply::Names(1), b" note"),
    (Step::Stat(b"/home"), Reply::Dir { entries: 1 }, b""),
];

const FILLS_A_DIRECTORY: [Row; 5] = [
    (Step::Mkdir(b"/d"), Reply::Done, b""),
    (Step::CreateAll(b"/d", 1024), Reply::Done, b""),
    (
        Step::Create(b"/d/more"),
        Reply::No(Refusal::Enospc(Space::Dir)),
        b"",
    ),
    (
        Step::Create(b"nnnnnnnnnnnnnnnnnnnnnnnnnnnnnnnnnnnnnnnnnnnnnnnnnnnnnnn"),
        Reply::Done,
        b"",
    ),
    (
        Step::Create(b"nnnnnnnnnnnnnnnnnnnnnnnnnnnnnnnnnnnnnnnnnnnnnnnnnnnnnnnn"),
        Reply::No(Refusal::Enametoolong),
        b"",
    ),
];

const TAKES_ALL_NODES: [Row; 2] = [
    (Step::CreateAll(b"/", 63), Reply::Done, b""),
    (
        Step::Create(b"/more"),
        Reply::No(Refusal::Enospc(Space::Nodes)),
        b"",
    ),
];

const TAKES_ALL_DATA: [Row; 10] = [
    (Step::Create(b"/a"), Reply::Done, b""),
    (Step::FillAll(b'a'), Reply::Done, b""),
    (
        Step::Write(b"/a", 1966080, b"b"),
        Reply::No(Refusal::Enospc(Space::Pages)),
        b"",
    ),
    (
        Step::Stat(b"/a"),
        Reply::File {
            size: 1966080,
            pages: 480,
        },
        b"",
    ),
    (Step::Fill(b"/a", 0, 65536, b'b'), Reply::Count(65536), b""),
    (Step::Read(b"/a", 65534, 4), Reply::Content, b"bbaa"),
    (Step::Unlink(b"/a"), Reply::Done, b""),
    (Step::Create(b"/a"), Reply::Done, b""),
    (Step::FillAll(b'c'), Reply::Done, b""),
    (
        Step::Stat(b"/a"),
        Reply::File {
            size: 1966080,
            pages: 480,
        },
        b"",
    ),
];

const TAKES_ALL_METADATA: [Row; 6] = [
    (Step::Create(b"/a"), Reply::Done, b""),
    (Step::Create(b"/b"), Reply::Done, b""),
    (Step::WriteRanges(b"/a", 16), Reply::Done, b""),
    (Step::WriteRanges(b"/b", 15), Reply::Done, b""),
    (
        Step::Write(b"/b", 15761408, b"a"),
        Reply::No(Refusal::Enospc(Space::Meta)),
        b"",
    ),
    (Step::Write(b"/b", 0, b"a"), Reply::Count(1), b""),
];

const WRITES_NOTHING: [Row; 6] = [
    (Step::Create(b"/a"), Reply::Done, b""),
    (Step::Write(b"/a", 0, b""), Reply::Count(0), b""),
    (Step::Write(b"/b", 0, b""), Reply::No(Refusal::Enoent), b""),
    (Step::Fill(b"/a", 7, 0, b'a'), Reply::Count(0), b""),
    (Step::Stat(b"/a"), Reply::File { size: 0, pages: 0 }, b""),
    (Step::Read(b"/a", 0, 4), Reply::Content, b""),
];

const BORDERS_AND_HOLES: [Row; 8] = [
    (Step::Create(b"/a"), Reply::Done, b""),
    (
        Step::Write(b"/a", 4090, b"\x00\x01\x02\x03\x04\x05\x06\x07\x08\x09"),
        Reply::Count(10),
        b"",
    ),
    (
        Step::Read(b"/a", 4088, 14),
        Reply::Content,
        b"\x00\x00\x00\x01\x02\x03\x04\x05\x06\x07\x08\x09",
    ),
    (
        Step::Stat(b"/a"),
        Reply::File {
            size: 4100,
            pages: 2,
        },
        b"",
    ),
    (Step::Create(b"/hole"), Reply::Done, b""),
    (Step::Write(b"/hole", 20000, b"\x01"), Reply::Count(1), b""),
    (Step::Read(b"/hole", 0, 4), Reply::Content, b"\0\0\0\0"),
    (
        Step::Stat(b"/hole"),
        Reply::File {
            size: 20001,
            pages: 1,
        },
        b"",
    ),
];

/// The blocks and the pages of a block of a volume, and rows on a new one.
type Example = (u32, u32, &'static [Row]);

const EXAMPLES: [Example; 11] = [
    (32, 32, &FILES),
    (32, 32, &CUTS),
    (32, 32, &LIMITS),
    (32, 32, &RENAMES),
    (32, 32, &SAVES_A_NOTE),
    (512, 64, &FILLS_A_DIRECTORY),
    (32, 32, &TAKES_ALL_NODES),
    (32, 32, &TAKES_ALL_DATA),
    (32, 32, &TAKES_ALL_METADATA),
    (32, 32, &WRITES_NOTHING),
    (32, 32, &BORDERS_AND_HOLES),
];

fn holds(alloc: Global, example: &Example) -> Result<bool, Memory> {
    let (blocks, pages, rows) = *example;
    let Some(mut run) = Run::new(alloc, blocks, pages)? else {
        return Ok(false);
    };
    let told = run.rows(rows);
    drop(run);
    Ok(told? == rows.len())
}

// How many of the examples hold before the first that does not.
fn holding(alloc: Global) -> Result<usize, Memory> {
    for (at, example) in EXAMPLES.iter().enumerate() {
        if !holds(alloc, example)? {
            return Ok(at);
        }
    }
    Ok(EXAMPLES.len())
}

#[test]
fn the_worked_examples_hold(rt: HostRuntime) {
    assert_eq!(rt; holding(rt.alloc()), Ok(EXAMPLES.len()));
}
