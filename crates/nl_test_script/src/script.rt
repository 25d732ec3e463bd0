// Scripts and what they give, by hand from the grammar.
use nl_script::{ScriptRefusal, Why, script_of};
use nl_tree::{Call, Line};
use std::alloc::Global;

fn refusal_of(alloc: Global, bytes: &[u8]) -> Option<ScriptRefusal> {
    script_of(alloc, bytes).err()
}

fn count_of(alloc: Global, bytes: &[u8]) -> Option<u32> {
    match script_of(alloc, bytes) {
        Ok(lines) => Some(lines.len()),
        Err(_) => None,
    }
}

fn refused(line: u32, column: u32, why: Why) -> Option<ScriptRefusal> {
    Some(ScriptRefusal::Refused { line, column, why })
}

/// A text, and the line, the column and the cause of its refusal.
type Refused = (&'static str, u32, u32, Why);

const REFUSED: [Refused; 61] = [
    ("0 write /a 0 6\n", 1, 14, Why::Hex),
    ("0 write /a 0", 1, 13, Why::Missing),
    ("9 create /a\n", 1, 1, Why::Worker),
    ("0 read /a 0 65537\n", 1, 13, Why::Long),
    ("0 sync\t\n", 1, 7, Why::Byte),
    ("\t# note\n", 1, 1, Why::Byte),
    ("0 create /a\u{7f}\n", 1, 12, Why::Byte),
    ("0 sync\r\r\n", 1, 7, Why::Byte),
    ("0 sync\n0 \rsync\n", 2, 3, Why::Byte),
    ("9 make\u{1}\n", 1, 7, Why::Byte),
    ("\0", 1, 1, Why::Byte),
    ("   \u{1f}\n", 1, 4, Why::Byte),
    ("8 sync", 1, 1, Why::Worker),
    ("00 sync", 1, 1, Why::Worker),
    ("  sync", 1, 3, Why::Worker),
    ("\nbarriers", 2, 1, Why::Worker),
    ("BARRIER\n", 1, 1, Why::Worker),
    ("x make a", 1, 1, Why::Worker),
    ("0 make /a", 1, 3, Why::Command),
    ("7  SYNC", 1, 4, Why::Command),
    ("0 barrier", 1, 3, Why::Command),
    ("0 0 sync", 1, 3, Why::Command),
    ("0 create a", 1, 10, Why::Path),
    ("0 create /a/", 1, 10, Why::Path),
    ("0 create //a", 1, 10, Why::Path),
    ("0 stat /.", 1, 8, Why::Path),
    ("0 list /a/..", 1, 8, Why::Path),
    ("0 rename /a b", 1, 13, Why::Path),
    ("0 rename // b", 1, 10, Why::Path),
    ("0 mkdir - /a", 1, 9, Why::Path),
    ("0 truncate /a 9223372036854775808", 1, 15, Why::Number),
    ("0 truncate /a 00000000000000000001", 1, 15, Why::Number),
    ("0 truncate /a +1", 1, 15, Why::Number),
    ("0 write /a 1x 6", 1, 12, Why::Number),
    ("0 read /a 0 0x10", 1, 13, Why::Number),
    ("0 fill /a - 1 61", 1, 11, Why::Number),
    ("0 write /a 0 616", 1, 14, Why::Hex),
    ("0 write /a 0 6g", 1, 14, Why::Hex),
    ("0 write /a 0 --", 1, 14, Why::Hex),
    ("0 fill /a 0 1 6", 1, 15, Why::Hex),
    ("0 fill /a 0 1 616", 1, 15, Why::Hex),
    ("0 fill /a 0 1 -", 1, 15, Why::Hex),
    ("0 fill /a 0 65537 61", 1, 13, Why::Long),
    ("0 read /a 0 9223372036854775807", 1, 13, Why::Long),
    ("0", 1, 2, Why::Missing),
    ("0 create\n", 1, 9, Why::Missing),
    ("0 create   \r\n", 1, 12, Why::Missing),
    ("0 rename /a", 1, 12, Why::Missing),
    ("0 fill /a 0 1 ", 1, 15, Why::Missing),
    ("0 read /a 0", 1, 12, Why::Missing),
    ("0 truncate /a", 1, 14, Why::Missing),
    ("barrier now", 1, 9, Why::Extra),
    ("0 sync 0", 1, 8, Why::Extra),
    ("0 clean  #", 1, 10, Why::Extra),
    ("0 create /a /b", 1, 13, Why::Extra),
    ("0 write /a 0 61 61", 1, 17, Why::Extra),
    ("0 fill /a 0 1 61 x", 1, 18, Why::Extra),
    ("0 read /a 0 1 1", 1, 15, Why::Extra),
    ("0 truncate /a 1 1", 1, 17, Why::Extra),
    ("0 rename /a /b /c", 1, 16, Why::Extra),
    ("0 sync\n# \t\u{7f}\n\n9 sync\n8", 4, 1, Why::Worker),
];

// How many texts have their refusal before the first that has another.
fn named(alloc: Global, rows: &[Refused]) -> usize {
    for (at, row) in rows.iter().enumerate() {
        let (text, line, column, why) = *row;
        if refusal_of(alloc, text.as_bytes()) != refused(line, column, why) {
            return at;
        }
    }
    rows.len()
}

#[test]
fn the_first_fault_is_named(rt: HostRuntime) {
    assert_eq!(rt; named(rt.alloc(), &REFUSED), 61);
}

const ACCEPTED: [(&str, u32); 14] = [
    ("", 0),
    ("\n\n", 0),
    ("\r\n\r", 0),
    ("# \t\u{7f} odd\n  #\u{1}", 0),
    ("barrier\nbarrier", 0),
    ("0 sync", 1),
    ("  7   sync  \r\n", 1),
    ("0 create /...\r", 1),
    ("0 stat /", 1),
    ("0 rename /a /a\nbarrier\n1 list /.x", 2),
    ("0 truncate /a 9223372036854775807", 1),
    ("0 truncate /a 0000000000000000001", 1),
    ("0 fill /a 0 65536 fF", 1),
    ("0 write /a 0 -\n0 write /a 0 aB", 2),
];

// How many of the rows are accepted with their count of calls before the first that is not.
fn accepted(alloc: Global, rows: &[(&str, u32)]) -> usize {
    for (at, row) in rows.iter().enumerate() {
        let (text, calls) = *row;
        if count_of(alloc, text.as_bytes()) != Some(calls) {
            return at;
        }
    }
    rows.len()
}

#[test]
fn other_scripts_are_accepted(rt: HostRuntime) {
    assert_eq!(rt; accepted(rt.alloc(), &ACCEPTED), 14);
}

// Worker 3 creates `/home/a` on line 2.
fn is_create(line: &Line) -> bool {
    match &line.call {
        Call::Create(path) => {
            (line.line, line.round, line.worker) == (2, 0, 3)
                && path.names().len() == 2
                && path.names()[1].bytes() == b"a".as_slice()
        }
        _ => false,
    }
}

// Worker 5 writes two bytes from byte 7 on, on line 4 behind a barrier.
fn is_write(line: &Line) -> bool {
    match &line.call {
        Call::Write(_, from, bytes) => {
            (line.line, line.round, line.worker) == (4, 1, 5)
                && *from == 7
                && bytes.bytes() == b"\x00\xff".as_slice()
        }
        _ => false,
    }
}

fn are_kept(alloc: Global, text: &[u8]) -> bool {
    match script_of(alloc, text) {
        Ok(lines) => lines.len() == 2 && is_create(lines.get(0)) && is_write(lines.get(1)),
        Err(_) => false,
    }
}

#[test]
fn a_line_keeps_its_place_and_words(rt: HostRuntime) {
    let text = b"# save\n3 create /home/a\nbarrier\n5 write /b 7 00fF\n";
    assert!(rt; are_kept(rt.alloc(), text));
}

// So many copies of a text between two others.
fn with_copies(
    alloc: Global,
    front: &[u8],
    text: &[u8],
    count: usize,
    back: &[u8],
) -> Option<Vec<u8>> {
    let mut bytes = Vec::new(alloc);
    bytes.extend_from_slice(front).ok()?;
    for _ in 0..count {
        bytes.extend_from_slice(text).ok()?;
    }
    bytes.extend_from_slice(back).ok()?;
    Some(bytes)
}

/// What a script is read as: a count of calls, or the line, the column and the cause of its refusal.
#[derive(Clone, Copy)]
enum Read {
    Calls(u32),
    No(u32, u32, Why),
}

/// A text between two others so many times, and what that is read as.
type Long = (&'static [u8], &'static [u8], usize, &'static [u8], Read);

fn is_read(alloc: Global, bytes: &[u8], read: Read) -> bool {
    match read {
        Read::Calls(count) => count_of(alloc, bytes) == Some(count),
        Read::No(line, column, why) => refusal_of(alloc, bytes) == refused(line, column, why),
    }
}

fn is_long(alloc: Global, row: &Long) -> Option<bool> {
    let (front, text, count, back, read) = *row;
    let bytes = with_copies(alloc, front, text, count, back)?;
    Some(is_read(alloc, &bytes, read))
}

// How many rows are read as they say before the first that is not.
fn long(alloc: Global, rows: &[Long]) -> usize {
    for (at, row) in rows.iter().enumerate() {
        if is_long(alloc, row) != Some(true) {
            return at;
        }
    }
    rows.len()
}

const LONG_LINES: [Long; 4] = [
    (b"#", b"x", 139999, b"", Read::Calls(0)),
    (b"#", b"x", 139999, b"\r", Read::Calls(0)),
    (b"#", b"x", 139999, b"\r\n", Read::Calls(0)),
    (
        b"barrier\n#",
        b"x",
        140000,
        b"",
        Read::No(2, 140001, Why::Long),
    ),
];

#[test]
fn long_lines(rt: HostRuntime) {
    assert_eq!(rt; long(rt.alloc(), &LONG_LINES), 4);
}

const LONG_DATA: [Long; 3] = [
    (b"0 write /a 0 ", b"61", 65536, b"", Read::Calls(1)),
    (
        b"0 write /a 0 ",
        b"61",
        65536,
        b"6",
        Read::No(1, 14, Why::Hex),
    ),
    (
        b"0 write /a 0 ",
        b"61",
        65536,
        b"61",
        Read::No(1, 14, Why::Long),
    ),
];

#[test]
fn long_data(rt: HostRuntime) {
    assert_eq!(rt; long(rt.alloc(), &LONG_DATA), 3);
}

// The sum of the lengths that are read, the most calls, and the most bytes.
const LONG_SCRIPTS: [Long; 5] = [
    (
        b"",
        b"0 read /a 0 65536\n",
        4095,
        b"0 list /\n0 read /a 0 0\n",
        Read::Calls(4097),
    ),
    (
        b"",
        b"0 read /a 0 65536\n",
        4095,
        b"0 list /\n0 read /a 0 0\n0 sync\n0 read /a 0 1",
        Read::No(4099, 1, Why::Total),
    ),
    (
        b"barrier\n",
        b"0 sync\n",
        1000000,
        b"barrier\n1 list /",
        Read::No(1000003, 1, Why::Lines),
    ),
    (b"", b"#2345678\n#2345\n\n", 1048576, b"", Read::Calls(0)),
    (
        b"",
        b"#2345678\n#2345\n\n",
        1048576,
        b"\n",
        Read::No(0, 0, Why::Size),
    ),
];

#[test]
fn long_scripts(rt: HostRuntime) {
    assert_eq!(rt; long(rt.alloc(), &LONG_SCRIPTS), 5);
}
