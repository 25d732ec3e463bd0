// The program on image files in the folder where the tests run.
use nl_app_file::{Notice, answer};
use nl_field::{FailList, Memory, Text};
use nl_io::{MemSink, MemSource, Words};
use std::alloc::Global;
use std::fs::{self, File};
use std::rt::Files;
use std::sync::Wait;
use std::test::Fail;
use std::thread::Threads;

/// Words, how they end, and what they print.
type Row = (&'static str, Result<u8, Notice>, &'static [u8]);

const SCRIPT: &[u8] = b"0 create /a\n0 write /a 0 68656c6c6f\n0 read /a 0 5\n";

const FORMATTED: Row = (
    "format 32 32",
    Ok(0),
    b"formatted blocks 32 pages 32 data 480 nodes 64 meta 32\n",
);

const RAN: Row = (
    "run",
    Ok(0),
    b"opened 0\n1 @1 ok\n2 @2 ok 5\n3 @3 ok 68656c6c6f\n",
);

fn words_of(alloc: Global, text: &str) -> Result<Words, Memory> {
    let mut words = Words::new(alloc);
    for word in text.split(' ').take(10) {
        if words.len() < 10 {
            words.push(word.as_bytes())?;
        }
    }
    Ok(words)
}

/// The call of this number fails, where it is not 0.
fn only(alloc: Global, number: u64) -> Result<FailList, Memory> {
    let mut list = FailList::new(alloc);
    if 0 < number {
        list.push(number)?;
    }
    Ok(list)
}

fn source_of(alloc: Global, read: u64) -> Result<MemSource, Memory> {
    let failing = only(alloc, read)?;
    Ok(MemSource::new(Text::of(alloc, SCRIPT)?, failing))
}

fn sink_of(alloc: Global, write: u64) -> Result<MemSink, Memory> {
    MemSink::new(alloc, 1000, only(alloc, write)?)
}

// How the program ends on an image file. The function promises nothing, so that no caller carries what the call promises.
fn ended<Rt: Files<File = File> + AllocGlobal + Threads + Wait + Sync>(
    rt: &Rt,
    path: &str,
    words: &Words,
    source: &mut MemSource,
    sink: &mut MemSink,
) -> Result<u8, Notice> {
    match answer(rt, path, words, source, sink) {
        Ok(ending) => Ok(ending.status),
        Err(notice) => Err(notice),
    }
}

fn is_told_to<Rt: Files<File = File> + AllocGlobal + Threads + Wait + Sync>(
    rt: &Rt,
    path: &str,
    words: &Words,
    source: &mut MemSource,
    row: &Row,
    write: u64,
) -> Result<bool, Memory> {
    let (_, want, text) = *row;
    let mut sink = sink_of(rt.alloc(), write)?;
    let is = ended(rt, path, words, source, &mut sink) == want && sink.bytes() == text;
    drop(sink);
    Ok(is)
}

fn is_told_from<Rt: Files<File = File> + AllocGlobal + Threads + Wait + Sync>(
    rt: &Rt,
    path: &str,
    words: &Words,
    row: &Row,
    read: u64,
    write: u64,
) -> Result<bool, Memory> {
    let mut source = source_of(rt.alloc(), read)?;
    let is = is_told_to(rt, path, words, &mut source, row, write);
    drop(source);
    is
}

/// Whether the words of a row end and print as it says, where this read of the source and this write of the sink fail.
fn is_told_with<Rt: Files<File = File> + AllocGlobal + Threads + Wait + Sync>(
    rt: &Rt,
    path: &str,
    row: &Row,
    read: u64,
    write: u64,
) -> Result<bool, Memory> {
    let words = words_of(rt.alloc(), row.0)?;
    let is = is_told_from(rt, path, &words, row, read, write);
    drop(words);
    is
}

/// How many rows are told before the first that is not.
fn told<Rt: Files<File = File> + AllocGlobal + Threads + Wait + Sync>(
    rt: &Rt,
    path: &str,
    rows: &[Row],
) -> Result<usize, Memory> {
    for (at, row) in rows.iter().enumerate() {
        if !is_told_with(rt, path, row, 0, 0)? {
            return Ok(at);
        }
    }
    Ok(rows.len())
}

/// The bytes of the file, and 0 where there is none.
fn length<Rt: Files<File = File>>(rt: &Rt, path: &str) -> u64 {
    match fs::metadata(rt, path) {
        Ok(found) => found.len(),
        Err(_) => 0,
    }
}

#[test]
fn a_script_runs_on_a_formatted_file(rt: HostRuntime) -> Result<(), Fail> {
    let path = "nl_onfile_first.img";
    let _ = fs::remove_file(&rt, path);
    let formatted = told(&rt, path, &[FORMATTED])?;
    let before = length(&rt, path);
    let ran = told(&rt, path, &[RAN])?;
    assert!(rt; formatted == 1 && ran == 1);
    assert!(rt; before == 4_272_128 && length(&rt, path) == 4_272_128);
    fs::remove_file(&rt, path)?;
    Ok(())
}

const MISSING: [Row; 6] = [
    ("foo", Ok(2), b"words\n"),
    ("format 31 32", Ok(2), b"words\n"),
    ("format 32", Ok(2), b"words\n"),
    ("format 32 +32", Ok(2), b"words\n"),
    ("run run", Ok(2), b"words\n"),
    ("run", Err(Notice::MediumFault), b""),
];

#[test]
fn only_a_format_makes_a_file(rt: HostRuntime) -> Result<(), Fail> {
    let path = "nl_onfile_missing.img";
    let _ = fs::remove_file(&rt, path);
    assert_eq!(rt; told(&rt, path, &MISSING)?, 6);
    assert!(rt; fs::metadata(&rt, path).is_err());
    Ok(())
}

fn is_kept<Rt: Files<File = File> + AllocGlobal>(rt: &Rt, path: &str) -> bool {
    match fs::read(rt, path) {
        Ok(bytes) => bytes.as_slice() == b"kept".as_slice(),
        Err(_) => false,
    }
}

const KEPT: [Row; 2] = [
    ("format 32 31", Ok(2), b"words\n"),
    ("run", Ok(7), b"blank\n"),
];

#[test]
fn faulty_words_leave_the_file(rt: HostRuntime) -> Result<(), Fail> {
    let path = "nl_onfile_kept.img";
    fs::write(&rt, path, b"kept".as_slice())?;
    assert_eq!(rt; told(&rt, path, &KEPT)?, 2);
    assert!(rt; is_kept(&rt, path));
    fs::remove_file(&rt, path)?;
    Ok(())
}

const IN_USE: Row = ("format 32 32", Err(Notice::MediumInUse), b"");

// Whether that is told while another handle has the file locked.
fn is_told_in_use<Rt: Files<File = File> + AllocGlobal + Threads + Wait + Sync>(
    rt: &Rt,
    path: &str,
) -> bool {
    let Ok(other) = File::open(rt, path) else {
        return false;
    };
    let is = other.lock().is_ok() && told(rt, path, &[IN_USE]) == Ok(1);
    drop(other);
    is
}

#[test]
fn a_file_that_is_in_use_is_left(rt: HostRuntime) -> Result<(), Fail> {
    let path = "nl_onfile_in_use.img";
    fs::write(&rt, path, b"kept".as_slice())?;
    assert!(rt; is_told_in_use(&rt, path) && is_kept(&rt, path));
    fs::remove_file(&rt, path)?;
    Ok(())
}

const NOT_READ: Row = ("run", Ok(3), b"source fault\n");

const NOT_PRINTED: Row = ("run", Ok(4), b"");

// Whether a read of the source that fails and a write of the sink that fails are told.
fn are_told<Rt: Files<File = File> + AllocGlobal + Threads + Wait + Sync>(
    rt: &Rt,
    path: &str,
) -> Result<bool, Memory> {
    Ok(
        is_told_with(rt, path, &FORMATTED, 0, 0)?
            && is_told_with(rt, path, &NOT_READ, 1, 0)?
            && is_told_with(rt, path, &NOT_PRINTED, 0, 1)?,
    )
}

#[test]
fn failed_streams_end_with_a_status(rt: HostRuntime) -> Result<(), Fail> {
    let path = "nl_onfile_streams.img";
    let _ = fs::remove_file(&rt, path);
    assert!(rt; are_told(&rt, path)?);
    fs::remove_file(&rt, path)?;
    Ok(())
}
