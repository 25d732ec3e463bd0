// Image files in the folder where the tests run.
ghost use Rattle.std.specs.Prelude.{◌≡◌, ◌<◌};
ghost use Rattle.nl_imgfile.specs.DiskMedium.{geometry_of};

use nl_field::{PageBuf, shape_of};
use nl_imgfile::{Attach, FileNand};
use nl_nand::{FormAnswer, Geometry, Nand, ReadAnswer, WriteAnswer};
use std::alloc::Global;
use std::fs::{self, File, OpenOptions};
use std::os::unix::fs::FileExt;

/// A call of the medium, or what is done with its file meanwhile by another handle.
#[derive(Clone, Copy)]
enum Step<'a> {
    Form(u32, u32),
    Read(u32),
    /// Programs the page with the letter `p`.
    Program(u32),
    /// Erases the block of a page.
    Erase(u32),
    Clock,
    ReadFaults,
    WriteFaults,
    /// The file is cut, or grows, to this length.
    Resize(u64),
    /// The bytes are written to the file from an offset on.
    Write(u64, &'a [u8]),
    /// Whether the bytes, at most 64, stand in the file from an offset on.
    Stands(u64, &'a [u8]),
    Length,
}

/// What it answered; of a written page the byte at its start and at its end.
#[derive(Clone, Copy, PartialEq)]
enum Seen {
    Done,
    Failed,
    Erased,
    Uncorrectable,
    Byte(u8),
    Number(u64),
    Yes,
    No,
}

type Row<'a> = (Step<'a>, Seen);

/// Opens a file for reading and writing, and makes it where it is missing.
fn opened(rt: &HostRuntime, path: &str) -> Option<File> {
    let mut options = OpenOptions::new();
    options.read(true).write(true).create(true);
    options.open(rt, path).ok()
}

fn attached(alloc: Global, file: File) -> Option<FileNand> {
    FileNand::attach(alloc, file).ok()
}

/// The blocks and pages of a file.
fn numbers(rt: &HostRuntime, path: &str) -> Option<(u32, u32)> {
    let media = attached(rt.alloc(), opened(rt, path)?)?;
    let Geometry { blocks, pages } = media.geometry();
    drop(media);
    Some((blocks, pages))
}

fn has_numbers(rt: &HostRuntime, path: &str, blocks: u32, pages: u32) -> bool {
    match numbers(rt, path) {
        Some(is) => is.0 == blocks && is.1 == pages,
        None => false,
    }
}

fn form(media: &mut FileNand, blocks: u32, pages: u32) -> Seen {
    if shape_of(blocks, pages).is_none() {
        return Seen::No;
    }
    match media.form(blocks, pages) {
        FormAnswer::Done => Seen::Done,
        FormAnswer::Failed => Seen::Failed,
        FormAnswer::Memory => Seen::No,
    }
}

fn read(media: &mut FileNand, page: u32, buf: &mut PageBuf) -> Seen
    requires within { page < 1024 }
    requires geometry { geometry_of media.old ≡ record { blocks = 32; pages = 32 } }
{
    match media.read(page, buf) {
        ReadAnswer::Erased => Seen::Erased,
        ReadAnswer::Uncorrectable => Seen::Uncorrectable,
        ReadAnswer::Failed => Seen::Failed,
        ReadAnswer::Written => {
            let byte = buf.spare()[63];
            if buf.main()[0] == byte {
                Seen::Byte(byte)
            } else {
                Seen::No
            }
        }
    }
}

fn written(answer: WriteAnswer) -> Seen {
    match answer {
        WriteAnswer::Done => Seen::Done,
        WriteAnswer::Failed => Seen::Failed,
    }
}

/// A call on a page of a medium of 32 blocks of 32 pages.
fn call(media: &mut FileNand, step: Step, buf: &mut PageBuf) -> Seen {
    let Geometry { blocks, pages } = media.geometry();
    if blocks != 32 || pages != 32 {
        return Seen::No;
    }
    buf.clear();
    match step {
        Step::Read(page) => read(media, page % 1024, buf),
        Step::Program(page) => {
            buf.set_main(0, b"p");
            buf.set_spare(&[b'p'; 64]);
            written(media.program(page % 1024, buf))
        }
        Step::Erase(page) => written(media.erase(page % 1024 / 32)),
        _ => Seen::No,
    }
}

fn stands(file: &File, at: u64, bytes: &[u8]) -> bool {
    let mut found = [0; 64];
    if bytes.len() > 64 || file.read_exact_at(&mut found[..bytes.len()], at).is_err() {
        return false;
    }
    &found[..bytes.len()] == bytes
}

fn done(is: bool) -> Seen {
    if is { Seen::Done } else { Seen::Failed }
}

/// What is done with the file by another handle.
fn beside(file: &File, step: Step) -> Seen {
    match step {
        Step::Resize(len) => done(file.set_len(len).is_ok()),
        Step::Write(at, bytes) => done(file.write_all_at(bytes, at).is_ok()),
        Step::Stands(at, bytes) => {
            if stands(file, at, bytes) {
                Seen::Yes
            } else {
                Seen::No
            }
        }
        Step::Length => match file.metadata() {
            Ok(metadata) => Seen::Number(metadata.len()),
            Err(_) => Seen::Failed,
        },
        _ => Seen::No,
    }
}

fn answered(media: &mut FileNand, file: &File, step: Step, buf: &mut PageBuf) -> Seen {
    match step {
        Step::Form(blocks, pages) => form(media, blocks, pages),
        Step::Read(_) | Step::Program(_) | Step::Erase(_) => call(media, step, buf),
        Step::Clock => Seen::Number(media.clock()),
        Step::ReadFaults => Seen::Number(media.read_faults()),
        Step::WriteFaults => Seen::Number(media.write_faults()),
        _ => beside(file, step),
    }
}

/// Whether each row is answered so.
fn same(media: &mut FileNand, file: &File, buf: &mut PageBuf, table: &[Row]) -> bool {
    for row in table {
        let (step, want) = *row;
        if answered(media, file, step, buf) != want {
            return false;
        }
    }
    true
}

/// Whether the medium in a file answers each row so. Another handle has the file open.
fn same_in(alloc: Global, file: File, other: &File, table: &[Row]) -> Option<bool> {
    let mut buf = PageBuf::new(alloc).ok()?;
    let mut media = attached(alloc, file)?;
    let is = same(&mut media, other, &mut buf, table);
    drop(media);
    Some(is)
}

/// Whether the medium in the file answers each row so, with the file open once more.
fn same_on(rt: &HostRuntime, path: &str, file: File, table: &[Row]) -> bool {
    let Some(other) = opened(rt, path) else {
        return false;
    };
    let is = same_in(rt.alloc(), file, &other, table);
    matches!(is, Some(true))
}

fn on_old(rt: &HostRuntime, path: &str, table: &[Row]) -> bool {
    match opened(rt, path) {
        Some(file) => same_on(rt, path, file, table),
        None => false,
    }
}

fn on_new(rt: &HostRuntime, path: &str, table: &[Row]) -> bool {
    let _ = fs::remove_file(rt, path);
    on_old(rt, path, table)
}

/// The same, where the medium has its file open for reading alone.
fn on_unwritable(rt: &HostRuntime, path: &str, table: &[Row]) -> bool {
    match File::open(rt, path) {
        Ok(file) => same_on(rt, path, file, table),
        Err(_) => false,
    }
}

fn writes(rt: &HostRuntime, path: &str, at: u64, bytes: &[u8]) -> bool {
    match opened(rt, path) {
        Some(file) => file.write_all_at(bytes, at).is_ok(),
        None => false,
    }
}

fn resizes(rt: &HostRuntime, path: &str, len: u64) -> bool {
    match opened(rt, path) {
        Some(file) => file.set_len(len).is_ok(),
        None => false,
    }
}

fn is_long(rt: &HostRuntime, path: &str, len: u64) -> bool {
    match fs::metadata(rt, path) {
        Ok(metadata) => metadata.len() == len,
        Err(_) => false,
    }
}

fn removes(rt: &HostRuntime, path: &str) -> bool {
    fs::remove_file(rt, path).is_ok()
}

/// The first bytes of a file of 32 blocks of 32 pages. The others of its header are zeros.
const HEAD: &[u8] = b"NLIMAGE\0\x01\0\0\0\x20\0\0\0\x20\0\0\0";

const NEW: [Row<'static>; 1] = [(Step::Form(32, 32), Seen::Done)];

const PLACE: [Row<'static>; 9] = [
    (Step::Form(32, 32), Seen::Done),
    (Step::Program(33), Seen::Done),
    (Step::Clock, Seen::Number(1)),
    (Step::Stands(0, HEAD), Seen::Yes),
    (Step::Stands(137_472, &[0; 64]), Seen::Yes),
    (Step::Stands(141_640, b"\x01\0\0\0\0\0\0\0p\0"), Seen::Yes),
    (Step::Stands(145_743, b"\0pp"), Seen::Yes),
    (Step::Stands(145_807, b"p\0"), Seen::Yes),
    (Step::Length, Seen::Number(4_272_128)),
];

#[test]
fn a_page_reaches_its_place_in_the_file(rt: HostRuntime) {
    let path = "nl_imgfile_place.img";
    let all = on_new(&rt, path, &PLACE) && removes(&rt, path);
    assert!(rt; all);
}

const FIRST: [Row<'static>; 8] = [
    (Step::Form(32, 32), Seen::Done),
    (Step::Read(0), Seen::Erased),
    (Step::Read(1023), Seen::Erased),
    (Step::Program(33), Seen::Done),
    (Step::Program(63), Seen::Done),
    (Step::Program(64), Seen::Done),
    (Step::Read(33), Seen::Byte(b'p')),
    (Step::Read(34), Seen::Erased),
];

const SECOND: [Row<'static>; 5] = [
    (Step::Read(33), Seen::Byte(b'p')),
    (Step::Erase(33), Seen::Done),
    (Step::Read(33), Seen::Erased),
    (Step::Read(63), Seen::Erased),
    (Step::Read(64), Seen::Byte(b'p')),
];

const AFTERWARDS: [Row<'static>; 2] = [
    (Step::Stands(141_640, &[0; 64]), Seen::Yes),
    (Step::Length, Seen::Number(4_272_128)),
];

const ANEW: [Row<'static>; 3] = [
    (Step::Form(32, 32), Seen::Done),
    (Step::Read(64), Seen::Erased),
    (Step::Length, Seen::Number(4_272_128)),
];

#[test]
fn pages_stay_in_the_file(rt: HostRuntime) {
    let path = "nl_imgfile_stay.img";
    let all = on_new(&rt, path, &FIRST)
        && on_old(&rt, path, &SECOND)
        && on_old(&rt, path, &AFTERWARDS)
        && on_new(&rt, path, &ANEW)
        && removes(&rt, path);
    assert!(rt; all);
}

const LARGER: [Row<'static>; 3] = [
    (Step::Form(32, 32), Seen::Done),
    (Step::Program(64), Seen::Done),
    (Step::Form(33, 64), Seen::Done),
];

#[test]
fn forming_drops_what_was_there(rt: HostRuntime) {
    let path = "nl_imgfile_again.img";
    let all = on_new(&rt, path, &LARGER)
        && has_numbers(&rt, path, 33, 64)
        && is_long(&rt, path, 8_806_912)
        && on_old(&rt, path, &ANEW)
        && removes(&rt, path);
    assert!(rt; all);
}

/// A place in a header, a byte that no header has there, and the one that stood there.
const SPOILT: [(u64, u8, u8); 8] = [
    (0, b'n', b'N'),
    (7, b'1', 0),
    (8, 2, 1),
    (12, 0x1f, 0x20),
    (13, 0x10, 0),
    (17, 1, 0),
    (20, 1, 0),
    (4095, 1, 0),
];

/// Whether the file was never formed while the byte is another one.
fn is_spoilt(rt: &HostRuntime, path: &str, at: u64, byte: u8, was: u8) -> bool {
    writes(rt, path, at, &[byte]) && has_numbers(rt, path, 0, 0) && writes(rt, path, at, &[was])
}

/// Whether a file has its numbers with a whole header alone.
fn is_header(rt: &HostRuntime, path: &str) -> bool {
    has_numbers(rt, path, 0, 0)
        && writes(rt, path, 0, HEAD)
        && resizes(rt, path, 4095)
        && has_numbers(rt, path, 0, 0)
        && resizes(rt, path, 4096)
        && has_numbers(rt, path, 32, 32)
}

/// Whether the file has no numbers with any of the bytes.
fn each_spoilt(rt: &HostRuntime, path: &str) -> bool {
    for spoilt in &SPOILT {
        let (at, byte, was) = *spoilt;
        if !is_spoilt(rt, path, at, byte, was) {
            return false;
        }
    }
    true
}

#[test]
fn a_file_with_another_header_was_never_formed(rt: HostRuntime) {
    let path = "nl_imgfile_header.img";
    let _ = fs::remove_file(&rt, path);
    let all = is_header(&rt, path)
        && each_spoilt(&rt, path)
        && writes(&rt, path, 16, b"\x40")
        && has_numbers(&rt, path, 32, 64)
        && removes(&rt, path);
    assert!(rt; all);
}

const STATES: [Row<'static>; 10] = [
    (Step::Form(32, 32), Seen::Done),
    (Step::Program(0), Seen::Done),
    (Step::Write(4096, &[0]), Seen::Done),
    (Step::Read(0), Seen::Erased),
    (Step::Write(4096, &[2]), Seen::Done),
    (Step::Read(0), Seen::Uncorrectable),
    (Step::Write(4096, &[1, 0, 0, 0, 0, 0, 0, 128]), Seen::Done),
    (Step::Read(0), Seen::Uncorrectable),
    (Step::Write(4103, &[0]), Seen::Done),
    (Step::Read(0), Seen::Byte(b'p')),
];

#[test]
fn other_states_are_uncorrectable(rt: HostRuntime) {
    let path = "nl_imgfile_state.img";
    let all = on_new(&rt, path, &STATES) && removes(&rt, path);
    assert!(rt; all);
}

const CUT: [Row<'static>; 9] = [
    (Step::Form(32, 32), Seen::Done),
    (Step::Resize(12_431), Seen::Done),
    (Step::Read(0), Seen::Erased),
    (Step::Read(1), Seen::Failed),
    (Step::ReadFaults, Seen::Number(1)),
    (Step::Resize(12_432), Seen::Done),
    (Step::Read(1), Seen::Erased),
    (Step::Read(1023), Seen::Failed),
    (Step::ReadFaults, Seen::Number(2)),
];

const WHOLE: [Row<'static>; 1] = [(Step::Read(1023), Seen::Erased)];

#[test]
fn a_cut_record_is_a_failed_read(rt: HostRuntime) {
    let path = "nl_imgfile_cut.img";
    let all = on_new(&rt, path, &CUT)
        && writes(&rt, path, 4_272_128, b"behind")
        && on_old(&rt, path, &WHOLE)
        && removes(&rt, path);
    assert!(rt; all);
}

const FAILED: [Row<'static>; 7] = [
    (Step::Program(0), Seen::Failed),
    (Step::Erase(0), Seen::Failed),
    (Step::Read(0), Seen::Erased),
    (Step::WriteFaults, Seen::Number(2)),
    (Step::Form(64, 64), Seen::Failed),
    (Step::WriteFaults, Seen::Number(3)),
    (Step::Clock, Seen::Number(0)),
];

#[test]
fn a_failed_call_is_counted(rt: HostRuntime) {
    let path = "nl_imgfile_failed.img";
    let all = on_new(&rt, path, &NEW)
        && on_unwritable(&rt, path, &FAILED)
        && has_numbers(&rt, path, 32, 32)
        && removes(&rt, path);
    assert!(rt; all);
}

/// Whether a file that is open for writing alone is given back.
fn is_given_back(rt: &HostRuntime, path: &str) -> bool {
    let Ok(file) = File::create(rt, path) else {
        return false;
    };
    let answer = FileNand::attach(rt.alloc(), file);
    let is = matches!(answer, Err(Attach::Fault(_)));
    drop(answer);
    is
}

#[test]
fn a_file_that_cannot_be_read_is_given_back(rt: HostRuntime) {
    let path = "nl_imgfile_unread.img";
    let all = is_given_back(&rt, path) && removes(&rt, path);
    assert!(rt; all);
}

/// Whether the file is in use.
fn is_used(alloc: Global, file: File) -> bool {
    let answer = FileNand::attach(alloc, file);
    let is = matches!(answer, Err(Attach::InUse(_)));
    drop(answer);
    is
}

fn is_in_use(rt: &HostRuntime, path: &str) -> bool {
    match opened(rt, path) {
        Some(file) => is_used(rt.alloc(), file),
        None => false,
    }
}

/// Whether a second medium on the file is refused.
fn is_refused(rt: &HostRuntime, path: &str) -> Option<bool> {
    let first = attached(rt.alloc(), opened(rt, path)?)?;
    let is = is_in_use(rt, path);
    drop(first);
    Some(is)
}

#[test]
fn a_file_has_one_medium_at_a_time(rt: HostRuntime) {
    let path = "nl_imgfile_locked.img";
    let all = on_new(&rt, path, &NEW)
        && is_refused(&rt, path) == Some(true)
        && has_numbers(&rt, path, 32, 32)
        && removes(&rt, path);
    assert!(rt; all);
}
