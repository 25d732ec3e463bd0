// Tables of calls on names.
ghost use Rattle.std.specs.Prelude.{IfOk, IfSome};
ghost use Rattle.nl_test_namespace.specs.Volumes.{AddressesCanBeWritten, IsOpen};
ghost use Rattle.nl_namespace.specs.Calls.{PathsHaveNames, IsOfNames};

use crate::asserting::assert_none_differs;
use crate::calls::Seen;
use crate::device::Stamps;
use crate::paths::{Names, Series, path_of};
use crate::volume::{After, Volume, change_names, list_names, make_all, opened, reopened};
use crate::writer::{Fresh, begun, format};
use nl_field::{Memory, PageBuf, Shape, shape_of};
use nl_scan::ScanTables;
use nl_tree::{Call, Refusal, Space};
use std::alloc::Global;

/// A call on paths.
#[derive(Clone, Copy)]
enum Step {
    Mkdir(Names),
    Rmdir(Names),
    Create(Names),
    Unlink(Names),
    Rename(Names, Names),
    List(Names),
    /// Makes path after path, until one is refused.
    MakeAll(Series),
    /// The volume is written, and opened again.
    Reopen,
}

/// The call of a step that changes names.
fn call_of(alloc: Global, step: Step) -> Option<Call>
    ensures names { IfSome result PathsHaveNames }
    ensures of_names { IfSome result IsOfNames }
{
    match step {
        Step::Mkdir(path) => Some(Call::Mkdir(path_of(alloc, path)?)),
        Step::Rmdir(path) => Some(Call::Rmdir(path_of(alloc, path)?)),
        Step::Create(path) => Some(Call::Create(path_of(alloc, path)?)),
        Step::Unlink(path) => Some(Call::Unlink(path_of(alloc, path)?)),
        Step::Rename(from, to) => {
            let from = path_of(alloc, from)?;
            Some(Call::Rename(from, path_of(alloc, to)?))
        }
        _ => None,
    }
}

fn answered<D: Stamps>(
    alloc: Global,
    device: &mut D,
    shape: &Shape,
    scan: &ScanTables,
    volume: Volume,
    step: Step,
) -> Result<After, Memory>
    requires write { AddressesCanBeWritten D.Counts device.old shape.now }
    requires volume { IsOpen D.Counts device.old volume.meta volume.nodes }
    ensures write { IfOk result (λ a. AddressesCanBeWritten D.Counts device.new shape.now) }
    ensures volume { IfOk result (λ a. IsOpen D.Counts device.new a.volume.meta a.volume.nodes) }
{
    match step {
        Step::List(path) => match path_of(alloc, path) {
            Some(path) => {
                let after = list_names(alloc, device, shape, volume, &path);
                drop(path);
                after
            }
            None => {
                drop(volume);
                Err(Memory)
            }
        },
        Step::MakeAll(series) => make_all(alloc, device, shape, scan, volume, series, 0, 10),
        Step::Reopen => {
            let again = reopened(alloc, device, shape, scan, &volume.meta, None);
            drop(volume);
            let volume = again?;
            let seen = Seen::Done;
            Ok(After { volume, seen })
        }
        step => match call_of(alloc, step) {
            Some(call) => {
                let after = change_names(alloc, device, shape, scan, volume, &call);
                drop(call);
                after
            }
            None => {
                drop(volume);
                Err(Memory)
            }
        },
    }
}

/// The first row from a number on that is answered otherwise.
fn first_other<D: Stamps>(
    alloc: Global,
    device: &mut D,
    shape: &Shape,
    scan: &ScanTables,
    volume: Volume,
    rows: &[(Step, Seen)],
    row: usize,
) -> Result<Option<usize>, Memory>
    requires write { AddressesCanBeWritten D.Counts device.old shape.now }
    requires volume { IsOpen D.Counts device.old volume.meta volume.nodes }
{
    if row >= rows.len() {
        drop(volume);
        return Ok(None);
    }
    let (step, want) = rows[row];
    let After { volume, seen } = answered(alloc, device, shape, scan, volume, step)?;
    if seen != want {
        drop(volume);
        return Ok(Some(row));
    }
    first_other(alloc, device, shape, scan, volume, rows, row + 1)
}

/// The first row that is answered otherwise, on a volume with an empty root.
fn other<D: Stamps>(
    alloc: Global,
    device: &mut D,
    shape: &Shape,
    scan: &ScanTables,
    rows: &[(Step, Seen)],
) -> Result<Option<usize>, Memory>
    requires write { AddressesCanBeWritten D.Counts device.old shape.now }
{
    let mut buf = PageBuf::new(alloc)?;
    let formatted = format(device, shape, &mut buf);
    drop(buf);
    if !formatted {
        return Err(Memory);
    }
    let volume = opened(alloc, device, shape, scan)?;
    first_other(alloc, device, shape, scan, volume, rows, 0)
}

/// The first row that is answered otherwise, on a volume with an empty root over a device in memory.
fn differs(
    alloc: Global,
    blocks: u32,
    pages: u32,
    rows: &[(Step, Seen)],
) -> Result<Option<usize>, Memory> {
    match shape_of(blocks, pages) {
        Some(shape) => {
            let Fresh { mut device, scan } = begun(alloc, shape)?;
            let row = other(alloc, &mut device, &shape, &scan, rows);
            drop(device);
            drop(scan);
            row
        }
        None => Err(Memory),
    }
}

const RENAMES: [(Step, Seen); 14] = [
    (Step::Mkdir(&[b"d"]), Seen::Done),
    (Step::Create(&[b"a"]), Seen::Done),
    (Step::Create(&[b"b"]), Seen::Done),
    (Step::Create(&[b"b"]), Seen::No(Refusal::Eexist)),
    (Step::Rename(&[b"a"], &[b"a"]), Seen::Done),
    (
        Step::Rename(&[b"d"], &[b"d", b"x"]),
        Seen::No(Refusal::Einval),
    ),
    // node 3 is that of `b`
    (Step::Rename(&[b"a"], &[b"b"]), Seen::Gone(3)),
    (Step::Rename(&[b"b"], &[b"d"]), Seen::No(Refusal::Eisdir)),
    (Step::Rename(&[b"d"], &[b"b"]), Seen::No(Refusal::Enotdir)),
    (Step::Reopen, Seen::Done),
    (Step::List(&[]), Seen::Listed(2, *b" b d/\0\0\0\0\0\0\0")),
    (Step::List(&[b"a"]), Seen::Missing),
    (Step::List(&[b"b"]), Seen::At(2)),
    (Step::List(&[b"b", b"c"]), Seen::No(Refusal::Enotdir)),
];

const DIRECTORIES: [(Step, Seen); 17] = [
    (Step::Mkdir(&[]), Seen::No(Refusal::Eexist)),
    (Step::Mkdir(&[b"d"]), Seen::Done),
    (Step::Mkdir(&[b"d", b"e"]), Seen::Done),
    (Step::Create(&[b"d", b"a!"]), Seen::Done),
    (Step::Create(&[b"d", b"a"]), Seen::Done),
    (Step::Reopen, Seen::Done),
    (Step::List(&[b"d"]), Seen::Listed(3, *b" a a! e/\0\0\0\0")),
    (Step::Rmdir(&[b"d"]), Seen::No(Refusal::Enotempty)),
    (Step::Rmdir(&[b"d", b"a"]), Seen::No(Refusal::Enotdir)),
    (Step::Unlink(&[b"d", b"e"]), Seen::No(Refusal::Eisdir)),
    (Step::Unlink(&[b"x", b"e"]), Seen::No(Refusal::Enoent)),
    (Step::Rmdir(&[b"d", b"e"]), Seen::Gone(2)),
    (Step::Unlink(&[b"d", b"a"]), Seen::Gone(4)),
    // an empty directory takes the place of another one
    (Step::Mkdir(&[b"f"]), Seen::Done),
    (Step::Rename(&[b"d"], &[b"f"]), Seen::Gone(2)),
    (
        Step::List(&[b"f"]),
        Seen::Listed(1, *b" a!\0\0\0\0\0\0\0\0\0"),
    ),
    (Step::List(&[]), Seen::Listed(1, *b" f/\0\0\0\0\0\0\0\0\0")),
];

// A note is saved as a new file that takes the place of the old one.
const SAVES: [(Step, Seen); 9] = [
    (Step::Mkdir(&[b"home"]), Seen::Done),
    (Step::Mkdir(&[b"home", b"ann"]), Seen::Done),
    (Step::Create(&[b"home", b"ann", b"note"]), Seen::Done),
    (Step::Reopen, Seen::Done),
    (Step::Create(&[b"home", b"ann", b".note.tmp"]), Seen::Done),
    (
        Step::Rename(
            &[b"home", b"ann", b".note.tmp"],
            &[b"home", b"ann", b"note"],
        ),
        Seen::Gone(3),
    ),
    (
        Step::List(&[b"home", b"ann"]),
        Seen::Listed(1, *b" note\0\0\0\0\0\0\0"),
    ),
    (
        Step::List(&[b"home"]),
        Seen::Listed(1, *b" ann/\0\0\0\0\0\0\0"),
    ),
    (Step::List(&[b"home", b"ann", b"note"]), Seen::At(4)),
];

fn renames(alloc: Global) -> Result<Option<usize>, Memory> {
    differs(alloc, 32, 32, &RENAMES)
}

fn directories(alloc: Global) -> Result<Option<usize>, Memory> {
    differs(alloc, 32, 32, &DIRECTORIES)
}

fn saves(alloc: Global) -> Result<Option<usize>, Memory> {
    differs(alloc, 32, 32, &SAVES)
}

#[test]
fn names_are_changed(rt: HostRuntime) {
    assert_none_differs(&rt, renames(rt.alloc()));
}

#[test]
fn directories_are_changed(rt: HostRuntime) {
    assert_none_differs(&rt, directories(rt.alloc()));
}

#[test]
fn a_note_is_saved(rt: HostRuntime) {
    assert_none_differs(&rt, saves(rt.alloc()));
}

// The volume has 64 nodes, one of which is the root. Three letters name the number of a file.
const NODES: [(Step, Seen); 8] = [
    (
        Step::MakeAll(Series::In(&[])),
        Seen::Made(63, Refusal::Enospc(Space::Nodes)),
    ),
    (Step::Reopen, Seen::Done),
    (Step::List(&[b"ado"]), Seen::At(63)),
    (
        Step::Mkdir(&[b"d"]),
        Seen::No(Refusal::Enospc(Space::Nodes)),
    ),
    (Step::Create(&[b"aaa"]), Seen::No(Refusal::Eexist)),
    (Step::Unlink(&[b"aac"]), Seen::Gone(3)),
    (Step::Mkdir(&[b"d"]), Seen::Done),
    (
        Step::Create(&[b"d", b"a"]),
        Seen::No(Refusal::Enospc(Space::Nodes)),
    ),
];

// The volume has 32 pages for entries and pointers, and each directory that is not empty has one.
const POOL: [(Step, Seen); 7] = [
    (
        Step::MakeAll(Series::Nested),
        Seen::Made(32, Refusal::Enospc(Space::Meta)),
    ),
    (Step::Reopen, Seen::Done),
    (Step::Create(&[b"a"]), Seen::Done),
    (Step::Mkdir(&[b"e"]), Seen::Done),
    (
        Step::Create(&[b"e", b"a"]),
        Seen::No(Refusal::Enospc(Space::Meta)),
    ),
    (Step::Create(&[b"d", b"a"]), Seen::Done),
    (
        Step::List(&[b"d"]),
        Seen::Listed(2, *b" a d/\0\0\0\0\0\0\0"),
    ),
];

fn nodes(alloc: Global) -> Result<Option<usize>, Memory> {
    differs(alloc, 32, 32, &NODES)
}

fn pool(alloc: Global) -> Result<Option<usize>, Memory> {
    differs(alloc, 32, 32, &POOL)
}

#[test]
fn nodes_are_used_up(rt: HostRuntime) {
    assert_none_differs(&rt, nodes(rt.alloc()));
}

#[test]
fn pages_are_used_up(rt: HostRuntime) {
    assert_none_differs(&rt, pool(rt.alloc()));
}

const LONGEST: &[u8] = b"nnnnnnnnnnnnnnnnnnnnnnnnnnnnnnnnnnnnnnnnnnnnnnnnnnnnnnn";

const TOO_LONG: &[u8] = b"nnnnnnnnnnnnnnnnnnnnnnnnnnnnnnnnnnnnnnnnnnnnnnnnnnnnnnnn";

// A directory has at most 1024 entries. Its node is 1, and those of its entries 2 to 1025.
const FULL: [(Step, Seen); 14] = [
    (Step::Mkdir(&[b"d"]), Seen::Done),
    (
        Step::MakeAll(Series::In(&[b"d"])),
        Seen::Made(1024, Refusal::Enospc(Space::Dir)),
    ),
    (Step::List(&[b"d"]), Seen::Listed(1024, *b" aaa aab aac")),
    (
        Step::Mkdir(&[b"d", b"z"]),
        Seen::No(Refusal::Enospc(Space::Dir)),
    ),
    (Step::Create(&[b"d", b"dpp"]), Seen::No(Refusal::Eexist)),
    (Step::List(&[b"d", b"dpp"]), Seen::At(1025)),
    (Step::Create(&[LONGEST]), Seen::Done),
    (Step::Create(&[TOO_LONG]), Seen::No(Refusal::Enametoolong)),
    (
        Step::Rename(&[LONGEST], &[b"d", b"z"]),
        Seen::No(Refusal::Enospc(Space::Dir)),
    ),
    (Step::Rename(&[b"d", b"aaa"], &[b"d", b"z"]), Seen::Done),
    (Step::Unlink(&[b"d", b"aac"]), Seen::Gone(4)),
    (Step::Create(&[b"d", LONGEST]), Seen::Done),
    (
        Step::Create(&[b"d", b"aac"]),
        Seen::No(Refusal::Enospc(Space::Dir)),
    ),
    (Step::List(&[b"d"]), Seen::Listed(1024, *b" aab aad aae")),
];

fn full(alloc: Global) -> Result<Option<usize>, Memory> {
    differs(alloc, 65, 256, &FULL)
}

#[test]
fn a_directory_is_filled(rt: HostRuntime) {
    assert_none_differs(&rt, full(rt.alloc()));
}
