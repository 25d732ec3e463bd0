// Worked rows on a new volume of 32 blocks of 32 pages.
ghost use Rattle.nl_pagemap_volume.specs.Volume.{Stands};

use crate::making::{made, step};
use nl_field::Memory;
use nl_iface::Counts;
use nl_nand::Nand;
use nl_pagemap::Pagemap;
use nl_pagemap_volume::MapVolume;
use nl_script::script_of;
use nl_tree::{FaultReply, Refusal, Reply, ReplyBuf};
use std::alloc::Global;
use std::test::Fail;

/// A line as a script has it, its reply, the bytes that belong to it, and how many numbers are in use then.
type Row = (&'static str, Reply, &'static [u8], u32);

const ROWS: [Row; 40] = [
    ("0 list /", Reply::Names(0), b"", 0),
    ("0 stat /", Reply::Dir { entries: 0 }, b"", 0),
    // Both pages of the new volume were written before, and the four of a commit: a header, the image of the super page, the commit page,
    // and the super page.
    ("1 sync", Reply::Synced { upto: 2, moment: 5 }, b"", 0),
    ("0 mkdir /d", Reply::Done, b"", 0),
    ("2 mkdir /d", Reply::No(Refusal::Eexist), b"", 0),
    ("0 create /d/a", Reply::Done, b"", 0),
    ("0 create /x/y", Reply::No(Refusal::Enoent), b"", 0),
    ("0 stat /d/a", Reply::File { size: 0, pages: 0 }, b"", 0),
    // Bytes over two pages.
    (
        "3 write /d/a 4090 00010203040506070809",
        Reply::Count(10),
        b"",
        2,
    ),
    (
        "0 read /d/a 4088 14",
        Reply::Content,
        b"\0\0\0\x01\x02\x03\x04\x05\x06\x07\x08\x09",
        2,
    ),
    (
        "0 stat /d/a",
        Reply::File {
            size: 4100,
            pages: 2,
        },
        b"",
        2,
    ),
    // The first page is written anew, and the old one is freed by the commit behind it.
    ("0 write /d/a 0 68656c6c6f", Reply::Count(5), b"", 2),
    ("0 read /d/a 0 5", Reply::Content, b"hello", 2),
    ("0 write /x 0 68", Reply::No(Refusal::Enoent), b"", 2),
    // 65536 bytes over 17 pages, of which the file had two.
    ("0 fill /d/a 100 65536 61", Reply::Count(65536), b"", 17),
    ("0 read /d/a 98 4", Reply::Content, b"\0\0aa", 17),
    (
        "0 stat /d/a",
        Reply::File {
            size: 65636,
            pages: 17,
        },
        b"",
        17,
    ),
    ("0 truncate /d/a 8192", Reply::Done, b"", 2),
    ("0 truncate /d/a 3", Reply::Done, b"", 1),
    ("0 truncate /d/a 10", Reply::Done, b"", 1),
    ("0 read /d/a 0 11", Reply::Content, b"hel\0\0\0\0\0\0\0", 1),
    ("0 truncate /d 0", Reply::No(Refusal::Eisdir), b"", 1),
    ("0 create /b", Reply::Done, b"", 1),
    ("0 write /b 20000 01", Reply::Count(1), b"", 2),
    ("0 list /", Reply::Names(2), b" b d/", 2),
    ("0 rename /d/a /c", Reply::Done, b"", 2),
    ("0 list /", Reply::Names(3), b" b c d/", 2),
    ("0 rename /b /d", Reply::No(Refusal::Eisdir), b"", 2),
    // The page of the file that had the name is freed.
    ("0 rename /c /b", Reply::Done, b"", 1),
    ("0 read /b 0 3", Reply::Content, b"hel", 1),
    ("0 unlink /d", Reply::No(Refusal::Eisdir), b"", 1),
    ("0 rmdir /d", Reply::Done, b"", 1),
    ("0 rmdir /d", Reply::No(Refusal::Enoent), b"", 1),
    ("0 clean", Reply::Done, b"", 1),
    ("0 unlink /b", Reply::Done, b"", 0),
    ("0 unlink /b", Reply::No(Refusal::Enoent), b"", 0),
    ("0 list /", Reply::Names(0), b"", 0),
    (
        "0 sync",
        Reply::Synced {
            upto: 37,
            moment: 77,
        },
        b"",
        0,
    ),
    ("0 clean", Reply::Done, b"", 0),
    ("0 stat /", Reply::Dir { entries: 0 }, b"", 0),
];

/// Whether a row is answered as it has it.
fn answered<M: Nand>(
    alloc: Global,
    volume: &mut MapVolume<M>,
    row: &Row,
    out: &mut ReplyBuf,
) -> Result<bool, Memory>
    requires { Stands ⟦<Pagemap<M> as Counts>⟧ volume.old }
    ensures { Stands ⟦<Pagemap<M> as Counts>⟧ volume.new }
{
    let (line, reply, bytes, entries) = *row;
    let lines = match script_of(alloc, line.as_bytes()) {
        Ok(lines) => lines,
        Err(refusal) => {
            drop(refusal);
            return Err(Memory);
        }
    };
    if lines.len() != 1 {
        return Ok(false);
    }
    let answer = step(volume, lines.get(0), out);
    Ok(answer == reply && out.bytes() == bytes && volume.entries() == entries)
}

/// The place of the first row that is not answered as it has it, where they come one after the other. None where each is.
fn first_wrong<M: Nand>(
    alloc: Global,
    volume: &mut MapVolume<M>,
    rows: &[Row],
) -> Result<Option<usize>, Memory>
    requires { Stands ⟦<Pagemap<M> as Counts>⟧ volume.old }
{
    let mut out = ReplyBuf::new(alloc)?;
    let mut at = 0usize;
    for row in rows {
        if !answered(alloc, volume, row, &mut out)? {
            return Ok(Some(at));
        }
        at = at.saturating_add(1);
    }
    Ok(None)
}

/// The same on a new volume, whose program or erase of this number fails, where it is not zero.
fn wrong_of(alloc: Global, fails: u64, rows: &[Row]) -> Result<Option<usize>, Memory> {
    let mut volume = made(alloc, fails)?;
    let wrong = first_wrong(alloc, &mut volume, rows)?;
    drop(volume);
    Ok(wrong)
}

#[test]
fn rows(rt: HostRuntime) -> Result<(), Fail> {
    let wrong = wrong_of(rt.alloc(), 0, &ROWS)?;
    assert!(rt; wrong == None);
    Ok(())
}

// The third program behind the two of the new volume fails: that of the second page. The volume is read-only from then on.
const FAILING: [Row; 7] = [
    ("0 create /a", Reply::Done, b"", 0),
    ("0 write /a 0 61", Reply::Count(1), b"", 1),
    ("0 write /a 0 62", Reply::Fault(FaultReply::Eio(1)), b"", 1),
    ("0 read /a 0 2", Reply::Content, b"a", 1),
    ("0 unlink /a", Reply::Fault(FaultReply::Erofs(1)), b"", 1),
    ("0 sync", Reply::Fault(FaultReply::Erofs(1)), b"", 1),
    ("0 stat /a", Reply::File { size: 1, pages: 1 }, b"", 1),
];

#[test]
fn a_failing_program(rt: HostRuntime) -> Result<(), Fail> {
    let wrong = wrong_of(rt.alloc(), 4, &FAILING)?;
    assert!(rt; wrong == None);
    Ok(())
}
