// Worked rows of one worker on a new volume of 32 blocks of 32 pages.
ghost use Rattle.std.specs.Prelude.{◌≡◌, ◌≤◌, ◌^◌, IfOk, IfSome};
ghost use Rattle.nl_pagemap_volume.specs.Serving.{CoreServes};
ghost use Rattle.nl_tree.specs.Calls.{IsLine};

use crate::running::is_read_only;
use nl_core::Core;
use nl_field::{Memory, PageBuf};
use nl_iface::Counts;
use nl_pagemap_volume::serve_call;
use nl_script::script_of;
use nl_test_core_still::open_least;
use nl_testkit_still::Still;
use nl_tree::{FaultReply, Line, Refusal, Reply, ReplyBuf};
use std::alloc::Global;
use std::test::Fail;

/// A line as a script has it, its reply, and the bytes that belong to it: what was read, or the names as they are printed.
type Row = (&'static str, Reply, &'static [u8]);

const ROWS: [Row; 58] = [
    ("0 list /", Reply::Names(0), b""),
    ("0 stat /", Reply::Dir { entries: 0 }, b""),
    // The making of the volume wrote two pages. A commit writes a header, the super page's image and the commit page, then the super page.
    ("0 sync", Reply::Synced { upto: 2, moment: 5 }, b""),
    ("0 mkdir /d", Reply::Done, b""),
    ("0 mkdir /d", Reply::No(Refusal::Eexist), b""),
    ("0 mkdir /", Reply::No(Refusal::Eexist), b""),
    ("0 create /d/a", Reply::Done, b""),
    ("0 create /d/a", Reply::No(Refusal::Eexist), b""),
    ("0 create /x/y", Reply::No(Refusal::Enoent), b""),
    ("0 create /d/a/y", Reply::No(Refusal::Enotdir), b""),
    ("0 stat /d/a", Reply::File { size: 0, pages: 0 }, b""),
    // Bytes over two pages.
    (
        "0 write /d/a 4090 00010203040506070809",
        Reply::Count(10),
        b"",
    ),
    (
        "0 read /d/a 4088 14",
        Reply::Content,
        b"\0\0\0\x01\x02\x03\x04\x05\x06\x07\x08\x09",
    ),
    (
        "0 stat /d/a",
        Reply::File {
            size: 4100,
            pages: 2,
        },
        b"",
    ),
    // Two pages of the file were written after the six of before. Then come a header, the images of the super page, of the page of nodes
    // and of both directories' entries, the commit page, and the four pages in their places.
    (
        "0 sync",
        Reply::Synced {
            upto: 14,
            moment: 14,
        },
        b"",
    ),
    ("0 write /d/a 0 68656c6c6f", Reply::Count(5), b""),
    ("0 read /d/a 0 5", Reply::Content, b"hello"),
    ("0 read /d/a 4100 9", Reply::Content, b""),
    // What is cut off is zero when the file grows again.
    ("0 truncate /d/a 3", Reply::Done, b""),
    ("0 truncate /d/a 10", Reply::Done, b""),
    ("0 read /d/a 0 11", Reply::Content, b"hel\0\0\0\0\0\0\0"),
    ("0 stat /d/a", Reply::File { size: 10, pages: 1 }, b""),
    ("0 truncate /d/a 16809985", Reply::No(Refusal::Efbig), b""),
    ("0 truncate /d 0", Reply::No(Refusal::Eisdir), b""),
    ("0 truncate /x 0", Reply::No(Refusal::Enoent), b""),
    // A hole.
    ("0 create /b", Reply::Done, b""),
    ("0 write /b 20000 01", Reply::Count(1), b""),
    ("0 read /b 19998 9", Reply::Content, b"\0\0\x01"),
    (
        "0 stat /b",
        Reply::File {
            size: 20001,
            pages: 1,
        },
        b"",
    ),
    ("0 write /d 0 01", Reply::No(Refusal::Eisdir), b""),
    ("0 read /x 0 1", Reply::No(Refusal::Enoent), b""),
    // Names.
    ("0 list /", Reply::Names(2), b" b d/"),
    ("0 list /d", Reply::Names(1), b" a"),
    ("0 rename /d/a /c", Reply::Done, b""),
    ("0 list /", Reply::Names(3), b" b c d/"),
    ("0 list /d", Reply::Names(0), b""),
    ("0 rename /d /d/x", Reply::No(Refusal::Einval), b""),
    ("0 rename /b /d", Reply::No(Refusal::Eisdir), b""),
    ("0 rename /d /b", Reply::No(Refusal::Enotdir), b""),
    ("0 rename /c /b", Reply::Done, b""),
    ("0 read /b 0 3", Reply::Content, b"hel"),
    ("0 stat /c", Reply::No(Refusal::Enoent), b""),
    ("0 list /b", Reply::No(Refusal::Enotdir), b""),
    ("0 unlink /d", Reply::No(Refusal::Eisdir), b""),
    ("0 rmdir /b", Reply::No(Refusal::Enotdir), b""),
    ("0 mkdir /d/e", Reply::Done, b""),
    ("0 rmdir /d", Reply::No(Refusal::Enotempty), b""),
    ("0 rmdir /d/e", Reply::Done, b""),
    ("0 rmdir /d", Reply::Done, b""),
    ("0 rmdir /d", Reply::No(Refusal::Enoent), b""),
    ("0 fill /b 4090 10 61", Reply::Count(10), b""),
    ("0 read /b 4088 14", Reply::Content, b"\0\0aaaaaaaaaa"),
    (
        "0 stat /b",
        Reply::File {
            size: 4100,
            pages: 2,
        },
        b"",
    ),
    ("0 unlink /b", Reply::Done, b""),
    ("0 unlink /b", Reply::No(Refusal::Enoent), b""),
    ("0 stat /", Reply::Dir { entries: 0 }, b""),
    ("0 list /", Reply::Names(0), b""),
    // The victim's erase fails, which is counted, and no read did.
    ("0 clean", Reply::Fault(FaultReply::Eio(1)), b""),
];

/// How many pages files have after the line of a row. None where it is not answered as the row has it.
fn answered(
    alloc: Global,
    core: &mut Core<Still>,
    files: u32,
    row: &Row,
    out: &mut ReplyBuf,
    page: &mut PageBuf,
) -> Result<Option<u32>, Memory>
    requires serves { CoreServes ⟦<Still as Counts>⟧ files core.old }
    ensures { IfOk result (λ o. IfSome o (λ f. CoreServes ⟦<Still as Counts>⟧ f core.new)) }
{
    let (line, reply, bytes) = *row;
    let lines = match script_of(alloc, line.as_bytes()) {
        Ok(lines) => lines,
        Err(refusal) => {
            drop(refusal);
            return Err(Memory);
        }
    };
    if lines.len() != 1 {
        return Ok(None);
    }
    if is_read_only(core) {
        return Ok(None);
    }
    let Line { worker, call, .. } = lines.get(0);
    let answer = serve_call(core, *worker, call, files, out, page);
    if answer.reply == reply && out.bytes() == bytes {
        Ok(Some(answer.files))
    } else {
        Ok(None)
    }
}

/// The place of the first row that is not answered as it has it, where they come one after the other. None where each is.
fn first_wrong(alloc: Global, core: &mut Core<Still>, rows: &[Row]) -> Result<Option<usize>, Memory>
    requires serves { CoreServes ⟦<Still as Counts>⟧ 0 core.old }
{
    let mut out = ReplyBuf::new(alloc)?;
    let mut page = PageBuf::new(alloc)?;
    let mut files = 0u32;
    let mut at = 0usize;
    for row in rows {
        match answered(alloc, core, files, row, &mut out, &mut page)? {
            Some(now) => files = now,
            None => return Ok(Some(at)),
        }
        at = at.saturating_add(1);
    }
    Ok(None)
}

fn wrong_of(alloc: Global, rows: &[Row]) -> Result<Option<usize>, Memory> {
    let mut core = open_least(alloc)?;
    first_wrong(alloc, &mut core, rows)
}

#[test]
fn rows(rt: HostRuntime) -> Result<(), Fail> {
    let wrong = wrong_of(rt.alloc(), &ROWS)?;
    assert!(rt; wrong == None);
    Ok(())
}
