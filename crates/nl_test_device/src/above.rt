// Tests of the crates above a device: commits that are stopped, and fetches whose read fails.
use crate::fetching::{Fetched, fetched_twice};
use crate::journal::{Stopped, stopped_at};
use nl_field::Memory;
use nl_inode::Fetch;
use nl_journal::ReadBack;
use nl_nand::Cut;
use std::alloc::Global;
use std::test::Fail;

const NONE: [Option<u8>; 5] = [None; 5];

const FIRST: [Option<u8>; 5] = [Some(1); 5];

const SECOND: [Option<u8>; 5] = [Some(2); 5];

const CUTS: [Cut; 3] = [Cut::Before, Cut::After, Cut::Spoilt];

/// What is found after a stop within one of these operations, for each cut.
struct Row {
    first: u64,
    last: u64,
    found: [ReadBack; 3],
    bytes: [[Option<u8>; 5]; 3],
}

// A transaction of five pages is a header, five images, the commit page and five pages that are copied home: the operations 1 to 12,
// and then 13 to 24. Up to the commit page the old pages stand. A header that was not programmed leaves the transaction before, which
// counts still; with another header none counts until its commit page stands.
const ROWS: [Row; 8] = [
    Row {
        first: 1,
        last: 6,
        found: [ReadBack::Nothing; 3],
        bytes: [NONE; 3],
    },
    Row {
        first: 7,
        last: 7,
        found: [ReadBack::Nothing, ReadBack::Agreed(1), ReadBack::Nothing],
        bytes: [NONE, FIRST, NONE],
    },
    Row {
        first: 8,
        last: 12,
        found: [ReadBack::Agreed(1); 3],
        bytes: [FIRST; 3],
    },
    Row {
        first: 13,
        last: 13,
        found: [ReadBack::Agreed(1), ReadBack::Nothing, ReadBack::Agreed(1)],
        bytes: [FIRST; 3],
    },
    Row {
        first: 14,
        last: 18,
        found: [ReadBack::Nothing; 3],
        bytes: [FIRST; 3],
    },
    Row {
        first: 19,
        last: 19,
        found: [ReadBack::Nothing, ReadBack::Agreed(2), ReadBack::Nothing],
        bytes: [FIRST, SECOND, FIRST],
    },
    Row {
        first: 20,
        last: 24,
        found: [ReadBack::Agreed(2); 3],
        bytes: [SECOND; 3],
    },
    Row {
        first: 25,
        last: 25,
        found: [ReadBack::Agreed(2); 3],
        bytes: [SECOND; 3],
    },
];

// The first operation and cut after which something else is found.
fn commits_differ(alloc: Global) -> Result<Option<(u64, usize)>, Memory> {
    for row in &ROWS {
        for operation in row.first..row.last.saturating_add(1) {
            for cut in 0..3usize {
                let want = Stopped {
                    found: row.found[cut],
                    brought: row.found[cut],
                    bytes: row.bytes[cut],
                };
                if stopped_at(alloc, operation, CUTS[cut])? != want {
                    return Ok(Some((operation, cut)));
                }
            }
        }
    }
    Ok(None)
}

// A stop within each operation of two commits, with each cut. The committed pages are wholly those before the commit or wholly those
// after it.
#[test]
fn a_commit_is_whole_or_not(rt: HostRuntime) -> Result<(), Fail> {
    assert_eq!(rt; commits_differ(rt.alloc())?, None);
    Ok(())
}

const FAULT: Fetched = Fetched {
    answer: Fetch::Fault,
    byte: None,
    slots: 0,
};

const READY: Fetched = Fetched {
    answer: Fetch::Ready,
    byte: Some(7),
    slots: 1,
};

// The read of a page that is fetched fails, and nothing changed; the next one has the page, and a page that is resident is not read.
#[test]
fn a_read_fails(rt: HostRuntime) -> Result<(), Fail> {
    assert!(rt; fetched_twice(rt.alloc(), 67, 1)? == [FAULT, READY]);
    assert!(rt; fetched_twice(rt.alloc(), 67, 2)? == [READY, READY]);
    Ok(())
}
