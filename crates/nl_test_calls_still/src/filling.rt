// A core that programs pages, drops them and commits, until the memory is full.
ghost use Rattle.nl_core.specs.Core.{IsCore};

use crate::running::{commit, drop_line, program};
use nl_core::Core;
use nl_field::{Memory, PageBuf};
use nl_iface::{Counts, MovingPages};
use nl_test_core_still::open_least;
use nl_testkit_still::Still;
use std::alloc::Global;
use std::test::Fail;

/// What a core tells: the blocks that can be written, the pairs of old names, the pages that were written, the number of the next one, and
/// the sum of both fault counts once it is read-only.
#[derive(Clone, Copy, PartialEq)]
struct Told {
    free: u32,
    pairs: u32,
    clock: u64,
    next: u64,
    stopped: u64,
}

fn seen_of(core: &Core<Still>) -> Told {
    Told {
        free: core.device.free_blocks(),
        pairs: core.device.pairs(),
        clock: core.device.clock(),
        next: core.device.next_stamp(),
        stopped: core.stopped,
    }
}

/// How many of so many lines of sixteen pages were programmed whole and dropped.
fn lines(core: &mut Core<Still>, count: u32, buf: &PageBuf) -> u32
    requires core { IsCore ⟦<Still as Counts>⟧ core.old }
    ensures core { IsCore ⟦<Still as Counts>⟧ core.new }
{
    let mut whole = 0u32;
    for turn in 0..count {
        let _ = turn;
        let done = program(core, 0, 16, buf);
        drop_line(core, 0);
        if done == 16 {
            whole = whole.saturating_add(1);
        }
    }
    whole
}

/// What is told of a new volume; after a line of sixteen pages, where a seventeenth finds no place; and after the line was dropped and a
/// commit made.
fn of_a_line(alloc: Global) -> Result<[Told; 3], Memory> {
    let buf = PageBuf::new(alloc)?;
    let mut core = open_least(alloc)?;
    let first = seen_of(&core);
    let done = program(&mut core, 3, 17, &buf);
    let second = seen_of(&core);
    drop_line(&mut core, 3);
    let number = commit(&mut core);
    let third = seen_of(&core);
    if done != 16 || number != Some(1) || core.committed != 0 {
        return Err(Memory);
    }
    Ok([first, second, third])
}

// The two pages of the new volume were written before. Sixteen pages lie in the first of the blocks, so that 22 whole ones can be written
// and the last one is kept. The commit writes a header, the image of the super page, its commit page, and the super page in its place.
const OF_A_LINE: [Told; 3] = [
    Told {
        free: 24,
        pairs: 0,
        clock: 2,
        next: 3,
        stopped: 0,
    },
    Told {
        free: 23,
        pairs: 0,
        clock: 18,
        next: 19,
        stopped: 0,
    },
    Told {
        free: 23,
        pairs: 0,
        clock: 22,
        next: 23,
        stopped: 0,
    },
];

#[test]
fn a_line(rt: HostRuntime) -> Result<(), Fail> {
    let told = of_a_line(rt.alloc())?;
    assert!(rt; told == OF_A_LINE);
    Ok(())
}

/// How many of 46 lines were programmed whole on a new volume, whether one page more was, and what is told then.
fn of_a_full_memory(alloc: Global) -> Result<(u32, u32, Told), Memory> {
    let buf = PageBuf::new(alloc)?;
    let mut core = open_least(alloc)?;
    let whole = lines(&mut core, 46, &buf);
    let more = program(&mut core, 0, 1, &buf);
    Ok((whole, more, seen_of(&core)))
}

// 736 pages fill 23 blocks. No block can be gained, since none is erased: the volume is read-only from the first try on.
const FULL: Told = Told {
    free: 1,
    pairs: 0,
    clock: 738,
    next: 739,
    stopped: 1,
};

#[test]
fn a_full_memory(rt: HostRuntime) -> Result<(), Fail> {
    let (whole, more, told) = of_a_full_memory(rt.alloc())?;
    assert!(rt; whole == 46 && more == 0 && told == FULL);
    Ok(())
}
