// A file of 480 pages is written over and over.
ghost use Rattle.nl_pagemap_volume.specs.Volume.{Stands};

use crate::making::{made, step};
use nl_field::Memory;
use nl_iface::Counts;
use nl_nand::Nand;
use nl_pagemap::Pagemap;
use nl_pagemap_volume::MapVolume;
use nl_script::script_of;
use nl_tree::{Reply, ReplyBuf};
use std::alloc::Global;
use std::test::Fail;

/// Thirty calls that fill 16 pages each.
const FILLS: &str = "0 fill /a 0 65536 61
0 fill /a 65536 65536 61
0 fill /a 131072 65536 61
0 fill /a 196608 65536 61
0 fill /a 262144 65536 61
0 fill /a 327680 65536 61
0 fill /a 393216 65536 61
0 fill /a 458752 65536 61
0 fill /a 524288 65536 61
0 fill /a 589824 65536 61
0 fill /a 655360 65536 61
0 fill /a 720896 65536 61
0 fill /a 786432 65536 61
0 fill /a 851968 65536 61
0 fill /a 917504 65536 61
0 fill /a 983040 65536 61
0 fill /a 1048576 65536 61
0 fill /a 1114112 65536 61
0 fill /a 1179648 65536 61
0 fill /a 1245184 65536 61
0 fill /a 1310720 65536 61
0 fill /a 1376256 65536 61
0 fill /a 1441792 65536 61
0 fill /a 1507328 65536 61
0 fill /a 1572864 65536 61
0 fill /a 1638400 65536 61
0 fill /a 1703936 65536 61
0 fill /a 1769472 65536 61
0 fill /a 1835008 65536 61
0 fill /a 1900544 65536 61
";

/// How many of these calls are answered with the count of their bytes.
fn filled<M: Nand>(
    alloc: Global,
    volume: &mut MapVolume<M>,
    out: &mut ReplyBuf,
) -> Result<u32, Memory>
    requires { Stands ⟦<Pagemap<M> as Counts>⟧ volume.old }
    ensures { Stands ⟦<Pagemap<M> as Counts>⟧ volume.new }
{
    let lines = match script_of(alloc, FILLS.as_bytes()) {
        Ok(lines) => lines,
        Err(refusal) => {
            drop(refusal);
            return Err(Memory);
        }
    };
    let mut good = 0u32;
    for at in 0..lines.len() {
        if step(volume, lines.get(at), out) == Reply::Count(65536) {
            good = good.saturating_add(1);
        }
    }
    Ok(good)
}

/// How many calls are answered so where they come so often over, how many numbers are in use then, and what a clean and a sync answer.
fn over(alloc: Global, turns: u32) -> Result<(u32, u32), Memory> {
    let mut out = ReplyBuf::new(alloc)?;
    let mut volume = made(alloc, 0)?;
    let good = created_and_filled(alloc, &mut volume, turns, &mut out)?;
    let entries = volume.entries();
    drop(volume);
    Ok((good, entries))
}

/// The file is created, and filled so often.
fn created_and_filled<M: Nand>(
    alloc: Global,
    volume: &mut MapVolume<M>,
    turns: u32,
    out: &mut ReplyBuf,
) -> Result<u32, Memory>
    requires { Stands ⟦<Pagemap<M> as Counts>⟧ volume.old }
    ensures { Stands ⟦<Pagemap<M> as Counts>⟧ volume.new }
{
    if !created(alloc, volume, out)? {
        return Ok(0);
    }
    let mut good = 0u32;
    for turn in 0..turns {
        let _ = turn;
        good = good.saturating_add(filled(alloc, volume, out)?);
    }
    Ok(good)
}

/// Whether the file is created.
fn created<M: Nand>(
    alloc: Global,
    volume: &mut MapVolume<M>,
    out: &mut ReplyBuf,
) -> Result<bool, Memory>
    requires { Stands ⟦<Pagemap<M> as Counts>⟧ volume.old }
    ensures { Stands ⟦<Pagemap<M> as Counts>⟧ volume.new }
{
    let lines = match script_of(alloc, b"0 create /a") {
        Ok(lines) => lines,
        Err(refusal) => {
            drop(refusal);
            return Err(Memory);
        }
    };
    if lines.len() != 1 {
        return Ok(false);
    }
    Ok(step(volume, lines.get(0), out) == Reply::Done)
}

// The device has 736 pages to program before one has to be cleaned: 2,880 are.
#[test]
fn six_times_over(rt: HostRuntime) -> Result<(), Fail> {
    let told = over(rt.alloc(), 6)?;
    assert!(rt; told == (180, 480));
    Ok(())
}
