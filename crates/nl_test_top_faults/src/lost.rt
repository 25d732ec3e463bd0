// A page is lost in a turn that stages, in a background task, and as the volume is closed. No answer tells it, only the status does.
use crate::medium::{Lie, Untold};
use crate::told::tell;
use nl_field::Memory;
use nl_testkit_program::built::{Built, full};
use nl_top::{Gate, GatePlace, NoGate};
use std::alloc::Global;
use std::sync::Wait;
use std::sync::atomic::{AtomicU32, Ordering};
use std::thread;
use std::thread::Threads;

/// The pages of a medium of 32 blocks of 32 pages.
const PAGES: u32 = 1024;

/// An opening reads each page, and then some of those below the first page of files.
const OPENING: u64 = 1024;

/// The first page behind the segment of pages by address.
const FILES: u32 = 256;

const FORMATTED: &str = "formatted blocks 32 pages 32 data 480 nodes 64 meta 32\n";

/// One read of a page of files shows another page: the first one behind an opening's.
const OF_FILES: Lie = Lie {
    reads: OPENING,
    writes: 0,
    left: 1,
    from: FILES,
    below: PAGES,
};

/// One read of a page by address shows another page: the first one behind the first program.
const BY_ADDRESS: Lie = Lie {
    reads: 0,
    writes: 1,
    left: 1,
    from: 0,
    below: FILES,
};

// Whether these words and this script tell that under a gate.
fn is_told<Rt: Threads + Wait + Sync, G: Gate + Sync>(
    rt: &Rt,
    alloc: Global,
    script: &str,
    status: u8,
    text: &str,
    media: &mut Untold,
    gate: &G,
) -> Result<bool, Memory> {
    let words = if script.is_empty() {
        "format 32 32"
    } else {
        "run"
    };
    let told = tell(rt, alloc, words, script, media, gate)?;
    let is = told.is(status, text);
    drop(told);
    Ok(is)
}

// Whether a new volume whose files have all pages is made.
fn is_full<Rt: Threads + Wait + Sync>(
    rt: &Rt,
    alloc: Global,
    media: &mut Untold,
) -> Result<bool, Memory> {
    let full = full(alloc)?;
    let (_, script, status, text) = full.step();
    let is = is_told(rt, alloc, "", 0, FORMATTED, media, &NoGate)?
        && is_told(rt, alloc, script, status, text, media, &NoGate)?;
    drop(full);
    Ok(is)
}

// Whether these lines on such a volume are answered as ever where one read shows another page, and the status is 5.
fn is_lost<Rt: Threads + Wait + Sync, G: Gate + Sync>(
    rt: &Rt,
    alloc: Global,
    built: &Built,
    media: &mut Untold,
    gate: &G,
) -> Result<bool, Memory> {
    if !is_full(rt, alloc, media)? {
        return Ok(false);
    }
    media.lie(OF_FILES);
    let (_, script, _, text) = built.step();
    Ok(is_told(rt, alloc, script, 5, text, media, gate)? && media.left() == 0)
}

// The first half of each 32 pages of the file is written over, and then the third quarter of each. No sync comes between, so that a page
// that is staged has to make room, and each block that held the file still has pages of it, which are read to be copied. The cleaner is
// not held: where it makes room first, it is the one that reads them.
fn staging(alloc: Global) -> Result<Built, Memory> {
    let mut built = Built::new(alloc, 33)?;
    write_pieces(alloc, &mut built, 0, 65_536)?;
    write_pieces(alloc, &mut built, 65_536, 32_768)?;
    Ok(built)
}

// So many bytes of each 32 pages of the file are written over, from these on.
fn write_pieces(alloc: Global, built: &mut Built, first: u64, bytes: u32) -> Result<(), Memory> {
    for piece in 0..15u64 {
        let from = piece.saturating_mul(131_072).saturating_add(first);
        let call = format!(in alloc; "fill /a {from} {bytes} 62")?;
        let answer = format!(in alloc; "ok {bytes}")?;
        let added = built.add(call.as_str(), answer.as_str());
        drop(answer);
        drop(call);
        added?;
    }
    Ok(())
}

fn staging_loses<Rt: Threads + Wait + Sync>(rt: &Rt, alloc: Global) -> Result<bool, Memory> {
    let built = staging(alloc)?;
    let mut media = Untold::new(alloc);
    let is = is_lost(rt, alloc, &built, &mut media, &NoGate);
    drop(built);
    drop(media);
    is
}

#[test]
fn a_page_is_lost_while_one_is_staged(rt: HostRuntime) {
    assert!(rt; staging_loses(&rt, rt.alloc()) == Ok(true));
}

/// Worker 0 is held before its line 10 until the cleaner has done some tasks.
#[derive(Drop)]
struct Cleaned {
    tasks: AtomicU32,
}

/// How often the gate looks before it lets a worker go on.
const LOOKS: u32 = 20_000_000;

impl Gate for Cleaned {
    ghost heard = { λ gate worker line place. Unit {0} };

    fn at(&self, worker: u8, line: u32, place: GatePlace) {
        if worker == 8 && place == GatePlace::After {
            self.tasks.fetch_add(1, Ordering::SeqCst);
        }
        if worker == 0 && line == 10 && place == GatePlace::Before {
            for _ in 0..LOOKS {
                if self.tasks.load(Ordering::SeqCst) > 4 {
                    return;
                }
                thread::yield_now();
            }
        }
    }
}

// Every second piece of the first 224 pages is written over, and the pages that held it are given up.
fn cleaning(alloc: Global) -> Result<Built, Memory> {
    let mut built = Built::new(alloc, 33)?;
    for piece in 0..7u64 {
        let from = piece.saturating_mul(131_072);
        let call = format!(in alloc; "fill /a {from} 65536 62")?;
        let added = built.add(call.as_str(), "ok 65536");
        drop(call);
        added?;
    }
    built.add("sync", "ok 40")?;
    built.barrier()?;
    built.add("stat /a", "ok file 1966080 480")?;
    Ok(built)
}

fn cleaning_loses<Rt: Threads + Wait + Sync>(rt: &Rt, alloc: Global) -> Result<bool, Memory> {
    let built = cleaning(alloc)?;
    let mut media = Untold::new(alloc);
    let gate = Cleaned {
        tasks: AtomicU32::new(0),
    };
    let is = is_lost(rt, alloc, &built, &mut media, &gate);
    drop(built);
    drop(media);
    is
}

#[test]
fn a_page_is_lost_in_a_background_task(rt: HostRuntime) {
    assert!(rt; cleaning_loses(&rt, rt.alloc()) == Ok(true));
}

// A directory with a file in it, made after so many calls.
fn directory(alloc: Global, opened: u64) -> Result<Built, Memory> {
    let mut built = Built::new(alloc, opened)?;
    let call = format!(in alloc; "mkdir /d{opened}")?;
    let added = built.add(call.as_str(), "ok");
    drop(call);
    added?;
    let call = format!(in alloc; "create /d{opened}/x")?;
    let added = built.add(call.as_str(), "ok");
    drop(call);
    added?;
    Ok(built)
}

// The status of a run that makes a directory, where its answers are as ever.
fn status_of<Rt: Threads + Wait + Sync>(
    rt: &Rt,
    alloc: Global,
    opened: u64,
    media: &mut Untold,
) -> Result<Option<u8>, Memory> {
    let built = directory(alloc, opened)?;
    let (_, script, _, text) = built.step();
    let told = tell(rt, alloc, "run", script, media, &NoGate)?;
    let status = if told.is(told.status, text) {
        Some(told.status)
    } else {
        None
    };
    drop(told);
    drop(built);
    Ok(status)
}

/// So many directories can be made, each with a file in it.
const DIRECTORIES: u64 = 30;

// The commit at closing programs pages, and at last has to copy some to make room. No run commits before. Whether each run ends with status
// 0 until the closing of one reads a page, which shows another one, and that one ends with status 5.
fn closing_right<Rt: Threads + Wait + Sync>(
    rt: &Rt,
    alloc: Global,
    media: &mut Untold,
) -> Result<bool, Memory> {
    if !is_told(rt, alloc, "", 0, FORMATTED, media, &NoGate)? {
        return Ok(false);
    }
    for at in 0..DIRECTORIES {
        media.lie(BY_ADDRESS);
        let status = status_of(rt, alloc, at.saturating_mul(2), media)?;
        if media.left() == 0 {
            return Ok(status == Some(5));
        }
        if status != Some(0) {
            return Ok(false);
        }
    }
    Ok(false)
}

fn closing_loses<Rt: Threads + Wait + Sync>(rt: &Rt, alloc: Global) -> Result<bool, Memory> {
    let mut media = Untold::new(alloc);
    let is = closing_right(rt, alloc, &mut media);
    drop(media);
    is
}

#[test]
fn a_page_is_lost_as_the_volume_is_closed(rt: HostRuntime) {
    assert!(rt; closing_loses(&rt, rt.alloc()) == Ok(true));
}
