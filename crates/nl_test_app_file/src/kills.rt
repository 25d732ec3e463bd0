// The program on a store in memory, killed within a write or with a write that fails, and run again on what was left.
use crate::killed::{Killed, Trouble};
use nl_app_file::{Ending, OnStore, answer_on};
use nl_field::{FailList, Memory, Text};
use nl_io::{MemSink, MemSource, Words};
use std::alloc::Global;
use std::sync::Wait;
use std::test::Fail;
use std::thread::Threads;

const FORMAT: &str = "format 32 32";

const RUN: &str = "run";

/// The note is written and synced, and then it is written over.
const SAVE: &[u8] = b"0 create /note\n0 write /note 0 6f6e65\n0 sync\n0 write /note 0 74776f\n";

const LOOK: &[u8] = b"0 read /note 0 3\n";

/// What a look prints of a volume on which nothing of the note is, of one with the synced note, and of one with the later one.
const NONE: &[u8] = b" ENOENT\n";

const ONE: &[u8] = b" ok 6f6e65\n";

const TWO: &[u8] = b" ok 74776f\n";

/// What a run prints of a sync that was answered.
const SYNCED: &[u8] = b"\n3 @3 ok ";

fn words_of(alloc: Global, text: &str) -> Result<Words, Memory> {
    let mut words = Words::new(alloc);
    for word in text.split(' ').take(3) {
        if words.len() < 10 {
            words.push(word.as_bytes())?;
        }
    }
    Ok(words)
}

// Answers words on a store of these bytes, and gives what it then holds. The function promises nothing, so that no caller carries what the
// call promises.
fn answered<Rt: AllocGlobal + Threads + Wait + Sync>(
    rt: &Rt,
    text: &str,
    script: &[u8],
    bytes: Vec<u8>,
    trouble: Trouble,
    sink: &mut MemSink,
) -> Result<(bool, Vec<u8>), Memory> {
    let alloc = rt.alloc();
    let words = words_of(alloc, text)?;
    let mut source = MemSource::new(Text::of(alloc, script)?, FailList::new(alloc));
    let store = Killed::new(bytes, trouble);
    let OnStore { ending, store } = answer_on(rt, alloc, &words, &mut source, sink, store);
    drop(source);
    drop(words);
    let done = matches!(ending, Ok(Ending { status: 0, .. }));
    Ok((done, store.into_bytes()))
}

fn has(text: &[u8], part: &[u8]) -> bool {
    !part.is_empty() && text.windows(part.len()).any(|window| window == part)
}

fn ends(text: &[u8], part: &[u8]) -> bool {
    text.ends_with(part)
}

/// Whether a look at what the trouble left of a saving prints a prefix of the calls that holds the synced ones.
fn is_safe<Rt: AllocGlobal + Threads + Wait + Sync>(
    rt: &Rt,
    volume: &[u8],
    trouble: Trouble,
) -> Result<bool, Memory> {
    let alloc = rt.alloc();
    let mut saved = MemSink::new(alloc, 1000, FailList::new(alloc))?;
    let (_, bytes) = answered(rt, RUN, SAVE, volume.to_vec(alloc)?, trouble, &mut saved)?;
    let mut seen = MemSink::new(alloc, 1000, FailList::new(alloc))?;
    let (done, _) = answered(rt, RUN, LOOK, bytes, Trouble::None, &mut seen)?;
    let text = seen.bytes();
    let one = ends(text, ONE) || ends(text, TWO);
    let is = if has(saved.bytes(), SYNCED) {
        done && one
    } else {
        done && (one || ends(text, NONE) || ends(text, b" ok\n"))
    };
    drop(saved);
    drop(seen);
    Ok(is)
}

/// The first call, up to this number, with which it is not so: killed before its first byte, within it, or failing. None where there is
/// none.
fn first_unsafe<Rt: AllocGlobal + Threads + Wait + Sync>(
    rt: &Rt,
    volume: &[u8],
    calls: u64,
) -> Result<Option<u64>, Memory> {
    for call in 1..=calls {
        for trouble in [
            Trouble::Killed(call, 0),
            Trouble::Killed(call, 3),
            Trouble::Fails(call),
        ] {
            if !is_safe(rt, volume, trouble)? {
                return Ok(Some(call));
            }
        }
    }
    Ok(None)
}

// Each program is two writes. A run of one worker makes 32 calls, more where the cleaner comes in; the last rows are of no trouble.
const CALLS: u64 = 34;

#[test]
fn a_killed_run_keeps_what_was_synced(rt: HostRuntime) -> Result<(), Fail> {
    let alloc = rt.alloc();
    let mut sink = MemSink::new(alloc, 1000, FailList::new(alloc))?;
    let (done, volume) = answered(&rt, FORMAT, b"", Vec::new(alloc), Trouble::None, &mut sink)?;
    drop(sink);
    let found = if done {
        first_unsafe(&rt, &volume, CALLS)?
    } else {
        Some(0)
    };
    assert_eq!(rt; found, None);
    Ok(())
}

/// Whether a format with trouble leaves a store that opens as blank, as damaged, or as the empty volume.
fn is_formed_or_not<Rt: AllocGlobal + Threads + Wait + Sync>(
    rt: &Rt,
    trouble: Trouble,
) -> Result<bool, Memory> {
    let alloc = rt.alloc();
    let mut sink = MemSink::new(alloc, 1000, FailList::new(alloc))?;
    let (_, bytes) = answered(rt, FORMAT, b"", Vec::new(alloc), trouble, &mut sink)?;
    let mut seen = MemSink::new(alloc, 1000, FailList::new(alloc))?;
    let _ = answered(rt, RUN, LOOK, bytes, Trouble::None, &mut seen)?;
    let text = seen.bytes();
    let is = text == b"blank\n".as_slice()
        || text.starts_with(b"damaged 0 super")
        || ends(text, NONE);
    drop(sink);
    drop(seen);
    Ok(is)
}

/// The first call of a format with which it is not so, killed before its first byte or within it. None where there is none.
fn first_half_formed<Rt: AllocGlobal + Threads + Wait + Sync>(
    rt: &Rt,
    calls: u64,
) -> Result<Option<u64>, Memory> {
    for call in 1..=calls {
        for bytes in [0, 1, 17, 4000] {
            if !is_formed_or_not(rt, Trouble::Killed(call, bytes))? {
                return Ok(Some(call));
            }
        }
    }
    Ok(None)
}

// A format has three calls for the forming, and two for each of its two programs.
#[test]
fn a_killed_format_leaves_no_half_volume(rt: HostRuntime) -> Result<(), Fail> {
    let found = first_half_formed(&rt, 8)?;
    assert_eq!(rt; found, None);
    Ok(())
}
