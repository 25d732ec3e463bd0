// The program over a medium that tells nothing.
use crate::medium::Untold;
use nl_field::{FailList, Memory, Text};
use nl_io::{MemSink, MemSource, Words};
use nl_top::{Done, Gate, nameless};
use std::alloc::Global;
use std::mem;
use std::sync::Wait;
use std::thread::Threads;

/// What the program told.
#[derive(Drop)]
pub struct Told {
    pub status: u8,
    sink: MemSink,
}

impl Told {
    /// Whether the program ended with this status and this text.
    pub fn is(&self, status: u8, text: &str) -> bool {
        self.status == status && self.sink.bytes() == text.as_bytes()
    }
}

/// The room of a sink.
const ROOM: u32 = 100_000;

fn words_of(alloc: Global, line: &str) -> Result<Words, Memory> {
    let mut words = Words::new(alloc);
    for word in line.as_bytes().split(|byte| *byte == b' ') {
        if words.len() < 9 {
            words.push(word)?;
        }
    }
    Ok(words)
}

// Answers the words on a medium, and leaves the medium then. The function promises nothing, so that no caller carries what the call
// promises, and it alone owns a medium.
fn call<Rt: Threads + Wait + Sync, G: Gate + Sync>(
    rt: &Rt,
    alloc: Global,
    words: &Words,
    source: &mut MemSource,
    mut sink: MemSink,
    media: &mut Untold,
    gate: &G,
) -> Told {
    let before = mem::replace(media, Untold::new(alloc));
    let done = nameless(rt, alloc, words, source, &mut sink, before, gate);
    let Done {
        status,
        refused: _,
        media: after,
        syncs,
        order,
    } = done;
    drop(syncs);
    drop(order);
    *media = after;
    Told { status, sink }
}

/// What the program tells of these words and this script, under a gate.
pub fn tell<Rt: Threads + Wait + Sync, G: Gate + Sync>(
    rt: &Rt,
    alloc: Global,
    words: &str,
    script: &str,
    media: &mut Untold,
    gate: &G,
) -> Result<Told, Memory> {
    let words = words_of(alloc, words)?;
    let sink = MemSink::new(alloc, ROOM, FailList::new(alloc))?;
    let mut source = MemSource::new(Text::of(alloc, script.as_bytes())?, FailList::new(alloc));
    Ok(call(rt, alloc, &words, &mut source, sink, media, gate))
}
