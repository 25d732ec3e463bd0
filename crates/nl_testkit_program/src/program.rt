// The program over a source, a sink and a medium in memory.
use nl_field::{FailList, Memory, Text};
use nl_io::{MemSink, MemSource, Words};
use nl_nand::{MemNand, Stop};
use nl_top::{Done, Gate, NoGate, OrderList, SyncList, nameless};
use nl_tree::Refusal;
use std::alloc::Global;
use std::mem;
use std::sync::Wait;
use std::thread::Threads;

/// What the program is given beside its medium: the words, the script, and the read of the source and the write of the sink that fail,
/// where they are not 0.
#[derive(Clone, Copy)]
pub struct Given<'a> {
    pub words: &'a str,
    pub script: &'a str,
    pub read: u64,
    pub write: u64,
}

/// What the program told.
#[derive(Drop)]
pub struct Told {
    pub status: u8,
    pub refused: Option<Refusal>,
    sink: MemSink,
    pub syncs: SyncList,
    pub order: OrderList,
}

impl Told {
    /// The bytes that the sink took.
    pub fn text(&self) -> &[u8] {
        self.sink.bytes()
    }

    /// Whether the program ended with this status and this text.
    pub fn is(&self, status: u8, text: &str) -> bool {
        self.status == status && self.text() == text.as_bytes()
    }

    /// What the last sync that was answered ok has made durable, 0 where there is none.
    pub fn synced(&self) -> u64 {
        let count = self.syncs.len();
        if 0 < count {
            self.syncs.get(count - 1).upto
        } else {
            0
        }
    }
}

/// The room of a sink, in bytes. No command of a test or of a trial prints as much.
const ROOM: u32 = 32_000_000;

/// The call of this number fails, where it is not 0.
pub fn only(alloc: Global, number: u64) -> Result<FailList, Memory> {
    let mut list = FailList::new(alloc);
    if 0 < number {
        list.push(number)?;
    }
    Ok(list)
}

/// A medium that was never formed.
pub fn blank(alloc: Global) -> MemNand {
    MemNand::new(alloc, FailList::new(alloc), FailList::new(alloc), None)
}

fn words_of(alloc: Global, line: &str) -> Result<Words, Memory> {
    let mut words = Words::new(alloc);
    for word in line.as_bytes().split(|byte| *byte == b' ') {
        if words.len() < 9 {
            words.push(word)?;
        }
    }
    Ok(words)
}

// Answers the words on a medium, and leaves the medium then. The function promises nothing, so that no caller carries what the call
// promises, and it alone owns a medium.
fn call<Rt: Threads + Wait + Sync, G: Gate + Sync>(
    rt: &Rt,
    alloc: Global,
    words: &Words,
    source: &mut MemSource,
    mut sink: MemSink,
    media: &mut MemNand,
    gate: &G,
) -> Told {
    let before = mem::replace(media, blank(alloc));
    let done = nameless(rt, alloc, words, source, &mut sink, before, gate);
    let Done {
        status,
        refused,
        media: after,
        syncs,
        order,
    } = done;
    *media = after;
    Told {
        status,
        refused,
        sink,
        syncs,
        order,
    }
}

fn source_of(alloc: Global, given: &Given<'_>) -> Result<MemSource, Memory> {
    let failing = only(alloc, given.read)?;
    Ok(MemSource::new(Text::of(alloc, given.script.as_bytes())?, failing))
}

fn sink_of(alloc: Global, given: &Given<'_>) -> Result<MemSink, Memory> {
    MemSink::new(alloc, ROOM, only(alloc, given.write)?)
}

fn tell_words<Rt: Threads + Wait + Sync, G: Gate + Sync>(
    rt: &Rt,
    alloc: Global,
    words: &Words,
    given: &Given<'_>,
    media: &mut MemNand,
    gate: &G,
) -> Result<Told, Memory> {
    let sink = sink_of(alloc, given)?;
    let mut source = source_of(alloc, given)?;
    Ok(call(rt, alloc, words, &mut source, sink, media, gate))
}

/// The program, its medium, and what was told otherwise than wanted first.
#[derive(Drop)]
pub struct Rig<'a, Rt: Threads + Wait + Sync> {
    rt: &'a Rt,
    pub alloc: Global,
    pub media: MemNand,
    wrong: String,
}

impl<'a, Rt: Threads + Wait + Sync> Rig<'a, Rt> {
    /// The program with this medium, and nothing told otherwise than wanted.
    pub fn on(rt: &'a Rt, alloc: Global, media: MemNand) -> Rig<'a, Rt> {
        Rig {
            rt,
            alloc,
            media,
            wrong: String::new(alloc),
        }
    }

    /// The program with a medium that was never formed.
    pub fn new(rt: &'a Rt, alloc: Global) -> Rig<'a, Rt> {
        Rig::on(rt, alloc, blank(alloc))
    }

    /// The medium is as after a crash, with its next stop.
    pub fn restart(&mut self, stop: Option<Stop>) {
        let before = mem::replace(&mut self.media, blank(self.alloc));
        self.media = before.restart(stop);
    }

    /// What the program tells, under a gate.
    pub fn tell_with<G: Gate + Sync>(
        &mut self,
        given: &Given<'_>,
        gate: &G,
    ) -> Result<Told, Memory> {
        let words = words_of(self.alloc, given.words)?;
        tell_words(self.rt, self.alloc, &words, given, &mut self.media, gate)
    }

    /// What the program tells of these words and this script.
    pub fn tell(&mut self, words: &str, script: &str) -> Result<Told, Memory> {
        let given = Given {
            words,
            script,
            read: 0,
            write: 0,
        };
        self.tell_with(&given, &NoGate)
    }

    /// Notes that this is otherwise than wanted. It gives false.
    pub fn note(&mut self, text: &str) -> Result<bool, Memory> {
        self.wrong = String::from_str(self.alloc, text)?;
        Ok(false)
    }

    /// Notes what was told, in place of what was wanted. It gives false.
    pub fn note_told(&mut self, words: &str, told: &Told) -> Result<bool, Memory> {
        let status = told.status;
        let text = String::from_utf8_lossy(self.alloc, told.text())?;
        self.wrong = format!(in self.alloc; "{words}: status {status}\n{text}")?;
        Ok(false)
    }

    /// Notes of what is noted which of several runs it is of. It gives false.
    pub fn note_run(&mut self, number: u64) -> Result<bool, Memory> {
        let wrong = self.wrong.as_str();
        let noted = format!(in self.alloc; "{number}: {wrong}")?;
        self.wrong = noted;
        Ok(false)
    }

    /// What was noted, and the empty text where all was right.
    pub fn ended(self, right: Result<bool, Memory>) -> Result<String, Memory> {
        let Rig {
            rt: _,
            alloc,
            media,
            wrong,
        } = self;
        drop(media);
        if right? {
            return Ok(String::new(alloc));
        }
        if wrong.is_empty() {
            return String::from_str(alloc, "otherwise than wanted");
        }
        Ok(wrong)
    }
}
