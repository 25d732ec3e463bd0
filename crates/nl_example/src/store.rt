// One command of the store on a medium of whatever type meets the trait `Nand`.
ghost use Rattle.std.specs.Prelude.{Some};
ghost use Rattle.nl_spec_headline.specs.Streams.{medium_seen, stream};
ghost use Rattle.nl_cmd_words.specs.Command.{command_of};
ghost use Rattle.nl_cmd_words.specs.Complete.{NothingRose};
ghost use Rattle.nl_cmd_words.specs.Paths.{path_word};
ghost use Rattle.nl_top.specs.Complete.{CarriesOut};
ghost use Rattle.nl_top.specs.Ends.{CallEnds};
ghost use Rattle.nl_top.specs.Leaving.{leaves_within};

use nl_field::{FailList, Memory, Text};
use nl_io::{MemSink, MemSource, Words};
use nl_nand::{MemNand, Nand};
use nl_top::{Done, NoGate, nameless};
use std::alloc::Global;
use std::sync::Wait;
use std::thread::Threads;

// The room of a sink.
const ROOM: u32 = 10_000;

/// A medium in memory that was never formed. No call of it fails, and none stops.
pub(crate) fn blank(alloc: Global) -> MemNand {
    MemNand::new(alloc, FailList::new(alloc), FailList::new(alloc), None)
}

// The words of a line, at most nine.
fn words_of(alloc: Global, line: &str) -> Result<Words, Memory> {
    let mut words = Words::new(alloc);
    for word in line.as_bytes().split(|byte| *byte == b' ') {
        if words.len() < 9 {
            words.push(word)?;
        }
    }
    Ok(words)
}

/// Answers the words of a command line on a medium, over a source and a sink in memory.
///
/// It ends as the words, the medium and what failed have it: with that status, that text in the sink, and that medium, of which it is said
/// too what a stop left on the way. Where no count of faults rose, the command was carried out, unless memory was wanting.
pub(crate) fn answer<Rt: Threads + Wait + Sync, M: Nand + Send>(
    rt: &Rt,
    alloc: Global,
    words: &Words,
    source: &mut MemSource,
    sink: &mut MemSink,
    media: M,
) -> Done<M>
    ensures ended { CallEnds M.tells words.now (leaves_within M.Nand media result.media)
        (stream (Some source.old.left) source.old.faults) (stream (Some source.new.left) source.new.faults)
        (stream (Some sink.old.taken) sink.old.faults) (stream (Some sink.new.taken) sink.new.faults)
        (medium_seen M.Nand media) (medium_seen M.Nand result.media) result.order.items result.syncs.items
        result.refused result.status }
    ensures completes { NothingRose (stream (Some source.old.left) source.old.faults) (stream (Some source.new.left) source.new.faults)
        (stream (Some sink.old.taken) sink.old.faults) (stream (Some sink.new.taken) sink.new.faults)
        (medium_seen M.Nand media) (medium_seen M.Nand result.media)
        → CarriesOut (command_of words.now) (path_word words.now) M.tells (stream (Some source.old.left) source.old.faults)
        (medium_seen M.Nand media) (medium_seen M.Nand result.media) result.order.items result.status }
{
    nameless(rt, alloc, words, source, sink, media, &NoGate)
}

/// The same over a script, as text: the status, and the medium as the command leaves it. What was printed is added to a text.
pub(crate) fn tell<Rt: Threads + Wait + Sync, M: Nand + Send + Drop>(
    rt: &Rt,
    alloc: Global,
    line: &str,
    script: &str,
    media: M,
    text: &mut String,
) -> Result<(u8, M), Memory> {
    let words = words_of(alloc, line)?;
    let mut source = MemSource::new(Text::of(alloc, script.as_bytes())?, FailList::new(alloc));
    let mut sink = MemSink::new(alloc, ROOM, FailList::new(alloc))?;
    let Done {
        status,
        refused: _,
        media,
        syncs: _,
        order: _,
    } = answer(rt, alloc, &words, &mut source, &mut sink, media);
    text.push_str(String::from_utf8_lossy(alloc, sink.bytes())?.as_str())?;
    Ok((status, media))
}
