//! The command that compares the tables of both devices on a script which is drawn from a seed.
ghost use Rattle.std.specs.Prelude.{◌≡◌, ◌<◌, ◌≤◌, IfSome, List, None, Ok, map};
ghost use Rattle.nl_cmd_compare.specs.Ends.{CompareEnds, Measures, compare_text, tables_text};
ghost use Rattle.nl_field.specs.CrashStates.{Rose};
ghost use Rattle.nl_field.specs.Numbers.{shape_for};
ghost use Rattle.nl_gen.specs.Soak.{soak_text};
ghost use Rattle.nl_io.specs.Streams.{WritesStream};
ghost use Rattle.nl_script.specs.Script.{script};
ghost use Rattle.nl_spec_headline.specs.Streams.{medium_seen, sink_seen};
ghost use Rattle.nl_tree.specs.declared.call.Line.{Line as LineOf};

use crate::comparison::{Comparison, Numbers};
use crate::running::answer_all;
use nl_cmd_words::{Done, carried_out, drawn_lines, ended, faults_of};
use nl_field::FailList;
use nl_io::{Sink, SinkAnswer};
use nl_nand::{MemNand, Nand};
use nl_print::number_line;
use nl_tree::Lines;
use std::alloc::Global;

/// Draws a script of so many lines for each of so many workers, answers its calls one after the other on two volumes in memory of 32 blocks of
/// 32 pages, and prints how many they were, the most pairs of old names of the device that moves pages, and the most entries of the map of
/// the other. Every answer was the one due of a plain tree of files, of both. Status 6 comes for want of memory, which is all that makes a
/// medium in memory fail. The medium that is handed in is left alone.
pub fn compare<K: Sink, M: Nand>(
    alloc: Global,
    seed: u64,
    count: u32,
    workers: u8,
    sink: &mut K,
    media: M,
) -> Done<M>
    requires count { (0 < count) × (count ≤ 20000) }
    requires workers { (0 < workers) × (workers ≤ 8) }
    ensures ended { (lines : List LineOf) × (script (soak_text seed count workers) ≡ Ok lines)
        × CompareEnds M.tells lines (sink_seen K.Sink sink.old) (sink_seen K.Sink sink.new)
        (medium_seen M.Nand media) (medium_seen M.Nand result.media) result.order.items result.syncs.items result.status }
    ensures refused { result.refused ≡ None }
    ensures media { result.media ≡ media }
{
    match drawn_lines(alloc, seed, count, workers) {
        Some(lines) => compare_on(alloc, &lines, sink, media),
        None => ended(alloc, 6, b"memory", sink, media),
    }
}

// Compares both on these lines, and prints the numbers.
fn compare_on<K: Sink, M: Nand>(alloc: Global, lines: &Lines, sink: &mut K, media: M) -> Done<M>
    ensures ended { CompareEnds M.tells lines.now (sink_seen K.Sink sink.old) (sink_seen K.Sink sink.new)
        (medium_seen M.Nand media) (medium_seen M.Nand result.media) result.order.items result.syncs.items result.status }
    ensures refused { result.refused ≡ None }
    ensures media { result.media ≡ media }
{
    match numbers_of(alloc, lines) {
        Some(numbers) => {
            let before = faults_of(&media);
            let answer = print_numbers(sink, numbers);
            carried_out(alloc, before, answer, media)
        }
        None => ended(alloc, 6, b"memory", sink, media),
    }
}

// How large both tables become on these lines.
fn numbers_of(alloc: Global, lines: &Lines) -> Option<Numbers>
    ensures { IfSome result (Measures (shape_for 32 32) (map (λ (l : LineOf). l.call) lines.now)) }
{
    let Ok(mut both) = Comparison::make(alloc, unformed(alloc), unformed(alloc), 32, 32) else {
        return None;
    };
    let whole = answer_all(&mut both, lines);
    let numbers = both.numbers();
    drop(both.into_media());
    if whole { Some(numbers) } else { None }
}

// A medium in memory without failures that was never formed.
fn unformed(alloc: Global) -> MemNand {
    MemNand::new(alloc, FailList::new(alloc), FailList::new(alloc), None)
}

// Prints the numbers, a line each.
fn print_numbers<K: Sink>(sink: &mut K, numbers: Numbers) -> SinkAnswer
    ensures text { WritesStream (K.taken sink.old) (K.taken sink.new) result (compare_text numbers) }
    ensures never_falls { K.faults sink.old ≤ K.faults sink.new }
    ensures cause { result ≡ SinkAnswer.Failed → Rose (K.faults sink.old) (K.faults sink.new) }
{
    match number_line(sink, b"calls", u64::from(numbers.calls)) {
        SinkAnswer::Took => print_tables(sink, numbers),
        SinkAnswer::Failed => SinkAnswer::Failed,
    }
}

// Prints how large both tables became.
fn print_tables<K: Sink>(sink: &mut K, numbers: Numbers) -> SinkAnswer
    ensures text { WritesStream (K.taken sink.old) (K.taken sink.new) result (tables_text numbers) }
    ensures never_falls { K.faults sink.old ≤ K.faults sink.new }
    ensures cause { result ≡ SinkAnswer.Failed → Rose (K.faults sink.old) (K.faults sink.new) }
{
    match number_line(sink, b"remap most", u64::from(numbers.pairs)) {
        SinkAnswer::Took => number_line(sink, b"map most", u64::from(numbers.entries)),
        SinkAnswer::Failed => SinkAnswer::Failed,
    }
}
