// Runs the lines on both volumes, and prints how large the tables became.
ghost use Rattle.std.specs.Prelude.{◌≡◌};
ghost use Rattle.nl_cmd_compare.specs.Both.{AreFrom};

use crate::words::Asked;
use nl_cmd_compare::{Comparison, Numbers};
use nl_cmd_words::drawn_lines;
use nl_field::{FailList, shape_of};
use nl_iface::Counts;
use nl_io::{Sink, SinkAnswer};
use nl_nand::{MemNand, Nand};
use nl_pagemap::Pagemap;
use nl_print::number_line;
use nl_tree::Lines;
use nl_turns::Kept;
use nl_volume::Volume;
use std::alloc::Global;

/// How the program ends.
#[derive(Clone, Copy, Debug, PartialEq, Eq)]
pub(crate) enum Ended {
    Done,
    /// The words are no six numbers that a comparison can have.
    Words,
    NotPrinted,
    Memory,
}

impl Ended {
    /// The status of the program.
    pub(crate) fn status(self) -> u8
        ensures done { self ≡ Ended.Done → result ≡ 0 }
        ensures words { self ≡ Ended.Words → result ≡ 2 }
        ensures not_printed { self ≡ Ended.NotPrinted → result ≡ 4 }
        ensures memory { self ≡ Ended.Memory → result ≡ 6 }
    {
        match self {
            Ended::Done => 0,
            Ended::Words => 2,
            Ended::NotPrinted => 4,
            Ended::Memory => 6,
        }
    }
}

fn unformed(alloc: Global) -> MemNand {
    MemNand::new(alloc, FailList::new(alloc), FailList::new(alloc), None)
}

// Prints the numbers, a line each.
fn print_numbers<K: Sink>(sink: &mut K, numbers: Numbers) -> SinkAnswer {
    match number_line(sink, b"calls", u64::from(numbers.calls)) {
        SinkAnswer::Took => {}
        SinkAnswer::Failed => return SinkAnswer::Failed,
    }
    match number_line(sink, b"remap most", u64::from(numbers.pairs)) {
        SinkAnswer::Took => number_line(sink, b"map most", u64::from(numbers.entries)),
        SinkAnswer::Failed => SinkAnswer::Failed,
    }
}

// Whether numbers are printed behind this line.
fn is_told(at: u32, len: u32, every: u32) -> bool {
    let done = at.saturating_add(1);
    done == len || every != 0 && done % every == 0
}

// Has both answer each line.
fn answer_lines<K: Sink, M: Nand>(
    both: &mut Comparison<M>,
    lines: &Lines,
    every: u32,
    sink: &mut K,
) -> Ended
    requires runs { AreFrom ⟦<Volume<M> as Kept>⟧.stands ⟦<Pagemap<M> as Counts>⟧ M.tells both.old }
{
    for at in 0..lines.len() {
        if both.step(&lines.get(at).call).is_none() {
            return Ended::Memory;
        }
        if is_told(at, lines.len(), every) {
            match print_numbers(sink, both.numbers()) {
                SinkAnswer::Took => {}
                SinkAnswer::Failed => return Ended::NotPrinted,
            }
        }
    }
    Ended::Done
}

/// Compares both on the script of these numbers.
pub(crate) fn run<K: Sink>(alloc: Global, asked: &Asked, sink: &mut K) -> Ended {
    if asked.lines == 0 || asked.lines > 20_000 || asked.workers == 0 || asked.workers > 8 {
        return Ended::Words;
    }
    if shape_of(asked.blocks, asked.pages).is_none() {
        return Ended::Words;
    }
    let Some(lines) = drawn_lines(alloc, asked.seed, asked.lines, asked.workers) else {
        return Ended::Memory;
    };
    let Ok(mut both) = Comparison::make(
        alloc,
        unformed(alloc),
        unformed(alloc),
        asked.blocks,
        asked.pages,
    ) else {
        return Ended::Memory;
    };
    let ended = answer_lines(&mut both, &lines, asked.every, sink);
    drop(both.into_media());
    ended
}
