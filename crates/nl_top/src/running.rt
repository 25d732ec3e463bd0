// The command that runs the script of a source, and what it shares with a soak.
ghost use Rattle.std.specs.Prelude.{◌≡◌, None};
ghost use Rattle.nl_spec_headline.specs.Streams.{medium_seen, sink_seen, source_seen};
ghost use Rattle.nl_top.specs.Leaving.{leaves_within};
ghost use Rattle.nl_top.specs.RunEnds.{RunEnds, ScriptEnds};
ghost use Rattle.nl_top.specs.Telling.{PrintsCourse};

use crate::telling::{Told, tell};
use nl_cmd_answers::laws::placed_rows_are_a_run;
use nl_cmd_course::tables_for;
use nl_cmd_run::run_lines;
use nl_cmd_view::refused;
use nl_cmd_words::{Done, Script, ended, faults_of, read_script, without_lines};
use nl_io::{Sink, Source};
use nl_nand::Nand;
use nl_print::refused_line;
use nl_tree::Lines;
use nl_workers::Gate;
use std::alloc::Global;
use std::sync::Wait;
use std::thread::Threads;

// Runs the script of a source.
pub(crate) fn run<Rt: Threads + Wait + Sync, S: Source, K: Sink, M: Nand + Send, G: Gate + Sync>(
    rt: &Rt,
    alloc: Global,
    src: &mut S,
    sink: &mut K,
    media: M,
    gate: &G,
) -> Done<M>
    ensures ended { ScriptEnds M.tells (leaves_within M.Nand media result.media)
        (source_seen S.Source src.old) (source_seen S.Source src.new)
        (sink_seen K.Sink sink.old) (sink_seen K.Sink sink.new)
        (medium_seen M.Nand media) (medium_seen M.Nand result.media)
        result.order.items result.syncs.items result.status }
    ensures refused { result.refused ≡ None }
{
    match read_script(alloc, src) {
        Script::Lines(lines) => run_on(rt, alloc, &lines, Told::Answers, sink, media, gate),
        Script::Refused { line, column, why } => {
            let _ = refused_line(sink, line, column, why.word());
            without_lines(alloc, 2, media)
        }
        Script::Failed => ended(alloc, 3, b"source fault", sink, media),
        Script::Memory => ended(alloc, 6, b"memory", sink, media),
    }
}

// Takes the tables, runs the lines on the volume of a medium, and prints what is to be told of them.
pub(crate) fn run_on<Rt: Threads + Wait + Sync, K: Sink, M: Nand + Send, G: Gate + Sync>(
    rt: &Rt,
    alloc: Global,
    lines: &Lines,
    told: Told,
    sink: &mut K,
    media: M,
    gate: &G,
) -> Done<M>
    ensures ended { RunEnds M.tells lines.now (PrintsCourse told M.tells) (leaves_within M.Nand media result.media) (sink_seen K.Sink sink.old)
        (sink_seen K.Sink sink.new) (medium_seen M.Nand media) (medium_seen M.Nand result.media)
        result.order.items result.syncs.items result.status }
    ensures refused { result.refused ≡ None }
{
    let Ok(mut tables) = tables_for(alloc, lines) else {
        return ended(alloc, 6, b"memory", sink, media);
    };
    let before = faults_of(&media);
    match run_lines(rt, alloc, media, lines, &mut tables, gate) {
        Ok(ran) => {
            placed_rows_are_a_run();
            tell(ran, tables, before, told, sink)
        }
        Err(why) => refused(alloc, why, sink),
    }
}
