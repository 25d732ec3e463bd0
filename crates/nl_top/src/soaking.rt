// The command that runs a script which is drawn from a seed, and prints a summary.
ghost use Rattle.std.specs.Prelude.{◌≡◌, ◌<◌, ◌≤◌, List, None, Ok};
ghost use Rattle.nl_gen.specs.Soak.{soak_text};
ghost use Rattle.nl_spec_headline.specs.Streams.{medium_seen, sink_seen};
ghost use Rattle.nl_script.specs.Script.{script};
ghost use Rattle.nl_tree.specs.declared.call.Line.{Line};
ghost use Rattle.nl_top.specs.Leaving.{leaves_within};
ghost use Rattle.nl_top.specs.RunEnds.{RunEnds};
ghost use Rattle.nl_top.specs.Soak.{Summarises};

use crate::running::run_on;
use crate::telling::Told;
use nl_cmd_words::{Done, drawn_lines, ended};
use nl_io::Sink;
use nl_nand::Nand;
use nl_workers::Gate;
use std::alloc::Global;
use std::sync::Wait;
use std::thread::Threads;

// Runs the lines that are drawn from a seed, so many for each of so many workers.
pub(crate) fn soak<Rt: Threads + Wait + Sync, K: Sink, M: Nand + Send, G: Gate + Sync>(
    rt: &Rt,
    alloc: Global,
    seed: u64,
    count: u32,
    workers: u8,
    sink: &mut K,
    media: M,
    gate: &G,
) -> Done<M>
    requires count { (0 < count) × (count ≤ 20000) }
    requires workers { (0 < workers) × (workers ≤ 8) }
    ensures ended { (lines : List Line) × (script (soak_text seed count workers) ≡ Ok lines)
        × RunEnds M.tells lines (Summarises M.tells) (leaves_within M.Nand media result.media)
        (sink_seen K.Sink sink.old) (sink_seen K.Sink sink.new)
        (medium_seen M.Nand media) (medium_seen M.Nand result.media)
        result.order.items result.syncs.items result.status }
    ensures refused { result.refused ≡ None }
{
    match drawn_lines(alloc, seed, count, workers) {
        Some(lines) => run_on(rt, alloc, &lines, Told::Summary, sink, media, gate),
        None => ended(alloc, 6, b"memory", sink, media),
    }
}
