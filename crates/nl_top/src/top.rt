// The top call: answers the words of a command line on a flash medium.
ghost use Rattle.nl_cmd_words.specs.Command.{command_of};
ghost use Rattle.nl_cmd_words.specs.Complete.{NothingRose};
ghost use Rattle.nl_cmd_words.specs.Paths.{path_word};
ghost use Rattle.nl_spec_headline.specs.Streams.{medium_seen, sink_seen, source_seen};
ghost use Rattle.nl_top.specs.Complete.{CarriesOut};
ghost use Rattle.nl_top.specs.Ends.{CallEnds, MayRefuse};
ghost use Rattle.nl_top.specs.Leaving.{leaves_within};

use crate::on_path::{get_file, put_file};
use crate::running::run;
use crate::soaking::soak;
use nl_cmd_compare::compare;
use nl_cmd_compare::laws::compare_completes;
use nl_cmd_map::laws::map_completes;
use nl_cmd_map::{map, map_svg};
use nl_cmd_put::laws::put_completes;
use nl_cmd_view::laws::{get_completes, look_completes};
use nl_cmd_view::{report, tree};
use nl_cmd_words::laws::{check_completes, format_completes, opening_completes};
use nl_cmd_words::{Command, Done, check, command_of, ended, format};
use nl_io::{Sink, Source, Words};
use nl_nand::Nand;
use nl_workers::Gate;
use std::alloc::Global;
use std::sync::Wait;
use std::thread::Threads;

/// Answers the words of a command line on a medium.
///
/// `format B P` makes a volume of B blocks of P pages; whatever the medium held is gone. `run` reads the whole script of the source, opens
/// the volume, runs the lines by their workers, closes with a commit, and prints the answers in the order of their places. `check` prints
/// what is at fault. `tree` prints every path, `report` what the volume takes of what there is, `map` what is found on each page, and
/// `map svg` that as a picture. `get PATH` prints the bytes of the file at a path. `put PATH` reads the whole source, makes the file at a
/// path hold exactly its bytes, syncs, and prints how many they are. `soak SEED N W` runs a script that is drawn from a number, of N lines
/// for each of W workers, and prints a summary. `compare SEED N W` answers that script line after line on two volumes of its own, on one of
/// which the device leads numbers to pages by a map, and prints how large the tables of both become; the medium is left alone.
///
/// Of a run, and of a soak, one order of all its lines is told. Over a medium that tells its contents each answer is what a plain tree of
/// files replies at its place in that order, or a fault reply that has its cause; a stop within any program or erase leaves a medium that
/// opens as the tree after a prefix of that order holding every synced call; and the medium ends as the tree after all of it, where no
/// count of faults rose, nor stands at its end, and the volume is not worn. The gate decides nothing of it. A stop within a put leaves a
/// medium that opens as a tree in which the path has what it had or the whole file, and every other path but one beside it what it had;
/// and once it was printed that the file was put, as one in which the path has the whole file. A stop within another call that runs no line
/// leaves nothing new, but for a format: after its forming a stop leaves a blank image, one damaged at its super page, or the empty volume.
///
/// Statuses: 0; 2 for faulty words, for a script that is refused, and for a path or a file that the tree refuses, with its refusal; 3 where
/// the source failed; 4 where the sink failed; 5 where the medium failed, a page was lost, the volume is worn or an answer is a fault reply;
/// 6 for want of memory, before the first turn of a run; 7 for a medium that is blank or damaged; 8 where a check found something.
pub fn nameless<Rt: Threads + Wait + Sync, S: Source, K: Sink, M: Nand + Send, G: Gate + Sync>(
    rt: &Rt,
    alloc: Global,
    words: &Words,
    src: &mut S,
    sink: &mut K,
    media: M,
    gate: &G,
) -> Done<M>
    ensures ended { CallEnds M.tells words.now (leaves_within M.Nand media result.media)
        (source_seen S.Source src.old) (source_seen S.Source src.new) (sink_seen K.Sink sink.old) (sink_seen K.Sink sink.new)
        (medium_seen M.Nand media) (medium_seen M.Nand result.media) result.order.items result.syncs.items result.refused result.status }
    ensures refused { MayRefuse (command_of words.now) result.refused }

    // Where nothing fails, the command of these words is carried out, unless memory is wanting.
    ensures completes { NothingRose (source_seen S.Source src.old) (source_seen S.Source src.new) (sink_seen K.Sink sink.old)
        (sink_seen K.Sink sink.new) (medium_seen M.Nand media) (medium_seen M.Nand result.media)
        → CarriesOut (command_of words.now) (path_word words.now) M.tells (source_seen S.Source src.old) (medium_seen M.Nand media)
        (medium_seen M.Nand result.media) result.order.items result.status }
{
    match command_of(words) {
        None => ended(alloc, 2, b"words", sink, media),
        Some(Command::Format(blocks, pages)) => {
            format_completes::<M>();
            format(alloc, blocks, pages, sink, media)
        }
        Some(Command::Run) => {
            opening_completes::<M>();
            run(rt, alloc, src, sink, media, gate)
        }
        Some(Command::Check) => {
            check_completes::<M>();
            check(alloc, sink, media)
        }
        Some(Command::Tree) => {
            look_completes::<M>();
            tree(alloc, sink, media)
        }
        Some(Command::Report) => {
            look_completes::<M>();
            report(alloc, sink, media)
        }
        Some(Command::Map) => {
            map_completes::<M>();
            map(alloc, sink, media)
        }
        Some(Command::MapSvg) => {
            map_completes::<M>();
            map_svg(alloc, sink, media)
        }
        Some(Command::Get) => {
            get_completes::<M>();
            get_file(alloc, words, sink, media)
        }
        Some(Command::Put) => {
            put_completes::<M>();
            put_file(alloc, words, src, sink, media)
        }
        Some(Command::Soak(seed, count, workers)) => {
            opening_completes::<M>();
            soak(rt, alloc, seed, count, workers, sink, media, gate)
        }
        Some(Command::Compare(seed, count, workers)) => {
            compare_completes::<M>();
            compare(alloc, seed, count, workers, sink, media)
        }
    }
}
