// The command that prints the bytes of a file of the tree of a medium.
ghost use Rattle.std.specs.Prelude.{◌≡◌, ◌⊎◌, ℕ, [], None, Some};
ghost use Rattle.nl_cmd_view.specs.Getting.{GetEnds};
ghost use Rattle.nl_cmd_view.specs.Pieces.{EndsAs};
ghost use Rattle.nl_field.specs.CrashStates.{Rose};
ghost use Rattle.nl_field.specs.Page.{Image};
ghost use Rattle.nl_spec_headline.specs.Streams.{medium_seen, sink_seen};
ghost use Rattle.nl_tree.specs.Calls.{AreNames};

use crate::printing::{Got, PIECE, print_file};
use crate::refusing::refused;
use nl_cmd_words::{Done, Faults, carried_out, ended, faults_of, without_lines};
use nl_io::{Sink, SinkAnswer};
use nl_nand::Nand;
use nl_tree::{Call, Path, Refusal, ReplyBuf};
use nl_volume::open;
use std::alloc::Global;

/// Opens the volume of a medium, and prints the bytes of the file at a path, which takes no memory but for a piece of them. Where the tree
/// refuses to read there, nothing is printed, and the ending has its refusal, with status 2. Where a read fails on the way, or a page is
/// lost, the text ends there, with status 5. The medium is only read.
pub fn get<K: Sink, M: Nand>(alloc: Global, path: Path, sink: &mut K, media: M) -> Done<M>
    requires names { AreNames path }
    ensures ended { GetEnds M.tells path (sink_seen K.Sink sink.old) (sink_seen K.Sink sink.new)
        (medium_seen M.Nand media) (medium_seen M.Nand result.media)
        result.order.items result.syncs.items result.refused result.status }
    ensures left { M.tells → (m : ℕ) (c : Image) → M.left result.media m c → M.left media m c }
{
    let before = faults_of(&media);
    let mut volume = match open(alloc, media) {
        Ok(volume) => volume,
        Err(why) => return refused(alloc, why, sink),
    };
    let Ok(mut out) = ReplyBuf::new(alloc) else {
        return ended(alloc, 6, b"memory", sink, volume.into_media());
    };
    let mut call = Call::Read(path, 0, PIECE);
    let got = print_file(
        sink,
        &mut volume.core,
        &mut call,
        &mut out,
        &mut volume.page,
    );
    let media = volume.into_media();
    ending_of(alloc, before, got, media)
}

// The ending after a file was printed: with status 5 where a read failed or a page was lost, with the refusal of the tree, or else with the
// status of a command that was carried out.
fn ending_of<M: Nand>(alloc: Global, before: Faults, got: Got, media: M) -> Done<M>
    ensures ends { EndsAs got (Rose before.reads (M.read_faults media) ⊎ Rose before.writes (M.write_faults media)) result.refused result.status }
    ensures media { result.media ≡ media }
    ensures order { result.order.items ≡ [] }
    ensures syncs { result.syncs.items ≡ [] }
{
    match got {
        Got::All => carried_out(alloc, before, SinkAnswer::Took, media),
        Got::NotTaken => carried_out(alloc, before, SinkAnswer::Failed, media),
        Got::Refused(refusal) => refused_by(alloc, refusal, media),
        Got::Fault | Got::Lost => without_lines(alloc, 5, media),
    }
}

// The ending with a refusal of the tree.
fn refused_by<M>(alloc: Global, refusal: Refusal, media: M) -> Done<M>
    ensures status { result.status ≡ 2 }
    ensures refused { result.refused ≡ Some refusal }
    ensures media { result.media ≡ media }
    ensures order { result.order.items ≡ [] }
    ensures syncs { result.syncs.items ≡ [] }
{
    let mut done = without_lines(alloc, 2, media);
    done.refused = Some(refusal);
    done
}
