// The command that prints the report of the volume of a medium.
ghost use Rattle.std.specs.Prelude.{◌≡◌, ℕ, None};
ghost use Rattle.nl_field.specs.Page.{Image};
ghost use Rattle.nl_spec_headline.specs.Streams.{medium_seen, sink_seen};
ghost use Rattle.nl_cmd_view.specs.Looking.{LookEnds, ReportsImage};

use crate::refusing::refused;
use nl_cmd_print::print_report;
use nl_cmd_words::{Done, carried_out, faults_of};
use nl_io::Sink;
use nl_nand::Nand;
use nl_volume::open;
use std::alloc::Global;

/// Opens the volume of a medium, and prints its count of calls, the blocks of its segments, how much of it its tree takes, how many pairs
/// it has, the least and the greatest wear, and its next write sequence number. The medium is only read, and that before anything is
/// printed.
pub fn report<K: Sink, M: Nand>(alloc: Global, sink: &mut K, media: M) -> Done<M>
    ensures ended { LookEnds M.tells ReportsImage (sink_seen K.Sink sink.old) (sink_seen K.Sink sink.new)
        (medium_seen M.Nand media) (medium_seen M.Nand result.media)
        result.order.items result.syncs.items result.status }
    ensures refused { result.refused ≡ None }
    ensures left { M.tells → (m : ℕ) (c : Image) → M.left result.media m c → M.left media m c }
{
    let before = faults_of(&media);
    let volume = match open(alloc, media) {
        Ok(volume) => volume,
        Err(why) => return refused(alloc, why, sink),
    };
    let answer = print_report(
        sink,
        &volume.core,
        volume.files,
        volume.least,
        volume.greatest,
    );
    let media = volume.into_media();
    carried_out(alloc, before, answer, media)
}
