// The command that prints every path of the tree of a medium.
ghost use Rattle.std.specs.Prelude.{◌≡◌, ◌⊎◌, ℕ, [], None};
ghost use Rattle.nl_cmd_words.specs.Ends.{IsStatusOf};
ghost use Rattle.nl_field.specs.CrashStates.{Rose};
ghost use Rattle.nl_field.specs.Page.{Image};
ghost use Rattle.nl_spec_headline.specs.Streams.{medium_seen, sink_seen};
ghost use Rattle.nl_cmd_view.specs.Looking.{TreeEnds};

use crate::refusing::refused;
use nl_cmd_print::{Shown, print_tree};
use nl_cmd_words::{Done, Faults, carried_out, ended, faults_of, without_lines};
use nl_io::{Sink, SinkAnswer};
use nl_nand::Nand;
use nl_volume::{TreeWalk, open};
use std::alloc::Global;

/// Opens the volume of a medium, and prints its count of calls and a line for each path of its tree. Where a read fails on the way, or a
/// page is lost, the text ends there, with status 5. The medium is only read.
pub fn tree<K: Sink, M: Nand>(alloc: Global, sink: &mut K, media: M) -> Done<M>
    ensures ended { TreeEnds M.tells (sink_seen K.Sink sink.old) (sink_seen K.Sink sink.new)
        (medium_seen M.Nand media) (medium_seen M.Nand result.media)
        result.order.items result.syncs.items result.status }
    ensures refused { result.refused ≡ None }
    ensures left { M.tells → (m : ℕ) (c : Image) → M.left result.media m c → M.left media m c }
{
    let before = faults_of(&media);
    let mut volume = match open(alloc, media) {
        Ok(volume) => volume,
        Err(why) => return refused(alloc, why, sink),
    };
    let Ok(mut walk) = TreeWalk::new(alloc, &volume.core.shape) else {
        return ended(alloc, 6, b"memory", sink, volume.into_media());
    };
    let count = volume.calls();
    let shown = print_tree(sink, &mut volume.core, &mut walk, count);
    let media = volume.into_media();
    ending_of(alloc, before, shown, media)
}

// The ending after paths were printed: with status 5 where a read failed or a page was lost, else with that of a command that was carried
// out.
fn ending_of<M: Nand>(alloc: Global, before: Faults, shown: Shown, media: M) -> Done<M>
    ensures fault { shown ≡ Shown.Fault → result.status ≡ 5 }
    ensures lost { shown ≡ Shown.Lost → result.status ≡ 5 }
    ensures all { shown ≡ Shown.All → IsStatusOf result.status
        (Rose before.reads (M.read_faults media) ⊎ Rose before.writes (M.write_faults media)) SinkAnswer.Took }
    ensures not_taken { shown ≡ Shown.NotTaken
        → IsStatusOf result.status (Rose before.reads (M.read_faults media) ⊎ Rose before.writes (M.write_faults media)) SinkAnswer.Failed }
    ensures refused { result.refused ≡ None }
    ensures media { result.media ≡ media }
    ensures order { result.order.items ≡ [] }
    ensures syncs { result.syncs.items ≡ [] }
{
    match shown {
        Shown::All => carried_out(alloc, before, SinkAnswer::Took, media),
        Shown::NotTaken => carried_out(alloc, before, SinkAnswer::Failed, media),
        Shown::Fault | Shown::Lost => without_lines(alloc, 5, media),
    }
}
