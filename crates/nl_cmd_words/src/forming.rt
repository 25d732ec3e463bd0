// The command that makes a volume on a medium.
ghost use Rattle.std.specs.Prelude.{◌≡◌, ◌⊎◌, ℕ, IsTrue, None};
ghost use Rattle.nl_field.specs.Numbers.{is_legal};
ghost use Rattle.nl_field.specs.Page.{Image};
ghost use Rattle.nl_spec_headline.specs.Streams.{medium_seen, sink_seen};
ghost use Rattle.nl_volume_format.specs.Making.{OpensAsNew};
ghost use Rattle.nl_cmd_words.specs.Ends.{FormatEnds};

use crate::status::{Done, carried_out, ended, faults_of};
use nl_field::shape_of;
use nl_io::Sink;
use nl_nand::Nand;
use nl_print::formatted_line;
use nl_volume_format::{Made, make};
use std::alloc::Global;

/// Makes a volume of legal numbers, and prints them. Whatever the medium held is gone. A stop after the forming leaves a blank image, one
/// damaged at its super page, or the empty volume.
pub fn format<K: Sink, M: Nand>(
    alloc: Global,
    blocks: u32,
    pages: u32,
    sink: &mut K,
    media: M,
) -> Done<M>
    requires legal { IsTrue (is_legal blocks pages) }
    ensures ended { FormatEnds M.tells blocks pages (sink_seen K.Sink sink.old) (sink_seen K.Sink sink.new)
        (medium_seen M.Nand media) (medium_seen M.Nand result.media)
        result.order.items result.syncs.items result.status }
    ensures refused { result.refused ≡ None }
    ensures stops { M.tells → (m : ℕ) (c : Image) → M.left result.media m c → M.left media m c ⊎ OpensAsNew c }
{
    let before = faults_of(&media);
    let Some(shape) = shape_of(blocks, pages) else {
        unreachable!()
    };
    match make(alloc, media, blocks, pages) {
        Made::Done(media) => {
            let answer = formatted_line(sink, &shape);
            carried_out(alloc, before, answer, media)
        }
        Made::Fault(media) => ended(alloc, 5, b"medium fault", sink, media),
        Made::Memory(media) => ended(alloc, 6, b"memory", sink, media),
    }
}
