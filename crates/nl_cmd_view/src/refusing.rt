// The ending of a command whose volume was not opened.
ghost use Rattle.std.specs.Prelude.{◌≡◌, [], ℕ, List, None};
ghost use Rattle.nl_cmd_words.specs.Ends.{NotOpened as WasNotOpened};
ghost use Rattle.nl_spec_headline.specs.Streams.{Prints, medium_seen, sink_seen};
ghost use Rattle.nl_volume.specs.Opened.{IsReason, medium_in};

use nl_cmd_words::{Done, ended, without_lines};
use nl_io::Sink;
use nl_nand::Nand;
use nl_print::damaged_line;
use nl_volume::NotOpened;
use std::alloc::Global;

/// Prints why no volume was opened.
pub fn refused<K: Sink, M: Nand>(alloc: Global, why: NotOpened<M>, sink: &mut K) -> Done<M>
    ensures refused { result.refused ≡ None }
    ensures media { result.media ≡ medium_in why }
    ensures order { result.order.items ≡ [] }
    ensures syncs { result.syncs.items ≡ [] }
    ensures ended { (before : M) → IsReason M.tells M.contents M.read_faults before why → (text : List ℕ)
        × WasNotOpened M.tells (medium_seen M.Nand before) (medium_seen M.Nand result.media) result.status text
        × Prints (sink_seen K.Sink sink.old) (sink_seen K.Sink sink.new) text }
{
    match why {
        NotOpened::Blank(media) => ended(alloc, 7, b"blank", sink, media),
        NotOpened::Damaged(media, place) => {
            let _ = damaged_line(sink, &place);
            without_lines(alloc, 7, media)
        }
        NotOpened::Fault(media) => ended(alloc, 5, b"medium fault", sink, media),
        NotOpened::Memory(media) => ended(alloc, 6, b"memory", sink, media),
    }
}
