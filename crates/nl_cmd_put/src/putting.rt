// The command that puts a file at a path.
ghost use Rattle.std.specs.Prelude.{◌≡◌, ◌⊎◌, ◌≤◌, ℕ, [], List, Some, true, length, IfErr, IfOk, OnErr};
ghost use Rattle.nl_cmd_put.specs.Putting.{BytesEnd, PutEnds, TellsPut};
ghost use Rattle.nl_core_open.specs.Opening.{OnlyReadsMedium};
ghost use Rattle.nl_field.specs.CrashStates.{Rose};
ghost use Rattle.nl_field.specs.Numbers.{max_file_size};
ghost use Rattle.nl_field.specs.Page.{Image};
ghost use Rattle.nl_spec_headline.specs.Streams.{ReadsWhole, medium_seen, sink_seen, source_seen, stops_within};
ghost use Rattle.nl_tree.specs.Calls.{AreNames};
ghost use Rattle.nl_volume.specs.Opened.{IsReason, medium_in};

use crate::cutting::cut;
use crate::ending::End;
use crate::on_volume::{PutRan, put_file};
use nl_cmd_words::{
    Done, Faults, Input, ended, faults_of, has_failed, read_all, status_of, without_lines,
};
use nl_field::Text;
use nl_io::{Sink, Source};
use nl_nand::Nand;
use nl_print::number_line;
use nl_tree::{Path, Refusal};
use nl_volume::NotOpened;
use std::alloc::Global;

/// The most bytes of a file.
const MAX_FILE: usize = 16_809_984;

/// Reads a source to its end, opens the volume of a medium, and makes the file at a path hold exactly these bytes, whatever it held. It is
/// written under a name of its own in the same directory, `.put-` and a number, then renamed over the path and synced before it is said to
/// be put. A stop within leaves the path as it was or with the whole file, and every other path but that of its own as it was. Where the
/// tree refuses it, the tree is as it was, nothing is printed, and the ending has the refusal, with status 2. EEXIST comes where 1026
/// numbers were tried; proved is that the last of these names is taken, and not that each is. Where no volume opens, nothing is printed,
/// and the medium was only read.
pub fn put<S: Source, K: Sink, M: Nand>(
    alloc: Global,
    path: Path,
    src: &mut S,
    sink: &mut K,
    media: M,
) -> Result<Done<M>, NotOpened<M>>
    requires names { AreNames path }
    ensures ended { IfOk result (λ done. PutEnds M.tells path (M.tells → (m : ℕ) (c : Image) → M.left done.media m c → M.left media m c)
        (stops_within M.Nand media done.media)
        (source_seen S.Source src.old) (source_seen S.Source src.new) (sink_seen K.Sink sink.old) (sink_seen K.Sink sink.new)
        (medium_seen M.Nand media) (medium_seen M.Nand done.media)
        done.order.items done.syncs.items done.refused done.status) }
    ensures read { OnErr result ((bytes : List ℕ) × ReadsWhole (source_seen S.Source src.old) (source_seen S.Source src.new) bytes) }
    ensures quiet { OnErr result (sink.new ≡ sink.old) }
    ensures why { IfErr result (λ why. IsReason M.tells M.contents M.read_faults media why) }
    ensures left { IfErr result (λ why. OnlyReadsMedium M.tells M.contents M.clock M.write_faults M.left media (medium_in why)) }
{
    match read_all(alloc, src, MAX_FILE) {
        Input::All(bytes) => put_bytes(alloc, path, bytes, sink, media),
        Input::TooLong => Ok(refused_by(alloc, Refusal::Efbig, media)),
        Input::Failed => Ok(ended(alloc, 3, b"source fault", sink, media)),
        Input::Memory => Ok(ended(alloc, 6, b"memory", sink, media)),
    }
}

// Puts the file of these bytes.
fn put_bytes<K: Sink, M: Nand>(
    alloc: Global,
    path: Path,
    bytes: Text,
    sink: &mut K,
    media: M,
) -> Result<Done<M>, NotOpened<M>>
    requires names { AreNames path }
    requires few { length bytes ≤ max_file_size }
    ensures ended { IfOk result (λ done. BytesEnd M.tells path bytes (M.tells → (m : ℕ) (c : Image) → M.left done.media m c → M.left media m c)
        (stops_within M.Nand media done.media) (sink_seen K.Sink sink.old) (sink_seen K.Sink sink.new)
        (medium_seen M.Nand media) (medium_seen M.Nand done.media)
        done.order.items done.syncs.items done.refused done.status) }
    ensures quiet { OnErr result (sink.new ≡ sink.old) }
    ensures why { IfErr result (λ why. IsReason M.tells M.contents M.read_faults media why) }
    ensures left { IfErr result (λ why. OnlyReadsMedium M.tells M.contents M.clock M.write_faults M.left media (medium_in why)) }
{
    if path.len() == 0 {
        return Ok(refused_by(alloc, Refusal::Eisdir, media));
    }
    let Ok(pieces) = cut(alloc, bytes.bytes()) else {
        return Ok(ended(alloc, 6, b"memory", sink, media));
    };
    drop(bytes);
    let before = faults_of(&media);
    let ran = put_file(alloc, media, path, pieces)?;
    Ok(tell(alloc, ran, before, sink))
}

// The ending after a put was run: with status 5 where the medium failed, a page was lost, the volume is worn or a call met a fault; else
// what it came to.
fn tell<K: Sink, M: Nand>(alloc: Global, ran: PutRan<M>, before: Faults, sink: &mut K) -> Done<M>
    ensures told { TellsPut ran.end
        ((Rose before.reads (M.read_faults ran.media) ⊎ Rose before.writes (M.write_faults ran.media))
        ⊎ ((ran.lost ≡ true) ⊎ (ran.worn ≡ true)))
        (sink_seen K.Sink sink.old) (sink_seen K.Sink sink.new) result.refused result.status }
    ensures media { result.media ≡ ran.media }
    ensures order { result.order.items ≡ [] }
    ensures syncs { result.syncs.items ≡ [] }
{
    let PutRan {
        media,
        end,
        lost,
        worn,
    } = ran;
    if has_failed(&media, before) || lost || worn {
        return without_lines(alloc, 5, media);
    }
    match end {
        End::Put(count) => {
            let answer = number_line(sink, b"put", count);
            without_lines(alloc, status_of(false, answer), media)
        }
        End::Refused(refusal) => refused_by(alloc, refusal, media),
        End::Memory => ended(alloc, 6, b"memory", sink, media),
        End::Fault => without_lines(alloc, 5, media),
    }
}

// The ending with a refusal, at which nothing is printed.
fn refused_by<M>(alloc: Global, refusal: Refusal, media: M) -> Done<M>
    ensures status { result.status ≡ 2 }
    ensures refused { result.refused ≡ Some refusal }
    ensures media { result.media ≡ media }
    ensures order { result.order.items ≡ [] }
    ensures syncs { result.syncs.items ≡ [] }
{
    let mut done = without_lines(alloc, 2, media);
    done.refused = Some(refusal);
    done
}
