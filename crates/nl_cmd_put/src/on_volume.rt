// A file is put on the volume of a medium.
ghost use Rattle.std.specs.Prelude.{◌≡◌, ◌<◌, ◌≤◌, ◌+◌, ◌^◌, ℕ, List, length, IfErr, IfOk};
ghost use Rattle.std.specs.List.{AllByRecursion};
ghost use Rattle.nl_core_open.specs.Opening.{OnlyReadsMedium};
ghost use Rattle.nl_field.specs.Numbers.{max_bytes};
ghost use Rattle.nl_cmd_course.specs.Asking.{MayAsk};
ghost use Rattle.nl_cmd_put.specs.Phases.{FromEachFresh, HasPut, joined};
ghost use Rattle.nl_cmd_put.specs.OnVolume.{RunsPut};
ghost use Rattle.nl_spec_headline.specs.Course.{Course};
ghost use Rattle.nl_spec_headline.specs.Streams.{medium_seen, stops_within};
ghost use Rattle.nl_tree.specs.Calls.{AreNames};
ghost use Rattle.nl_volume.specs.Opened.{IsReason, medium_in};

use crate::creating::{Created, create_own};
use crate::ending::End;
use crate::finishing::{rename, take_back};
use crate::writing::write_all;
use nl_field::Text;
use nl_nand::Nand;
use nl_tree::{Path, ReplyBuf};
use nl_turns::Kept;
use nl_volume::{NotOpened, Volume, open};
use std::alloc::Global;

/// What putting a file leaves: the medium, how it ended, whether closing lost a page, and whether it found the write sequence numbers used
/// up.
#[derive(Drop)]
pub struct PutRan<M: Nand> {
    pub media: M,
    pub end: End,
    pub lost: bool,
    pub worn: bool,
}

// Puts a file on an opened volume.
fn put_on<M: Nand>(
    alloc: Global,
    volume: &mut Volume<M>,
    path: Path,
    pieces: Vec<Text>,
    out: &mut ReplyBuf,
) -> End
    requires may { MayAsk ⟦<Volume<M> as Kept>⟧.stands M.tells 1 volume.old }
    requires path { (0 < length path) × AreNames path }
    requires pieces { AllByRecursion (λ piece. length piece ≤ max_bytes) pieces.items }
    requires few { length pieces.items ≤ 2 ^ 25 }
    ensures ended { FromEachFresh ⟦<Volume<M> as Kept>⟧.stands M.tells volume.old
        (λ origin o. HasPut ⟦<Volume<M> as Kept>⟧.stands M.tells origin o path (joined pieces.items) result volume.new) }
{
    let (own, number) = match create_own(alloc, volume, &path, out) {
        Created::Own(own, number) => (own, number),
        Created::Ended(end) => return end,
    };
    let written = write_all(volume, own, pieces, 0, number, out);
    match written.stopped {
        None => rename(
            volume,
            written.own,
            path,
            written.number,
            written.count,
            out,
        ),
        Some(reply) => take_back(volume, written.own, written.number, reply, out),
    }
}

/// Opens the volume of a medium, puts a file of these bytes at the path, which is not the root, and closes the volume. It is written under a
/// name of its own in the same directory, renamed over the path and synced, so whatever a stop leaves has at the path what it had or the
/// whole file. Where the tree refuses it, it is as it was. Or no volume was opened, or memory was wanting before: then the medium was only
/// read.
pub fn put_file<M: Nand>(
    alloc: Global,
    media: M,
    path: Path,
    pieces: Vec<Text>,
) -> Result<PutRan<M>, NotOpened<M>>
    requires path { (0 < length path) × AreNames path }
    requires pieces { AllByRecursion (λ piece. length piece ≤ max_bytes) pieces.items }
    requires few { length pieces.items ≤ 2 ^ 25 }
    ensures ran { IfOk result (λ r. (course : Course) × RunsPut M.tells path (joined pieces.items) (stops_within M.Nand media r.media)
        (medium_seen M.Nand media) (medium_seen M.Nand r.media) r.end r.lost r.worn course) }
    ensures why { IfErr result (λ why. IsReason M.tells M.contents M.read_faults media why) }
    ensures left { IfErr result (λ why. OnlyReadsMedium M.tells M.contents M.clock M.write_faults M.left media (medium_in why)) }
{
    let mut out = match ReplyBuf::new(alloc) {
        Ok(out) => out,
        Err(_) => return Err(NotOpened::Memory(media)),
    };
    let mut volume = open(alloc, media)?;
    let end = put_on(alloc, &mut volume, path, pieces, &mut out);
    let closed = volume.close();
    let _clock = closed.media.clock();
    let _faults = closed.media.write_faults();
    Ok(PutRan {
        media: closed.media,
        end,
        lost: closed.lost,
        worn: closed.worn,
    })
}
