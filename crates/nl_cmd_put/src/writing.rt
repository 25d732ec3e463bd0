// The bytes are written to the file of its own, piece by piece.
ghost use Rattle.std.specs.Prelude.{◌≡◌, ◌<◌, ◌≤◌, ◌+◌, ◌*◌, ◌++◌, ◌^◌, ℕ, List, length, None};
ghost use Rattle.std.specs.List.{AllByRecursion};
ghost use Rattle.nl_field.specs.Numbers.{max_bytes};
ghost use Rattle.nl_put_tree.specs.Putting.{IsBeside, IsWriting};
ghost use Rattle.nl_cmd_course.specs.Asking.{MayAsk};
ghost use Rattle.nl_cmd_put.specs.Phases.{FromEachWriting, WritesAll, WritesPiece, is_count, joined};
ghost use Rattle.nl_tree.specs.Calls.{AreNames};

use crate::asking::{ask, own_of};
use nl_field::Text;
use nl_nand::Nand;
use nl_tree::{Call, Path, Reply, ReplyBuf};
use nl_turns::Kept;
use nl_volume::Volume;

/// The file of its own, the number of the next call, how many bytes it has, and the reply of the call that was not done, if one was not.
#[derive(Debug, Drop)]
pub(crate) struct Written {
    pub(crate) own: Path,
    pub(crate) number: u32,
    pub(crate) count: u64,
    pub(crate) stopped: Option<Reply>,
}

// Writes a piece behind those that are written. The path comes back.
fn write_piece<M: Nand>(
    volume: &mut Volume<M>,
    own: Path,
    at: u64,
    piece: Text,
    number: u32,
    out: &mut ReplyBuf,
) -> (Path, Reply)
    requires may { MayAsk ⟦<Volume<M> as Kept>⟧.stands M.tells number volume.old }
    requires names { AreNames own }
    requires few { length piece ≤ max_bytes }
    ensures own { result.0 ≡ own }
    ensures next { MayAsk ⟦<Volume<M> as Kept>⟧.stands M.tells (number + 1) volume.new }
    ensures written { (path : List (List ℕ)) (written : List ℕ) (left : List ℕ) → IsBeside path own → at ≡ length written
        → FromEachWriting ⟦<Volume<M> as Kept>⟧.stands M.tells volume.old own path (written ++ (piece ++ left)) written number
        (λ origin o. WritesPiece ⟦<Volume<M> as Kept>⟧.stands M.tells origin o own path (written ++ (piece ++ left)) (written ++ piece)
        (number + 1) volume.new result.1) }
{
    let call = Call::Write(own, at, piece);
    let reply = ask(volume, number, &call, out);
    (own_of(call), reply)
}

/// Writes the pieces one behind the other from an offset on, up to the first that is not written.
pub(crate) fn write_all<M: Nand>(
    volume: &mut Volume<M>,
    own: Path,
    pieces: Vec<Text>,
    at: u64,
    number: u32,
    out: &mut ReplyBuf,
) -> Written
    requires may { MayAsk ⟦<Volume<M> as Kept>⟧.stands M.tells number volume.old }
    requires names { AreNames own }
    requires pieces { AllByRecursion (λ piece. length piece ≤ max_bytes) pieces.items }
    requires few { number + length pieces.items < 2 ^ 32 }
    requires short { at + 65536 * length pieces.items < 2 ^ 64 }
    ensures own { result.own ≡ own }
    ensures next { MayAsk ⟦<Volume<M> as Kept>⟧.stands M.tells result.number volume.new }
    ensures number { result.number ≤ number + length pieces.items }
    ensures count { result.stopped ≡ None → result.count ≡ at + length (joined pieces.items) }
    ensures written { (path : List (List ℕ)) (written : List ℕ) → IsBeside path own → at ≡ length written
        → FromEachWriting ⟦<Volume<M> as Kept>⟧.stands M.tells volume.old own path (written ++ joined pieces.items) written number
        (λ origin o. WritesAll ⟦<Volume<M> as Kept>⟧.stands M.tells origin o own path (written ++ joined pieces.items) result.number
        volume.new result.stopped) }
{
    let mut pieces = pieces;
    if pieces.is_empty() {
        return Written {
            own,
            number,
            count: at,
            stopped: None,
        };
    }
    let piece = pieces.remove(0);
    let len = piece.len() as u64;
    let (own, reply) = write_piece(volume, own, at, piece, number, out);
    if is_count(&reply) {
        return write_all(volume, own, pieces, at + len, number + 1, out);
    }
    Written {
        own,
        number: number + 1,
        count: at,
        stopped: Some(reply),
    }
}

// Whether the bytes of a call were written.
fn is_count(reply: &Reply) -> bool
    ensures { result ≡ is_count reply.now }
{
    matches!(reply, Reply::Count(_))
}
