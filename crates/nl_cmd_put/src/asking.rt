// One call that a volume is asked, behind those before it.
ghost use Rattle.std.specs.Prelude.{◌≡◌, ◌∷◌, ◌++◌, []};
ghost use Rattle.nl_cmd_put.specs.Asking.{NamesOwn, own_of};
ghost use Rattle.nl_cmd_course.specs.Asking.{FromEachAsked, HasAsked, MayAsk};
ghost use Rattle.nl_tree.specs.Calls.{IsBounded};

use nl_nand::Nand;
use nl_tree::{Call, Path, Reply, ReplyBuf};
use nl_turns::Kept;
use nl_volume::Volume;

/// Has a volume answer a call under a number, by its effect alone.
pub(crate) fn ask<M: Nand>(
    volume: &mut Volume<M>,
    number: u32,
    call: &Call,
    out: &mut ReplyBuf,
) -> Reply
    requires may { MayAsk ⟦<Volume<M> as Kept>⟧.stands M.tells number volume.old }
    requires call { IsBounded call.now }
    ensures asked { FromEachAsked ⟦<Volume<M> as Kept>⟧.stands M.tells number volume.old
        (λ origin o asked. HasAsked ⟦<Volume<M> as Kept>⟧.stands M.tells origin o (asked ++ (call.now, result) ∷ []) volume.new) }
{
    volume.effect(0, number, call, out).reply
}

/// The path of a call on the file of its own comes back.
pub(crate) fn own_of(call: Call) -> Path
    requires { NamesOwn call }
    ensures { result ≡ own_of call }
{
    match call {
        Call::Create(own) => own,
        Call::Write(own, _from, _bytes) => own,
        Call::Rename(own, _path) => own,
        other => {
            drop(other);
            unreachable!()
        }
    }
}
