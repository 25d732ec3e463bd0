// One call that the volume which moves pages is asked, behind those before it.
ghost use Rattle.std.specs.Prelude.{◌≡◌, ◌∷◌, ◌++◌, []};
ghost use Rattle.nl_cmd_course.specs.Asking.{FromEachAsked, HasAsked, MayAsk, tree_after};
ghost use Rattle.nl_tree.specs.Calls.{IsBounded};
ghost use Rattle.nl_tree.specs.Causes.{fault_in};
ghost use Rattle.nl_tree.specs.Replay.{Answers, step_marked};

use nl_nand::Nand;
use nl_tree::{Call, Reply, ReplyBuf};
use nl_turns::Kept;
use nl_volume::Volume;

/// Has a volume answer a call under a number, by its effect alone.
pub fn ask<M: Nand>(volume: &mut Volume<M>, number: u32, call: &Call, out: &mut ReplyBuf) -> Reply
    requires may { MayAsk ⟦<Volume<M> as Kept>⟧.stands M.tells number volume.old }
    requires call { IsBounded call.now }
    ensures asked { FromEachAsked ⟦<Volume<M> as Kept>⟧.stands M.tells number volume.old
        (λ origin o asked. HasAsked ⟦<Volume<M> as Kept>⟧.stands M.tells origin o (asked ++ (call.now, result) ∷ []) volume.new) }
    ensures answers { M.tells → FromEachAsked ⟦<Volume<M> as Kept>⟧.stands M.tells number volume.old
        (λ origin o asked. Answers (step_marked o.shape (tree_after o asked) (call.now, fault_in result)) result out.new) }
{
    volume.effect(0, number, call, out).reply
}
