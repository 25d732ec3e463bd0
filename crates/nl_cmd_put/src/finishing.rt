// How a put ends: the file is renamed and synced, or taken back.
ghost use Rattle.std.specs.Prelude.{◌≡◌, ◌<◌, ◌+◌, ◌^◌, ℕ, List, length};
ghost use Rattle.nl_put_tree.specs.Putting.{IsBeside};
ghost use Rattle.nl_cmd_course.specs.Asking.{MayAsk};
ghost use Rattle.nl_cmd_put.specs.Phases.{FromEachPut, FromEachStopped, FromEachWriting, HasPut, end_of_back, is_done, is_synced};
ghost use Rattle.nl_put_tree.specs.Putting.{FitsVolume};
ghost use Rattle.nl_tree.specs.Calls.{AreNames};

use crate::asking::{ask, own_of};
use crate::ending::End;
use nl_nand::Nand;
use nl_tree::{Call, Path, Reply, ReplyBuf};
use nl_turns::Kept;
use nl_volume::Volume;

/// Takes the file of its own back, after a call that had this reply was not done, and syncs.
pub(crate) fn take_back<M: Nand>(
    volume: &mut Volume<M>,
    own: Path,
    number: u32,
    why: Reply,
    out: &mut ReplyBuf,
) -> End
    requires may { MayAsk ⟦<Volume<M> as Kept>⟧.stands M.tells number volume.old }
    requires names { AreNames own }
    requires few { number + 1 < 2 ^ 32 }
    ensures ended { (path : List (List ℕ)) (bytes : List ℕ) → IsBeside path own
        → FromEachStopped ⟦<Volume<M> as Kept>⟧.stands M.tells volume.old own path bytes number why
        (λ origin o. HasPut ⟦<Volume<M> as Kept>⟧.stands M.tells origin o path bytes result volume.new) }
{
    let call = Call::Unlink(own);
    let gone = ask(volume, number, &call, out);
    let synced = ask(volume, number + 1, &Call::Sync, out);
    end_of_back(why, gone, synced)
}

// The end of a call that was not done, by its reply, and those of the call that took the file back and of the sync.
fn end_of_back(why: Reply, gone: Reply, synced: Reply) -> End
    ensures { result ≡ end_of_back why gone synced }
{
    if !(is_done(&gone) && is_synced(&synced)) {
        return End::Fault;
    }
    match why {
        Reply::No(refusal) => End::Refused(refusal),
        _ => End::Fault,
    }
}

// Whether a call was done.
fn is_done(reply: &Reply) -> bool
    ensures { result ≡ is_done reply.now }
{
    matches!(reply, Reply::Done)
}

// Whether a sync was answered ok.
fn is_synced(reply: &Reply) -> bool
    ensures { result ≡ is_synced reply.now }
{
    matches!(reply, Reply::Synced { .. })
}

// Syncs a file that was renamed over its path.
fn sync<M: Nand>(volume: &mut Volume<M>, number: u32, count: u64, out: &mut ReplyBuf) -> End
    requires may { MayAsk ⟦<Volume<M> as Kept>⟧.stands M.tells number volume.old }
    ensures ended { (own : List (List ℕ)) (path : List (List ℕ)) (bytes : List ℕ) → IsBeside path own → count ≡ length bytes
        → FromEachPut ⟦<Volume<M> as Kept>⟧.stands M.tells volume.old own path bytes number
        (λ origin o. HasPut ⟦<Volume<M> as Kept>⟧.stands M.tells origin o path bytes result volume.new) }
{
    let synced = ask(volume, number, &Call::Sync, out);
    if is_synced(&synced) {
        End::Put(count)
    } else {
        End::Fault
    }
}

/// Renames the file of its own over the path, where it has all bytes, and syncs; or takes it back.
pub(crate) fn rename<M: Nand>(
    volume: &mut Volume<M>,
    own: Path,
    path: Path,
    number: u32,
    count: u64,
    out: &mut ReplyBuf,
) -> End
    requires may { MayAsk ⟦<Volume<M> as Kept>⟧.stands M.tells number volume.old }
    requires names { AreNames own × AreNames path }
    requires few { number + 2 < 2 ^ 32 }
    ensures ended { (bytes : List ℕ) → IsBeside path own → count ≡ length bytes
        → FromEachWriting ⟦<Volume<M> as Kept>⟧.stands M.tells volume.old own path bytes bytes number
        (λ origin o. (M.tells → FitsVolume o.shape o.tree)
        → HasPut ⟦<Volume<M> as Kept>⟧.stands M.tells origin o path bytes result volume.new) }
{
    let call = Call::Rename(own, path);
    let reply = ask(volume, number, &call, out);
    if is_done(&reply) {
        return sync(volume, number + 1, count, out);
    }
    take_back(volume, own_of(call), number + 1, reply, out)
}
