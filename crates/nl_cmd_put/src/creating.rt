// The file of its own is made, under the first name that nothing has.
ghost use Rattle.std.specs.Prelude.{◌≡◌, ◌<◌, ◌≤◌, ◌+◌, ℕ, List, length};
ghost use Rattle.nl_put_tree.specs.Putting.{IsBeside};
ghost use Rattle.nl_cmd_course.specs.Asking.{MayAsk};
ghost use Rattle.nl_cmd_put.specs.Phases.{CreatesOwn, EndsTried, FromEachFresh, FromEachTried, HasFewAsked, IfCreated, IfOwn, TriesOwn, tried_by};
ghost use Rattle.nl_tree.specs.Calls.{AreNames};

use crate::asking::{ask, own_of};
use crate::ending::End;
use crate::naming::beside;
use nl_nand::Nand;
use nl_tree::{Call, Path, Refusal, Reply, ReplyBuf};
use nl_turns::Kept;
use nl_volume::Volume;
use std::alloc::Global;

/// How many names are tried: more than a directory can have.
const TRIES: u32 = 1026;

/// The file of its own, with the number of the next call; or how the put ended before there was one.
#[derive(Debug, Drop)]
pub(crate) enum Created {
    Own(Path, u32),
    Ended(End),
}

/// What became of one name.
#[derive(Debug, Drop)]
pub(crate) enum Tried {
    /// The file was made.
    Own(Path),
    /// Something has the name.
    Taken,
    Ended(End),
}

// Tries to make the file at a path of its own.
fn try_own<M: Nand>(volume: &mut Volume<M>, number: u32, own: Path, out: &mut ReplyBuf) -> Tried
    requires may { MayAsk ⟦<Volume<M> as Kept>⟧.stands M.tells number volume.old }
    requires names { AreNames own }
    ensures tried { (path : List (List ℕ)) (bytes : List ℕ) → IsBeside path own
        → FromEachTried ⟦<Volume<M> as Kept>⟧.stands M.tells volume.old number
        (λ origin o. TriesOwn ⟦<Volume<M> as Kept>⟧.stands M.tells origin o path bytes own number volume.new result) }
    ensures next { MayAsk ⟦<Volume<M> as Kept>⟧.stands M.tells (number + 1) volume.new }
    ensures names { IfOwn result AreNames }
{
    let call = Call::Create(own);
    let reply = ask(volume, number, &call, out);
    tried_by(own_of(call), reply)
}

// What became of a name whose call had this reply.
fn tried_by(own: Path, reply: Reply) -> Tried
    ensures { result ≡ tried_by own reply }
{
    match reply {
        Reply::Done => Tried::Own(own),
        Reply::No(Refusal::Eexist) => Tried::Taken,
        Reply::No(refusal) => Tried::Ended(End::Refused(refusal)),
        _ => Tried::Ended(End::Fault),
    }
}

// Makes the file of its own beside a path, under the first name from a number on that nothing has; where all have something, it ends so.
fn create_from<M: Nand>(
    alloc: Global,
    volume: &mut Volume<M>,
    path: &Path,
    at: u32,
    number: u32,
    end: End,
    out: &mut ReplyBuf,
) -> Created
    requires may { MayAsk ⟦<Volume<M> as Kept>⟧.stands M.tells number volume.old }
    requires path { (0 < length path.now) × AreNames path.now }
    requires few { (at ≤ 1026) × (number ≤ at + 1) }
    ensures created { (bytes : List ℕ) → FromEachTried ⟦<Volume<M> as Kept>⟧.stands M.tells volume.old number
        (λ origin o. EndsTried M.tells o path.now bytes end
        → CreatesOwn ⟦<Volume<M> as Kept>⟧.stands M.tells origin o path.now bytes volume.new result) }
    ensures next { IfCreated result (λ number. MayAsk ⟦<Volume<M> as Kept>⟧.stands M.tells number volume.new) }
    ensures few { HasFewAsked result }
{
    if at >= TRIES {
        return Created::Ended(end);
    }
    let own = match beside(alloc, path, at) {
        Ok(Some(own)) => own,
        Ok(None) => return create_from(alloc, volume, path, at + 1, number, end, out),
        Err(_) => return Created::Ended(End::Memory),
    };
    match try_own(volume, number, own, out) {
        Tried::Own(own) => Created::Own(own, number + 1),
        Tried::Taken => create_from(
            alloc,
            volume,
            path,
            at + 1,
            number + 1,
            End::Refused(Refusal::Eexist),
            out,
        ),
        Tried::Ended(end) => Created::Ended(end),
    }
}

/// Makes the file of its own beside a path.
pub(crate) fn create_own<M: Nand>(
    alloc: Global,
    volume: &mut Volume<M>,
    path: &Path,
    out: &mut ReplyBuf,
) -> Created
    requires may { MayAsk ⟦<Volume<M> as Kept>⟧.stands M.tells 1 volume.old }
    requires path { (0 < length path.now) × AreNames path.now }
    ensures created { (bytes : List ℕ) → FromEachFresh ⟦<Volume<M> as Kept>⟧.stands M.tells volume.old
        (λ origin o. CreatesOwn ⟦<Volume<M> as Kept>⟧.stands M.tells origin o path.now bytes volume.new result) }
    ensures next { IfCreated result (λ number. MayAsk ⟦<Volume<M> as Kept>⟧.stands M.tells number volume.new) }
    ensures few { HasFewAsked result }
{
    create_from(alloc, volume, path, 0, 1, End::Memory, out)
}
