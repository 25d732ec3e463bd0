//! Two volumes that answer the same calls, and what is kept of both.
ghost use Rattle.std.specs.Prelude.{◌≡◌, ◌⊎◌, ◌↔◌, ◌∷◌, ◌++◌, [], IfSome, IsTrue, List, is_some, max};
ghost use Rattle.nl_field.specs.CrashStates.{Rose};
ghost use Rattle.nl_cmd_compare.specs.Both.{AnswerBoth, AreFrom, IsComparison, tree_of};
ghost use Rattle.nl_cmd_compare.specs.Quiet.{GoesOnQuietly};
ghost use Rattle.nl_field.specs.declared.shape.Shape.{Shape as ShapeOf};
ghost use Rattle.nl_tree.specs.Calls.{IsBounded};
ghost use Rattle.nl_tree.specs.Causes.{fault_in};
ghost use Rattle.nl_tree.specs.Replay.{ReplyFits};
ghost use Rattle.nl_tree.specs.declared.call.Call.{Call as CallOf};
ghost use Rattle.nl_pagemap_volume.specs.Volume.{Stands};

use crate::asking::ask;
use nl_iface::Counts;
use nl_nand::Nand;
use nl_pagemap::Pagemap;
use nl_pagemap_volume::MapVolume;
use nl_tree::{Call, Reply, ReplyBuf};
use nl_turns::Kept;
use nl_volume::Volume;

/// What both volumes replied to one call.
#[derive(Clone, Copy, Debug, PartialEq, Eq)]
pub struct Replies {
    /// The volume whose device moves pages.
    pub volume: Reply,
    /// The volume whose device leads numbers to pages by a map.
    pub map: Reply,
}

/// How large the tables became while so many calls were answered.
#[derive(Clone, Copy, Debug, PartialEq, Eq)]
pub struct Numbers {
    pub calls: u32,
    /// The most pairs of an old name and the page that it leads to, of the device that moves pages.
    pub pairs: u32,
    /// The most numbers in use, of the device that leads them to pages by a map.
    pub entries: u32,
}

/// Two volumes that answer the same calls, one after the other, none with a fault reply: what each replied last, and how large their tables
/// became.
pub struct Comparison<M: Nand> {
    pub(crate) volume: Volume<M>,
    pub(crate) map: MapVolume<M>,
    pub(crate) out: ReplyBuf,
    pub(crate) other: ReplyBuf,
    pub(crate) numbers: Numbers,
}

impl<M: Nand> Comparison<M> {
    /// Has both volumes answer the call. Over media that tell their contents, both replies and their bytes are those due of the tree after
    /// the calls before, and so are equal but for the numbers of a sync. None where one of them is a fault reply, where a count of faults of
    /// the volume with a map has risen or its write sequence numbers are used up, or behind 2^32 - 1 calls: then no call may follow.
    pub fn step(&mut self, call: &Call) -> Option<Replies>
        requires compares { AreFrom ⟦<Volume<M> as Kept>⟧.stands ⟦<Pagemap<M> as Counts>⟧ M.tells self.old }
        requires bounded { IsBounded call.now }
        ensures goes_on { IfSome result (λ r. (shape : ShapeOf) (calls : List CallOf)
            → IsComparison ⟦<Volume<M> as Kept>⟧.stands ⟦<Pagemap<M> as Counts>⟧ M.tells shape calls self.old
            → IsComparison ⟦<Volume<M> as Kept>⟧.stands ⟦<Pagemap<M> as Counts>⟧ M.tells shape (calls ++ call.now ∷ []) self.new) }
        ensures answers { M.tells → IfSome result (λ r. (shape : ShapeOf) (calls : List CallOf)
            → IsComparison ⟦<Volume<M> as Kept>⟧.stands ⟦<Pagemap<M> as Counts>⟧ M.tells shape calls self.old
            → AnswerBoth shape (tree_of shape calls) call.now r self.new) }
        ensures alike { M.tells → IfSome result (λ r. ReplyFits r.volume r.map × (self.new.other ≡ self.new.out)) }
    {
        if self.numbers.calls == u32::MAX {
            return None;
        }
        let number = self.numbers.calls + 1;
        let volume = ask(&mut self.volume, number, call, &mut self.out);
        if is_fault(&volume) {
            return None;
        }
        let map = step_quietly(&mut self.map, call, &mut self.other)?;
        self.numbers = Numbers {
            calls: number,
            pairs: greater(self.numbers.pairs, self.volume.pairs()),
            entries: greater(self.numbers.entries, self.map.entries()),
        };
        Some(Replies { volume, map })
    }

    /// How large the tables became so far.
    pub fn numbers(&self) -> Numbers
        ensures { result ≡ self.now.numbers }
    {
        self.numbers
    }

    /// Gives both media back.
    pub fn into_media(self) -> (M, M) {
        let Comparison {
            volume,
            map,
            out,
            other,
            numbers: _,
        } = self;
        drop(out);
        drop(other);
        (volume.into_media(), map.into_media())
    }
}

// Has the volume with a map answer a call, where nothing fails.
fn step_quietly<M: Nand>(map: &mut MapVolume<M>, call: &Call, out: &mut ReplyBuf) -> Option<Reply>
    requires stands { Stands ⟦<Pagemap<M> as Counts>⟧ map.old }
    requires bounded { IsBounded call.now }
    ensures stands { Stands ⟦<Pagemap<M> as Counts>⟧ map.new }
    ensures goes_on { IfSome result (GoesOnQuietly ⟦<Pagemap<M> as Counts>⟧ M.tells call.now map.old map.new out.new) }
{
    let reads = map.read_faults();
    let writes = map.write_faults();
    let reply = map.step(0, call, out);
    if is_fault(&reply) || map.is_worn() {
        return None;
    }
    if has_risen(reads, map.read_faults()) || has_risen(writes, map.write_faults()) {
        return None;
    }
    Some(reply)
}

// Whether a reply is a fault.
fn is_fault(reply: &Reply) -> bool
    ensures { result ≡ is_some (fault_in reply.now) }
{
    matches!(reply, Reply::Fault(_))
}

// Whether a count has risen, or stands at its type's end.
fn has_risen(before: u64, now: u64) -> bool
    ensures { IsTrue result ↔ Rose before now }
{
    now > before || now == u64::MAX
}

// The greater of two numbers.
fn greater(one: u32, other: u32) -> u32
    ensures { result ≡ max one other }
{
    if one < other { other } else { one }
}
