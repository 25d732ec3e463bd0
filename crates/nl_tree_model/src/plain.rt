//! The plain tree of files as a program: slow, simple, and exactly the definition of a step.
ghost use Rattle.std.specs.Prelude.{◌≡◌, ◌<◌, ◌+◌, [], IfOk, IfErr, Some, IfSome, IfNone, OnOk, OnErr, None};
ghost use Rattle.nl_field.specs.CrashStates.{saturated};
ghost use Rattle.nl_field.specs.declared.shape.Shape.{Shape};
ghost use Rattle.nl_tree.specs.Tree.{empty_tree};
ghost use Rattle.nl_tree.specs.Step.{step, effect_of, space_refusal, refusal_before};
ghost use Rattle.nl_tree.specs.Calls.{HasFewBytes};
ghost use Rattle.nl_tree_model.specs.PlainTree.{PlainState, IsPlainTree, numbered, ArePageCharges};
ghost use Rattle.nl_tree.specs.KeptSums.{changed_path};

mod after;
mod refusals;
mod reply;
mod space;
mod sums;

use nl_field::{Memory, Shape};
use nl_tree::{Call, Path, Refusal, Reply, ReplyBuf};
use nl_tree_content::SharedPath;
use nl_tree_entries::{Entry, SharedNode};
use std::alloc::Global;
use std::marker::Model;
use sums::Sums;

/// A plain tree of files that answers calls one at a time. It is for tests: a call that changes the tree makes the list of
/// its paths anew, and shares the paths and files that stay. The sums of its charges stand beside it.
#[derive(Drop)]
pub struct Plain {
    alloc: Global,
    shape: Shape,
    tree: Vec<Entry>,
    sums: Sums,
    calls: u64,
}

impl Model for Plain {
    ghost use Rattle.nl_tree_model.specs.PlainTree.{PlainState, IsPlainTree, ArePageCharges};

    ghost Value = { PlainState };

    ghost view = { λ p. record { shape = p.shape; tree = p.tree.items; calls = p.calls } };

    ghost invariant = { λ p. IsPlainTree p.shape p.tree.items × ArePageCharges p.sums.pages p.sums.meta p.tree.items };
}

impl Plain {
    /// The tree with only the root, on a volume of this shape.
    pub fn new(alloc: Global, shape: Shape) -> Result<Plain, Memory>
        requires { 0 < shape.nodes }
        ensures { IfOk result (λ p. p ≡ record { shape = shape; tree = empty_tree; calls = 0 }) }
    {
        let mut tree = Vec::new(alloc);
        let root = SharedPath::new(alloc, Path::new(alloc))?;
        tree.push((root, SharedNode::directory()))?;
        Ok(Plain {
            alloc,
            shape,
            tree,
            sums: Sums { pages: 0, meta: 0 },
            calls: 0,
        })
    }

    /// Answers a call, with the bytes of the reply in `out`. A sync is answered with the count of calls before it, and 0.
    pub fn step(&mut self, call: &Call, out: &mut ReplyBuf) -> Result<Reply, Memory>
        requires { HasFewBytes call.now }
        ensures reply { IfOk result (λ r. r ≡ numbered self.old.calls (step self.old.shape self.old.tree call.now).reply) }
        ensures bytes { OnOk result (out.new ≡ (step self.old.shape self.old.tree call.now).bytes) }
        ensures tree { OnOk result (self.new.tree ≡ (step self.old.shape self.old.tree call.now).tree) }
        ensures calls { OnOk result (self.new.calls ≡ saturated (self.old.calls + 1)) }
        ensures shape { self.new.shape ≡ self.old.shape }
        ensures unchanged { OnErr result (self.new ≡ self.old) }
        ensures cleared { OnErr result (out.new ≡ []) }
    {
        out.clear();
        let reply = answer(
            self.alloc,
            self.shape,
            &mut self.tree,
            &mut self.sums,
            self.calls,
            call,
            out,
        )?;
        self.calls = self.calls.saturating_add(1);
        Ok(reply)
    }
}

/// Answers a call and changes the tree.
fn answer(
    alloc: Global,
    shape: Shape,
    tree: &mut Vec<Entry>,
    sums: &mut Sums,
    calls: u64,
    call: &Call,
    out: &mut ReplyBuf,
) -> Result<Reply, Memory>
    requires bounded { HasFewBytes call.now }
    requires plain { IsPlainTree shape tree.old.items }
    requires kept { ArePageCharges sums.old.pages sums.old.meta tree.old.items }
    requires empty { out.old ≡ [] }
    ensures reply { IfOk result (λ r. r ≡ numbered calls (step shape tree.old.items call.now).reply) }
    ensures bytes { OnOk result (out.new ≡ (step shape tree.old.items call.now).bytes) }
    ensures tree { OnOk result (tree.new.items ≡ (step shape tree.old.items call.now).tree) }
    ensures plain { IsPlainTree shape tree.new.items }
    ensures kept { ArePageCharges sums.new.pages sums.new.meta tree.new.items }
    ensures unchanged { OnErr result (tree.new.items ≡ tree.old.items) }
    ensures cleared { OnErr result (out.new ≡ []) }
{
    match before(tree, call) {
        Some(refusal) => Ok(Reply::No(refusal)),
        None => perform(alloc, shape, tree, sums, calls, call, out),
    }
}

fn before(tree: &Vec<Entry>, call: &Call) -> Option<Refusal>
    requires { HasFewBytes call.now }
    ensures { result ≡ refusal_before tree.now.items call.now }
{
    refusals::before(tree, call)
}

/// Answers a call that is not refused before it is tried.
fn perform(
    alloc: Global,
    shape: Shape,
    tree: &mut Vec<Entry>,
    sums: &mut Sums,
    calls: u64,
    call: &Call,
    out: &mut ReplyBuf,
) -> Result<Reply, Memory>
    requires bounded { HasFewBytes call.now }
    requires passes { None ≡ refusal_before tree.old.items call.now }
    requires plain { IsPlainTree shape tree.old.items }
    requires kept { ArePageCharges sums.old.pages sums.old.meta tree.old.items }
    requires empty { out.old ≡ [] }
    ensures reply { IfOk result (λ r. r ≡ numbered calls (step shape tree.old.items call.now).reply) }
    ensures bytes { OnOk result (out.new ≡ (step shape tree.old.items call.now).bytes) }
    ensures tree { OnOk result (tree.new.items ≡ (step shape tree.old.items call.now).tree) }
    ensures plain { IsPlainTree shape tree.new.items }
    ensures kept { ArePageCharges sums.new.pages sums.new.meta tree.new.items }
    ensures unchanged { OnErr result (tree.new.items ≡ tree.old.items) }
    ensures cleared { OnErr result (out.new ≡ []) }
{
    match tree_after(alloc, tree, call)? {
        Some(next) => Ok(settle(alloc, shape, tree, sums, next, calls, call, out)),
        None => Ok(stay(alloc, shape, tree, calls, call, out)),
    }
}

fn tree_after(alloc: Global, tree: &Vec<Entry>, call: &Call) -> Result<Option<Vec<Entry>>, Memory>
    requires bounded { HasFewBytes call.now }
    requires passes { None ≡ refusal_before tree.now.items call.now }
    ensures changed { IfOk result (λ o. IfSome o (λ v. v.items ≡ (effect_of tree.now.items call.now).tree)) }
    ensures same { IfOk result (λ o. IfNone o (tree.now.items ≡ (effect_of tree.now.items call.now).tree)) }
{
    after::after(alloc, tree, call)
}

/// Answers a call that leaves the tree.
fn stay(
    alloc: Global,
    shape: Shape,
    tree: &Vec<Entry>,
    calls: u64,
    call: &Call,
    out: &mut ReplyBuf,
) -> Reply
    requires bounded { HasFewBytes call.now }
    requires passes { None ≡ refusal_before tree.now.items call.now }
    requires plain { IsPlainTree shape tree.now.items }
    requires same { tree.now.items ≡ (effect_of tree.now.items call.now).tree }
    requires empty { out.old ≡ [] }
    ensures reply { result ≡ numbered calls (step shape tree.now.items call.now).reply }
    ensures bytes { out.new ≡ (step shape tree.now.items call.now).bytes }
    ensures tree { tree.now.items ≡ (step shape tree.now.items call.now).tree }
{
    reply_in(alloc, shape, tree, calls, call, out)
}

/// Becomes the tree after the call, if the volume has room for it.
fn settle(
    alloc: Global,
    shape: Shape,
    tree: &mut Vec<Entry>,
    sums: &mut Sums,
    next: Vec<Entry>,
    calls: u64,
    call: &Call,
    out: &mut ReplyBuf,
) -> Reply
    requires bounded { HasFewBytes call.now }
    requires passes { None ≡ refusal_before tree.old.items call.now }
    requires plain { IsPlainTree shape tree.old.items }
    requires kept { ArePageCharges sums.old.pages sums.old.meta tree.old.items }
    requires changed { next.items ≡ (effect_of tree.old.items call.now).tree }
    requires empty { out.old ≡ [] }
    ensures reply { result ≡ numbered calls (step shape tree.old.items call.now).reply }
    ensures bytes { out.new ≡ (step shape tree.old.items call.now).bytes }
    ensures tree { tree.new.items ≡ (step shape tree.old.items call.now).tree }
    ensures plain { IsPlainTree shape tree.new.items }
    ensures kept { ArePageCharges sums.new.pages sums.new.meta tree.new.items }
{
    match room(shape, tree, &next, call, *sums) {
        Err(refusal) => Reply::No(refusal),
        Ok(changed) => {
            let reply = reply_in(alloc, shape, tree, calls, call, out);
            *tree = next;
            *sums = changed;
            reply
        }
    }
}

/// The sums of the tree after a call, or what the volume lacks for it. A rename takes one pass over the tree after it, and
/// every other call looks at what it changes.
fn room(
    shape: Shape,
    tree: &Vec<Entry>,
    next: &Vec<Entry>,
    call: &Call,
    sums: Sums,
) -> Result<Sums, Refusal>
    requires plain { IsPlainTree shape tree.now.items }
    requires kept { ArePageCharges sums.pages sums.meta tree.now.items }
    requires changed { next.now.items ≡ (effect_of tree.now.items call.now).tree }
    ensures sums { IfOk result (λ s. ArePageCharges s.pages s.meta next.now.items) }
    ensures room { OnOk result (None ≡ space_refusal shape next.now.items) }
    ensures refusal { IfErr result (λ r. Some r ≡ space_refusal shape next.now.items) }
{
    match path_of(call) {
        Some(path) if !path.names().is_empty() => {
            sums::after_change(shape, tree, next, path.names(), sums)
        }
        _ => sums::in_one_pass(shape, next),
    }
}

fn path_of(call: &Call) -> Option<&Path>
    ensures { IfSome result (λ p. changed_path call.now ≡ Some p.now) }
{
    match call {
        Call::Mkdir(path)
        | Call::Create(path)
        | Call::Rmdir(path)
        | Call::Unlink(path)
        | Call::Write(path, _, _)
        | Call::Fill(path, _, _, _)
        | Call::Truncate(path, _) => Some(path),
        Call::Rename(_, _)
        | Call::Read(_, _, _)
        | Call::Stat(_)
        | Call::List(_)
        | Call::Sync
        | Call::Clean => None,
    }
}

fn reply_in(
    alloc: Global,
    shape: Shape,
    tree: &Vec<Entry>,
    calls: u64,
    call: &Call,
    out: &mut ReplyBuf,
) -> Reply
    requires bounded { HasFewBytes call.now }
    requires passes { None ≡ refusal_before tree.now.items call.now }
    requires plain { IsPlainTree shape tree.now.items }
    requires empty { out.old ≡ [] }
    ensures reply { result ≡ numbered calls (effect_of tree.now.items call.now).reply }
    ensures bytes { out.new ≡ (effect_of tree.now.items call.now).bytes }
{
    let _cap = shape.cap;
    reply::reply_of(alloc, tree, call, calls, out)
}
