//! The tree after a call that is not refused.
ghost use Rattle.std.specs.Prelude.{◌≡◌, ◌<◌, ◌≤◌, ◌+◌, length, IfOk, IfSome, IfNone, if◌then◌else◌, Some, None, Ok, replicate};
ghost use Rattle.std.specs.Option.{option_map_or};
ghost use Rattle.nl_field.specs.Numbers.{max_bytes, max_file_size};
ghost use Rattle.nl_field.specs.FileContent.{empty_file, written_over, cut_to};
ghost use Rattle.nl_tree.specs.Tree.{directory, file, node_at, with_new, with_content, without as tree_without, with_renamed, paths_eq, content_of};
ghost use Rattle.nl_tree.specs.Step.{effect_of, own_refusal};
ghost use Rattle.nl_tree.specs.Calls.{HasFewBytes};

use nl_field::{Memory, Text};
use nl_tree::{Call, Path};
use nl_tree_content::{FileBuf, copied_path, cut, written};
use nl_tree_entries::{Entry, SharedNode, are_equal, copy, find, put, renamed, without};
use std::alloc::Global;

/// The tree after a call, where the call may change it.
#[tactic(auto, unfolding(nl_tree::specs::Step::effect_of))]
pub(crate) fn after(
    alloc: Global,
    tree: &[Entry],
    call: &Call,
) -> Result<Option<Vec<Entry>>, Memory>
    requires bounded { HasFewBytes call.now }
    requires passes { own_refusal tree.now call.now ≡ None }
    ensures changed { IfOk result (λ o. IfSome o (λ v. v.items ≡ (effect_of tree.now call.now).tree)) }
    ensures same { IfOk result (λ o. IfNone o (tree.now ≡ (effect_of tree.now call.now).tree)) }
{
    match call {
        Call::Mkdir(path) => changed(with_node(alloc, tree, path, SharedNode::directory())),
        Call::Create(path) => changed(with_file(alloc, tree, path, FileBuf::empty(alloc))),
        Call::Rmdir(path) | Call::Unlink(path) => changed(without_path(alloc, tree, path)),
        Call::Rename(from, to) => changed(after_rename(alloc, tree, from, to)),
        Call::Write(path, from, bytes) => {
            changed(after_write(alloc, tree, path, *from, bytes.bytes()))
        }
        Call::Fill(path, from, len, byte) => {
            changed(after_fill(alloc, tree, path, *from, *len, *byte))
        }
        Call::Truncate(path, size) => changed(after_cut(alloc, tree, path, *size)),
        Call::Read(_, _, _) | Call::Stat(_) | Call::List(_) | Call::Sync | Call::Clean => Ok(None),
    }
}

fn changed(next: Result<Vec<Entry>, Memory>) -> Result<Option<Vec<Entry>>, Memory>
    ensures some { IfOk result (λ o. IfNone o ⊥) }
    ensures tree { IfOk result (λ o. IfSome o (λ v. Ok v ≡ next)) }
{
    match next {
        Ok(tree) => Ok(Some(tree)),
        Err(memory) => Err(memory),
    }
}

#[tactic(auto, unfolding(nl_tree::specs::Tree::with_new))]
fn with_node(
    alloc: Global,
    tree: &[Entry],
    path: &Path,
    node: SharedNode,
) -> Result<Vec<Entry>, Memory>
    ensures { IfOk result (λ v. v.items ≡ with_new tree.now path.now node) }
{
    let mut next = copy(alloc, tree)?;
    let copied = copied_path(alloc, path)?;
    put(&mut next, copied, node)?;
    Ok(next)
}

#[tactic(auto, unfolding(nl_tree::specs::Tree::with_new, nl_tree::specs::Tree::with_content))]
fn with_file(
    alloc: Global,
    tree: &[Entry],
    path: &Path,
    content: FileBuf,
) -> Result<Vec<Entry>, Memory>
    ensures new { IfOk result (λ v. v.items ≡ with_new tree.now path.now (file content)) }
    ensures there { IfOk result (λ v. v.items ≡ with_content tree.now path.now content) }
{
    let node = SharedNode::of_file(alloc, content)?;
    with_node(alloc, tree, path, node)
}

#[tactic(auto, unfolding(nl_tree::specs::Tree::without))]
fn without_path(alloc: Global, tree: &[Entry], path: &Path) -> Result<Vec<Entry>, Memory>
    ensures { IfOk result (λ v. v.items ≡ tree_without tree.now path.now) }
{
    without(alloc, tree, path.names())
}

fn after_rename(alloc: Global, tree: &[Entry], from: &Path, to: &Path) -> Result<Vec<Entry>, Memory>
    ensures { IfOk result (λ v. v.items ≡ (if paths_eq from.now to.now then tree.now else with_renamed tree.now from.now to.now)) }
{
    if are_equal(from.names(), to.names()) {
        copy(alloc, tree)
    } else {
        renamed(alloc, tree, from.names(), to.names())
    }
}

fn after_write(
    alloc: Global,
    tree: &[Entry],
    path: &Path,
    from: u64,
    bytes: &[u8],
) -> Result<Vec<Entry>, Memory>
    requires small { length bytes.now ≤ max_bytes }
    requires end { 0 < length bytes.now → from + length bytes.now ≤ max_file_size }
    ensures { IfOk result (λ v. v.items
        ≡ with_content tree.now path.now (written_over (content_of (node_at tree.now path.now)) from bytes.now)) }
{
    let content = match content_at(tree, path.names()) {
        Some(content) => written(alloc, content, from, bytes)?,
        None => written(alloc, &FileBuf::empty(alloc), from, bytes)?,
    };
    with_file(alloc, tree, path, content)
}

fn after_fill(
    alloc: Global,
    tree: &[Entry],
    path: &Path,
    from: u64,
    len: u32,
    byte: u8,
) -> Result<Vec<Entry>, Memory>
    requires small { len ≤ max_bytes }
    requires end { 0 < len → from + len ≤ max_file_size }
    ensures { IfOk result (λ v. v.items
        ≡ with_content tree.now path.now (written_over (content_of (node_at tree.now path.now)) from (replicate len byte))) }
{
    let bytes = vec![in alloc; byte; len as usize]?;
    after_write(alloc, tree, path, from, &bytes)
}

fn after_cut(alloc: Global, tree: &[Entry], path: &Path, size: u64) -> Result<Vec<Entry>, Memory>
    requires { size ≤ max_file_size }
    ensures { IfOk result (λ v. v.items ≡ with_content tree.now path.now (cut_to (content_of (node_at tree.now path.now)) size)) }
{
    let content = match content_at(tree, path.names()) {
        Some(content) => cut(alloc, content, size)?,
        None => cut(alloc, &FileBuf::empty(alloc), size)?,
    };
    with_file(alloc, tree, path, content)
}

/// The content of the file at a path.
pub(crate) fn content_at<'a>(tree: &'a [Entry], path: &[Text]) -> Option<&'a FileBuf>
    ensures { content_of (node_at tree.now path.now) ≡ option_map_or (λ f. f.now) result empty_file }
{
    match find(tree, path) {
        Some(node) => node.content(),
        None => None,
    }
}
