//! A tree as the list of its paths with their nodes, in the order of the paths.
ghost use Rattle.std.specs.Prelude.{◌≡◌, ◌+◌, ◌≤◌, ◌==◌, ◌&&◌, ◌++◌, [], ◌∷◌, if◌then◌else◌, not, length, drop, IfOk, OnOk, OnErr};
ghost use Rattle.std.specs.Option.{option_copied};
ghost use Rattle.std.specs.FinMap.Entries.{put as with_entry, where_key};
ghost use Rattle.nl_tree.specs.Tree.{path_cmp, paths_eq, is_at_or_under, node_at, entries_of};
ghost use Rattle.nl_tree_content.specs.Places.{place_in, is_first};
ghost use Rattle.nl_tree.specs.KeptSums.{is_entry_of};
ghost use Rattle.nl_tree_entries.specs.Entries.{run_of};

use crate::names::{are_equal, compare, is_under};
use crate::shared::SharedNode;
use nl_field::{Memory, Text};
use nl_tree_content::SharedPath;
use std::alloc::Global;
use std::cmp::Ordering;

/// A path, and what stands there. Both are shared by the trees in which they stay.
pub type Entry = (SharedPath, SharedNode);

/// The node at a path.
#[tactic(auto, unfolding(nl_tree::specs::Tree::node_at))]
pub fn find<'a>(tree: &'a [Entry], path: &[Text]) -> Option<&'a SharedNode>
    ensures { option_copied result ≡ node_at tree.now path.now }
{
    'entries: for entry in tree {
        if are_equal(path, entry.0.names()) {
            return Some(&entry.1);
        }
    }
    None
}

/// Puts an entry in its place.
pub fn put(tree: &mut Vec<Entry>, path: SharedPath, node: SharedNode) -> Result<(), Memory>
    ensures ok { OnOk result (tree.new.items ≡ with_entry path_cmp path node tree.old.items) }
    ensures err { OnErr result (tree.new.items ≡ tree.old.items) }
{
    let at = place_of(tree, &path);
    if is_at(tree, at, &path) {
        tree[at].1 = node;
    } else {
        tree.insert(at, (path, node))?;
    }
    Ok(())
}

/// How many entries stand before a path.
pub(crate) fn place_of(tree: &[Entry], path: &SharedPath) -> usize
    ensures place { result ≡ place_in path_cmp path.now tree.now }
    ensures bound { result ≤ length tree.now }
{
    let names = path.names();
    let mut at = 0;
    'entries: while at < tree.len() && compare(names, tree[at].0.names()) == Ordering::Greater {
        at += 1;
    }
    at
}

/// Whether the entry at a position is that of the path.
pub(crate) fn is_at(tree: &[Entry], at: usize, path: &SharedPath) -> bool
    ensures { result ≡ is_first path_cmp path.now (drop at tree.now) }
{
    at < tree.len() && are_equal(path.names(), tree[at].0.names())
}

/// A list of the entries of the tree, shared with it.
pub fn copy(alloc: Global, tree: &[Entry]) -> Result<Vec<Entry>, Memory>
    ensures { IfOk result (λ v. v.items ≡ tree.now) }
{
    let mut copied = Vec::with_capacity(alloc, tree.len())?;
    push_all(&mut copied, tree)?;
    Ok(copied)
}

fn share(entry: &Entry) -> Result<Entry, Memory>
    ensures { IfOk result (λ e. e ≡ entry.now) }
{
    let path = entry.0.share()?;
    Ok((path, entry.1.share()?))
}

/// Adds an entry at the end, shared with where it is. An error where memory is refused.
pub(crate) fn push(kept: &mut Vec<Entry>, entry: &Entry) -> Result<(), Memory>
    ensures { OnOk result (kept.new.items ≡ kept.old.items ++ entry.now ∷ []) }
{
    let shared = share(entry)?;
    kept.push(shared)?;
    Ok(())
}

/// Adds entries at the end, in their order, shared with where they are. An error where memory is refused.
pub(crate) fn push_all(kept: &mut Vec<Entry>, entries: &[Entry]) -> Result<(), Memory>
    ensures { OnOk result (kept.new.items ≡ kept.old.items ++ entries.now) }
{
    'entries: for entry in entries {
        push(kept, entry)?;
    }
    Ok(())
}

/// Adds an entry that is to be kept.
fn push_if(kept: &mut Vec<Entry>, keep: bool, entry: &Entry) -> Result<(), Memory>
    ensures { OnOk result (kept.new.items ≡ kept.old.items ++ (if keep then entry.now ∷ [] else [])) }
{
    if keep { push(kept, entry) } else { Ok(()) }
}

fn is_other(path: &[Text], entry: &SharedPath) -> bool
    ensures { result ≡ not (paths_eq path.now entry.now) }
{
    !are_equal(path, entry.names())
}

fn stays(from: &[Text], to: &[Text], entry: &SharedPath) -> bool
    ensures { result ≡ (not (is_at_or_under from.now entry.now) && not (paths_eq to.now entry.now)) }
{
    !is_under(from, entry.names()) && !are_equal(to, entry.names())
}

/// All entries but that of a path.
pub fn without(alloc: Global, tree: &[Entry], path: &[Text]) -> Result<Vec<Entry>, Memory>
    ensures { IfOk result (λ v. v.items ≡ where_key path_cmp (λ p. not (paths_eq path.now p)) tree.now) }
{
    let mut kept = Vec::with_capacity(alloc, tree.len())?;
    'entries: for entry in tree {
        let keep = is_other(path, &entry.0);
        push_if(&mut kept, keep, entry)?;
    }
    Ok(kept)
}

/// All entries but those at or under one path, and that of another.
pub(crate) fn staying(
    alloc: Global,
    tree: &[Entry],
    from: &[Text],
    to: &[Text],
) -> Result<Vec<Entry>, Memory>
    ensures { IfOk result (λ v. v.items ≡ where_key path_cmp (λ p. not (is_at_or_under from.now p) && not (paths_eq to.now p)) tree.now) }
{
    let mut kept = Vec::with_capacity(alloc, tree.len())?;
    'entries: for entry in tree {
        let keep = stays(from, to, &entry.0);
        push_if(&mut kept, keep, entry)?;
    }
    Ok(kept)
}

/// How many entries of a directory stand in the leading run of what lies under it.
pub fn run(rest: &[Entry], path: &SharedPath) -> usize
    ensures count { result ≡ run_of path.now rest.now }
    ensures bound { result ≤ length rest.now }
{
    let mut count = 0;
    'entries: for entry in rest {
        if !lies_under(path, &entry.0) {
            return count;
        }
        count += step_of(path, &entry.0);
    }
    count
}

fn lies_under(path: &SharedPath, other: &SharedPath) -> bool
    ensures { result ≡ is_at_or_under path.now other.now }
{
    is_under(path.names(), other.names())
}

/// 1 for a path that is one name longer.
fn step_of(path: &SharedPath, other: &SharedPath) -> usize
    ensures { result ≡ (if length other.now == length path.now + 1 then 1 else 0) }
{
    let longer = is_one_longer(path.names(), other.names());
    if longer { 1 } else { 0 }
}

/// Whether the other path has exactly one name more.
pub(crate) fn is_one_longer(path: &[Text], other: &[Text]) -> bool
    ensures { result ≡ (length other.now == length path.now + 1) }
{
    other.len() > path.len() && other.len() - path.len() == 1
}

/// How many entries the directory of a path has.
#[tactic(auto, unfolding(nl_tree::specs::Tree::entries_of))]
pub fn count_entries(tree: &[Entry], path: &[Text]) -> usize
    ensures count { result ≡ length (entries_of tree.now path.now) }
    ensures bound { result ≤ length tree.now }
{
    let mut count = 0;
    'entries: for entry in tree {
        count += weight_of(path, &entry.0);
    }
    count
}

/// 1 for an entry of the directory.
fn weight_of(path: &[Text], entry: &SharedPath) -> usize
    ensures { result ≡ (if is_entry_of path.now entry.now then 1 else 0) }
{
    let counts = is_entry(path, entry);
    if counts { 1 } else { 0 }
}

/// Whether the second path is that of an entry of the directory at the first.
pub(crate) fn is_entry(path: &[Text], entry: &SharedPath) -> bool
    ensures { result ≡ is_entry_of path.now entry.now }
{
    is_one_longer(path, entry.names()) && is_under(path, entry.names())
}
