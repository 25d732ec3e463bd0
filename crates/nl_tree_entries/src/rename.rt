//! The tree after a rename.
ghost use Rattle.std.specs.Prelude.{◌≡◌, ◌++◌, [], ◌∷◌, length, drop, map, if◌then◌else◌, IfOk, OnOk};
ghost use Rattle.std.specs.FinMap.Entries.{where_key};
ghost use Rattle.nl_tree.specs.Tree.{path_cmp, is_at_or_under, with_renamed};

use crate::entries::{Entry, staying};
use crate::merge::put_all;
use crate::names::is_under;
use crate::shared::SharedNode;
use nl_field::{Memory, Text};
use nl_tree_content::{SharedPath, behind, joined};
use std::alloc::Global;

/// The tree in which all that is at or under one path is under the other instead.
#[tactic(auto, unfolding(nl_tree::specs::Tree::with_renamed))]
pub fn renamed(
    alloc: Global,
    tree: &[Entry],
    from: &[Text],
    to: &[Text],
) -> Result<Vec<Entry>, Memory>
    ensures { IfOk result (λ v. v.items ≡ with_renamed tree.now from.now to.now) }
{
    let kept = staying(alloc, tree, from, to)?;
    let moved = all_moved(alloc, tree, from, to)?;
    put_all(alloc, kept, &moved)
}

/// The entries at or under one path, as they stand under the other.
fn all_moved(
    alloc: Global,
    tree: &[Entry],
    from: &[Text],
    to: &[Text],
) -> Result<Vec<Entry>, Memory>
    ensures { IfOk result (λ v. v.items
        ≡ map (λ e. (to.now ++ drop (length from.now) e.0, e.1)) (where_key path_cmp (is_at_or_under from.now) tree.now)) }
{
    let mut moved = Vec::new(alloc);
    'entries: for entry in tree {
        push_moved(alloc, &mut moved, entry, from, to)?;
    }
    Ok(moved)
}

fn push_moved(
    alloc: Global,
    moved: &mut Vec<Entry>,
    entry: &Entry,
    from: &[Text],
    to: &[Text],
) -> Result<(), Memory>
    ensures { OnOk result (moved.new.items
        ≡ moved.old.items
        ++ (if is_at_or_under from.now entry.now.0 then (to.now ++ drop (length from.now) entry.now.0, entry.now.1) ∷ [] else [])) }
{
    let names = entry.0.names();
    if !is_under(from, names) {
        return Ok(());
    }
    let path = joined(alloc, to, behind(from, names))?;
    push(moved, path, &entry.1)
}

fn push(moved: &mut Vec<Entry>, path: SharedPath, node: &SharedNode) -> Result<(), Memory>
    ensures { OnOk result (moved.new.items ≡ moved.old.items ++ (path, node.now) ∷ []) }
{
    let shared = node.share()?;
    moved.push((path, shared))?;
    Ok(())
}
