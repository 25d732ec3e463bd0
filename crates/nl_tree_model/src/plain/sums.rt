//! The sums that are kept beside a tree.
ghost use Rattle.std.specs.Prelude.{◌≡◌, ◌<◌, ◌^◌, ◌+◌, ◌||◌, Option, None, Some, IfOk, IfErr, OnOk, false, true, is_some, length, nat_lt};
ghost use Rattle.std.specs.Option.{option_copied};
ghost use Rattle.nl_tree.specs.Tree.{node_at};
ghost use Rattle.nl_tree.specs.TreeLaws.{IsInOrder};
ghost use Rattle.nl_tree.specs.Step.{space_refusal};
ghost use Rattle.nl_tree_model.specs.PlainTree.{ArePageCharges};
ghost use Rattle.nl_tree.specs.KeptSums.{IsChangeAt, has_overfull, parent_of, data_part, ranges_part, count_at, count_part, pages_of_entries, overfull};

use super::refusals::is_missing;
use super::space::{data_total, exceeds_nodes, has_full_directory, meta_total, ranges};
use nl_field::{MAX_ENTRIES, Shape, Text};
use nl_tree::{Refusal, Space};
use nl_tree_entries::{Entry, SharedNode, count_entries, find};

/// The data pages and the metadata pages of a tree.
#[derive(Clone, Copy)]
pub(crate) struct Sums {
    pub(crate) pages: u64,
    pub(crate) meta: u64,
}

/// How many entries a path and its parent have, where they are there.
#[derive(Clone, Copy)]
struct Counts {
    own: Option<usize>,
    parent: Option<usize>,
}

fn count_of(tree: &[Entry], path: &[Text], there: bool) -> Option<usize>
    requires { there ≡ is_some (node_at tree.now path.now) }
    ensures { result ≡ count_at tree.now path.now }
{
    if there {
        Some(count_entries(tree, path))
    } else {
        None
    }
}

fn parent(path: &[Text]) -> &[Text]
    ensures { result.now ≡ parent_of path.now }
{
    &path[..path.len().saturating_sub(1)]
}

fn counts_of(tree: &[Entry], path: &[Text], there: bool) -> Counts
    requires { there ≡ is_some (node_at tree.now path.now) }
    ensures own { result.own ≡ count_at tree.now path.now }
    ensures parent { result.parent ≡ count_at tree.now (parent_of path.now) }
{
    let above = parent(path);
    let parent_there = !is_missing(tree, above);
    Counts {
        own: count_of(tree, path, there),
        parent: count_of(tree, above, parent_there),
    }
}

fn is_overfull(count: Option<usize>) -> bool
    ensures { result ≡ nat_lt 0 (count_part overfull count) }
{
    match count {
        Some(count) => count > MAX_ENTRIES as usize,
        None => false,
    }
}

fn entry_pages(count: Option<usize>) -> u64
    ensures pages { result ≡ count_part pages_of_entries count }
    ensures bound { result < 2 ^ 62 }
{
    match count {
        Some(count) => count.div_ceil(64) as u64,
        None => 0,
    }
}

fn is_there(node: Option<&SharedNode>) -> bool
    ensures { result ≡ is_some (option_copied node.entry) }
{
    match node {
        Some(_) => true,
        None => false,
    }
}

fn data_of(node: Option<&SharedNode>) -> u64
    ensures pages { result ≡ data_part (option_copied node.entry) }
    ensures bound { result < 2 ^ 63 }
{
    match node {
        Some(node) => match node.content() {
            Some(content) => content.page_count() as u64,
            None => 0,
        },
        None => 0,
    }
}

fn ranges_of(node: Option<&SharedNode>) -> u64
    ensures pages { result ≡ ranges_part (option_copied node.entry) }
    ensures bound { result < 2 ^ 32 }
{
    match node {
        Some(node) => ranges(node),
        None => 0,
    }
}

/// The metadata pages of the entries that a path and its parent have.
fn pages_of(counts: Counts) -> u64
    ensures pages { result ≡ count_part pages_of_entries counts.own + count_part pages_of_entries counts.parent }
    ensures bound { result < 2 ^ 63 }
{
    entry_pages(counts.own) + entry_pages(counts.parent)
}

/// Whether the path or its parent has too many entries.
fn overfills(counts: Counts) -> bool
    ensures { result ≡ nat_lt 0 (count_part overfull counts.own + count_part overfull counts.parent) }
{
    is_overfull(counts.own) || is_overfull(counts.parent)
}

/// The sums of the tree after a change at one path, or what the volume lacks for it.
pub(crate) fn after_change(
    shape: Shape,
    tree: &[Entry],
    next: &[Entry],
    path: &[Text],
    sums: Sums,
) -> Result<Sums, Refusal>
    requires change { IsChangeAt path.now tree.now next.now }
    requires some { 0 < length path.now }
    requires before { None ≡ space_refusal shape tree.now }
    requires kept { ArePageCharges sums.pages sums.meta tree.now }
    ensures sums { IfOk result (λ s. ArePageCharges s.pages s.meta next.now) }
    ensures room { OnOk result (None ≡ space_refusal shape next.now) }
    ensures refusal { IfErr result (λ r. Some r ≡ space_refusal shape next.now) }
{
    let was = find(tree, path);
    let now = find(next, path);
    let pages = sums.pages + data_of(now) - data_of(was);
    let meta = sums.meta + ranges_of(now);
    if is_there(was) && is_there(now) {
        let changed = Sums {
            pages,
            meta: meta - ranges_of(was),
        };
        return judged(shape, next, false, changed);
    }
    let before = counts_of(tree, path, is_there(was));
    let after = counts_of(next, path, is_there(now));
    let changed = Sums {
        pages,
        meta: meta + pages_of(after) - pages_of(before) - ranges_of(was),
    };
    judged(shape, next, overfills(after), changed)
}

/// The sums of a tree, or what the volume lacks for it.
fn judged(shape: Shape, tree: &[Entry], full: bool, sums: Sums) -> Result<Sums, Refusal>
    requires full { full ≡ has_overfull tree.now }
    requires sums { ArePageCharges sums.pages sums.meta tree.now }
    ensures sums { IfOk result (λ s. ArePageCharges s.pages s.meta tree.now) }
    ensures room { OnOk result (None ≡ space_refusal shape tree.now) }
    ensures refusal { IfErr result (λ r. Some r ≡ space_refusal shape tree.now) }
{
    if full {
        return Err(Refusal::Enospc(Space::Dir));
    }
    if exceeds_nodes(tree, shape.nodes) {
        return Err(Refusal::Enospc(Space::Nodes));
    }
    if sums.meta > shape.meta as u64 {
        return Err(Refusal::Enospc(Space::Meta));
    }
    if sums.pages > shape.cap as u64 {
        return Err(Refusal::Enospc(Space::Pages));
    }
    Ok(sums)
}

/// The sums of a tree in one pass over it, or what the volume lacks for it.
pub(crate) fn in_one_pass(shape: Shape, tree: &[Entry]) -> Result<Sums, Refusal>
    requires { IsInOrder tree.now }
    ensures sums { IfOk result (λ s. ArePageCharges s.pages s.meta tree.now) }
    ensures room { OnOk result (None ≡ space_refusal shape tree.now) }
    ensures refusal { IfErr result (λ r. Some r ≡ space_refusal shape tree.now) }
{
    if has_full_directory(tree) {
        return Err(Refusal::Enospc(Space::Dir));
    }
    if exceeds_nodes(tree, shape.nodes) {
        return Err(Refusal::Enospc(Space::Nodes));
    }
    let Some(meta) = meta_total(tree, shape.meta) else {
        return Err(Refusal::Enospc(Space::Meta));
    };
    let Some(pages) = data_total(tree, shape.cap) else {
        return Err(Refusal::Enospc(Space::Pages));
    };
    Ok(Sums { pages, meta })
}
