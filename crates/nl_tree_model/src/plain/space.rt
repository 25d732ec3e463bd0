//! Whether a volume has room for a tree.
ghost use Rattle.std.specs.Prelude.{◌≡◌, ◌<◌, ◌≤◌, ◌^◌, ℕ, List, length, nat_lt, slice_index_or, IfSome, IfNone};
ghost use Rattle.std.specs.List.{list_any};
ghost use Rattle.nl_field.specs.Numbers.{max_entries};
ghost use Rattle.nl_tree.specs.Tree.{Node, entries_of};
ghost use Rattle.nl_tree.specs.TreeLaws.{IsInOrder};
ghost use Rattle.nl_tree.specs.Charges.{ranges_of_node, data_charge, node_charge, meta_charge};
ghost use Rattle.nl_tree.specs.KeptSums.{meta_of_entry, data_of_entry};

use nl_field::MAX_ENTRIES;
use nl_tree_entries::{Entry, SharedNode, run};

/// How many entries the directory at a position has.
fn entry_count(tree: &[Entry], at: usize) -> usize
    requires order { IsInOrder tree.now }
    requires there { at < length tree.now }
    ensures count { (d : List (List ℕ) × Node) → result ≡ length (entries_of tree.now (slice_index_or tree.now at d).0) }
    ensures bound { result ≤ length tree.now }
{
    run(&tree[at + 1..], &tree[at].0)
}

fn is_overfull(tree: &[Entry], at: usize) -> bool
    requires order { IsInOrder tree.now }
    requires there { at < length tree.now }
    ensures { (d : List (List ℕ) × Node) → result ≡ nat_lt max_entries (length (entries_of tree.now (slice_index_or tree.now at d).0)) }
{
    entry_count(tree, at) > MAX_ENTRIES as usize
}

/// Whether a directory of the tree has more entries than one may have.
pub(crate) fn has_full_directory(tree: &[Entry]) -> bool
    requires { IsInOrder tree.now }
    ensures { result ≡ list_any (λ e. nat_lt max_entries (length (entries_of tree.now e.0))) tree.now }
{
    'entries: for at in 0..tree.len() {
        if is_overfull(tree, at) {
            return true;
        }
    }
    false
}

/// Pages of entries, and of pointers.
fn meta_pages(tree: &[Entry], at: usize) -> u64
    requires order { IsInOrder tree.now }
    requires there { at < length tree.now }
    ensures pages { (d : List (List ℕ) × Node) → result ≡ meta_of_entry tree.now (slice_index_or tree.now at d) }
    ensures bound { result < 2 ^ 62 }
{
    let entries = entry_count(tree, at).div_ceil(64) as u64;
    entries + ranges(&tree[at].1)
}

/// In how many ranges of 256 pages, past the first 8 pages, a file holds a page; 0 for a directory.
pub(crate) fn ranges(node: &SharedNode) -> u64
    ensures pages { result ≡ ranges_of_node node.now }
    ensures bound { result < 2 ^ 32 }
{
    match node.content() {
        Some(content) => content.ranges() as u64,
        None => 0,
    }
}

/// Whether the tree takes more nodes than the limit.
pub(crate) fn exceeds_nodes(tree: &[Entry], limit: u32) -> bool
    ensures { result ≡ nat_lt limit (node_charge tree.now) }
{
    tree.len() > limit as usize
}

/// The metadata pages of a tree, if they are not beyond a limit.
pub(crate) fn meta_total(tree: &[Entry], limit: u32) -> Option<u64>
    requires { IsInOrder tree.now }
    ensures within { IfSome result (λ n. (n ≡ meta_charge tree.now) × (n ≤ limit)) }
    ensures beyond { IfNone result (limit < meta_charge tree.now) }
{
    let mut total = 0u64;
    'entries: for at in 0..tree.len() {
        total += meta_pages(tree, at);
        if total > limit as u64 {
            return None;
        }
    }
    Some(total)
}

fn data_pages(entry: &Entry) -> u64
    ensures pages { result ≡ data_of_entry entry.now }
    ensures bound { result < 2 ^ 63 }
{
    match entry.1.content() {
        Some(content) => content.page_count() as u64,
        None => 0,
    }
}

/// The data pages of a tree, if they are not beyond a limit.
pub(crate) fn data_total(tree: &[Entry], limit: u32) -> Option<u64>
    ensures within { IfSome result (λ n. (n ≡ data_charge tree.now) × (n ≤ limit)) }
    ensures beyond { IfNone result (limit < data_charge tree.now) }
{
    let mut total = 0u64;
    'entries: for entry in tree {
        total += data_pages(entry);
        if total > limit as u64 {
            return None;
        }
    }
    Some(total)
}
