//! Many entries put into a tree at once.
ghost use Rattle.std.specs.Prelude.{◌≡◌, ◌<◌, ◌≤◌, length, drop, IfOk};
ghost use Rattle.std.specs.Ordering.{is_lt};
ghost use Rattle.nl_tree.specs.Tree.{path_cmp, with_all};
ghost use Rattle.nl_tree.specs.TreeLaws.{IsInOrder};
ghost use Rattle.nl_tree_entries.specs.Entries.{behind_first};

use crate::entries::{Entry, is_at, place_of, push, push_all};
use crate::names::compare;
use nl_field::Memory;
use nl_tree_content::SharedPath;
use std::alloc::Global;
use std::cmp::Ordering;

/// The tree with these entries put into it, in one pass over it where their paths rise.
pub(crate) fn put_all(
    alloc: Global,
    tree: Vec<Entry>,
    entries: &[Entry],
) -> Result<Vec<Entry>, Memory>
    ensures { IfOk result (λ v. v.items ≡ with_all tree.items entries.now) }
{
    let mut tree = tree;
    let mut rest = entries;
    'runs: while !rest.is_empty() {
        let start = last_rise(rest);
        tree = merged(alloc, &tree, from(rest, start))?;
        rest = &rest[..start];
    }
    Ok(tree)
}

/// Where the last entries whose paths rise begin.
fn last_rise(entries: &[Entry]) -> usize
    requires { 0 < length entries.now }
    ensures within { result < length entries.now }
    ensures rises { IsInOrder (drop result entries.now) }
{
    let mut start = entries.len() - 1;
    'entries: while start > 0 && is_before(&entries[start - 1], &entries[start]) {
        start -= 1;
    }
    start
}

fn is_before(a: &Entry, b: &Entry) -> bool
    ensures { result ≡ is_lt (path_cmp a.now.0 b.now.0) }
{
    compare(a.0.names(), b.0.names()) == Ordering::Less
}

/// The tree with entries put into it whose paths rise.
fn merged(alloc: Global, tree: &[Entry], entries: &[Entry]) -> Result<Vec<Entry>, Memory>
    requires { IsInOrder entries.now }
    ensures { IfOk result (λ v. v.items ≡ with_all tree.now entries.now) }
{
    let mut put = Vec::new(alloc);
    let mut rest = tree;
    'entries: for entry in entries {
        let place = place_of(rest, &entry.0);
        push_all(&mut put, &rest[..place])?;
        push(&mut put, entry)?;
        rest = without_first(from(rest, place), &entry.0);
    }
    push_all(&mut put, rest)?;
    Ok(put)
}

/// The entries from a position on.
fn from(entries: &[Entry], at: usize) -> &[Entry]
    requires { at ≤ length entries.now }
    ensures { result.now ≡ drop at entries.now }
{
    &entries[at..]
}

/// The entries behind the first one, where that is at the path, and else all.
fn without_first<'a>(entries: &'a [Entry], path: &SharedPath) -> &'a [Entry]
    ensures { result.now ≡ behind_first path_cmp path.now entries.now }
{
    if is_at(entries, 0, path) {
        &entries[1..]
    } else {
        entries
    }
}
