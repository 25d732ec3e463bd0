//! A set of free numbers below a count, as a tree of marks in which the least free one is found on the way down.
ghost use Rattle.std.specs.Prelude.{◌≡◌, ◌<◌, ◌≤◌, ◌+◌, ◌*◌, ◌/◌, ◌^◌, ◌||◌, ℕ, IfOk, MatchOption, true, false, length, slice_index_or, slice_set};
ghost use Rattle.nl_inode.specs.Free.{Becomes, IsLeastFreeNumber, NoneFree, count_free, is_free};
ghost use Rattle.nl_inode.specs.Tree.{IsFirstIn, MarksBelow, MarksBelowBut, SameLeaves, mark_at};

use nl_field::Memory;
use std::alloc::Global;
use std::marker::Model;

/// Numbers below a count, some of which are free. They are the leaves of a tree in which a node is set where one below it is, so
/// that the least free one is found on the way down, and a change goes up to the root.
#[derive(Drop)]
pub(crate) struct FreeSet {
    tree: Vec<bool>,
    width: usize,
    height: u32,
    count: usize,
}

impl Model for FreeSet {
    ghost use Rattle.std.specs.Prelude.{List, Bool, drop, take};
    ghost use Rattle.nl_inode.specs.Tree.{IsFreeBitTree};

    ghost Value = { List Bool };

    ghost view = { λ s. take s.count (drop s.width s.tree.items) };

    ghost invariant = { λ s. IsFreeBitTree s.tree.items s.width s.height s.count };
}

impl FreeSet {
    /// All numbers below the count, each of which is free.
    pub(crate) fn new(alloc: Global, count: u32) -> Result<FreeSet, Memory>
        ensures count { IfOk result (λ s. length s ≡ count) }
        ensures free { IfOk result (λ s. (k : ℕ) → k < count → is_free s k ≡ true) }
    {
        let mut free = FreeSet::none(alloc, count)?;
        for k in 0..count {
            free.put(k, true);
        }
        Ok(free)
    }

    // All numbers below the count, none of which is free.
    fn none(alloc: Global, count: u32) -> Result<FreeSet, Memory>
        ensures count { IfOk result (λ s. length s ≡ count) }
    {
        let mut width = 1usize;
        let mut height = 0u32;
        while width < count as usize {
            width *= 2;
            height += 1;
        }
        let tree = vec![in alloc; false; 2 * width]?;
        Ok(FreeSet {
            tree,
            width,
            height,
            count: count as usize,
        })
    }

    /// Takes the least free number. None exactly where none is free.
    pub(crate) fn take(&mut self) -> Option<u32>
        ensures least { MatchOption result (NoneFree self.old) (λ k. IsLeastFreeNumber k self.old) }
        ensures taken { MatchOption result (self.new ≡ self.old) (λ k. Becomes k false self.old self.new) }
    {
        match self.least() {
            Some(k) => {
                self.put(k, false);
                Some(k)
            }
            None => None,
        }
    }

    // The least free number.
    fn least(&self) -> Option<u32>
        ensures least { MatchOption result (NoneFree self.now) (λ k. IsLeastFreeNumber k self.now) }
        ensures below { MatchOption result (NoneFree self.now) (λ k. k < length self.now) }
    {
        if self.tree[1] {
            Some((first_below(&self.tree, 1, self.height) - self.width) as u32)
        } else {
            None
        }
    }

    /// How many numbers are free.
    pub(crate) fn free(&self) -> u32
        ensures { result ≡ count_free self.now }
    {
        let leaves = &self.tree[self.width..self.width + self.count];
        let mut free = 0;
        for leaf in leaves {
            if *leaf {
                free += 1;
            }
        }
        free
    }

    /// A number is free from now on, or not.
    pub(crate) fn put(&mut self, k: u32, free: bool)
        requires { k < length self.old }
        ensures { Becomes k free self.old self.new }
    {
        let leaf = self.width + k as usize;
        set_leaf(&mut self.tree, leaf, free);
    }
}

// The first leaf that is set below a node which is set, so many rows above the leaves.
fn first_below(tree: &[bool], node: usize, height: u32) -> usize
    requires marks { MarksBelow tree.now }
    requires set { mark_at tree.now node ≡ true }
    requires low { 1 ≤ node }
    requires inside { (node + 1) * 2 ^ height ≤ length tree.now }
    ensures { IsFirstIn tree.now (node * 2 ^ height) (2 ^ height) result }
{
    if height == 0 {
        return node;
    }
    let left = 2 * node;
    if tree[left] {
        first_below(tree, left, height - 1)
    } else {
        first_below(tree, left + 1, height - 1)
    }
}

// Sets or clears a leaf, and with it the nodes above.
fn set_leaf(tree: &mut Vec<bool>, leaf: usize, to: bool)
    requires marks { MarksBelow tree.old.items }
    requires inside { leaf < length tree.old.items }
    requires is_leaf { length tree.old.items ≤ 2 * leaf }
    requires paired { 2 * (leaf / 2) + 1 < length tree.old.items }
    ensures marks { MarksBelow tree.new.items }
    ensures leaves { SameLeaves (slice_set tree.old.items leaf to) tree.new.items }
{
    tree[leaf] = to;
    climb(tree, leaf / 2);
}

// Sets each node from one up to the root where one below it is set.
fn climb(tree: &mut Vec<bool>, from: usize)
    requires marks { MarksBelowBut from tree.old.items }
    requires inside { 2 * from + 1 < length tree.old.items }
    ensures marks { MarksBelow tree.new.items }
    ensures leaves { SameLeaves tree.old.items tree.new.items }
{
    let mut node = from;
    while node > 0 {
        let is_set = either(tree, node);
        tree[node] = is_set;
        node /= 2;
    }
}

// Whether one of the two below a node is set.
fn either(tree: &[bool], node: usize) -> bool
    requires { 2 * node + 1 < length tree.now }
    ensures { result ≡ (mark_at tree.now (2 * node) || mark_at tree.now (2 * node + 1)) }
{
    tree[2 * node] || tree[2 * node + 1]
}
