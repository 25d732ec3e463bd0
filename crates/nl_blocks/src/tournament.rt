//! The least of many keys, found without a search of them all.
ghost use Rattle.std.specs.Prelude.{◌≡◌, ◌<◌, ◌≤◌, ◌+◌, ◌*◌, ◌^◌, length, replicate, IfOk, MatchOption, Some, None, slice_set};
ghost use Rattle.nl_blocks.specs.Tournament.{HasLeaves, HasSameLeaves, HasWinners, HasWinnersBut, IsFirstOfLeast, NonePresent, better, entrant_of, is_before};

use crate::Memory;
use std::alloc::Global;
use std::marker::Model;

/// One who takes part, with the key by which it is judged.
#[derive(Clone, Copy)]
struct Entrant {
    key: u32,
    place: u32,
}

/// Places, of which some have a key. They are the leaves of a tree in which a node has the better of the two below it, so that
/// the root has the least key, and a change goes up one path.
#[derive(Drop)]
pub struct Tournament {
    tree: Vec<Option<Entrant>>,
    count: usize,
}

impl Model for Tournament {
    ghost use Rattle.std.specs.Prelude.{List, Option, ℕ};

    ghost Value = { List (Option ℕ) };

    ghost use Rattle.nl_blocks.specs.Tournament.{IsTournament, keys_of};

    ghost view = { λ t. keys_of t.count t.tree.items };

    ghost invariant = { λ t. IsTournament t.tree.items t.count };
}

impl Tournament {
    /// So many places, none with a key.
    pub fn new(alloc: Global, count: u32) -> Result<Tournament, Memory>
        ensures { IfOk result (λ t. t ≡ replicate count None) }
    {
        let count = count as usize;
        let mut tree = Vec::with_capacity(alloc, 2 * count)?;
        'made: for _ in 0..2 * count {
            tree.push(None)?;
        }
        Ok(Tournament { tree, count })
    }

    /// Gives a place its key, or takes it away.
    pub fn set(&mut self, place: u32, key: Option<u32>)
        requires { place < length self.old }
        ensures { self.new ≡ slice_set self.old place key }
    {
        let leaf = self.count + place as usize;
        set_leaf(&mut self.tree, self.count, leaf, entrant_of(place, key));
    }

    /// The first place of those with the least key. None exactly where no place has one.
    pub fn least(&self) -> Option<u32>
        ensures { MatchOption result (NonePresent self.now) (λ i. IsFirstOfLeast self.now i) }
    {
        if self.count == 0 {
            return None;
        }
        match self.tree[1] {
            Some(first) => Some(first.place),
            None => None,
        }
    }
}

fn entrant_of(place: u32, key: Option<u32>) -> Option<Entrant>
    ensures { result ≡ entrant_of place key }
{
    match key {
        Some(key) => Some(Entrant { key, place }),
        None => None,
    }
}

/// Puts an entrant at a leaf, and mends the nodes above it.
fn set_leaf(tree: &mut Vec<Option<Entrant>>, count: usize, leaf: usize, entrant: Option<Entrant>)
    requires winners { HasWinners count tree.old.items }
    requires size { length tree.old.items ≡ 2 * count }
    requires few { count < 2 ^ 32 }
    requires is_leaf { count ≤ leaf }
    requires inside { leaf < 2 * count }
    ensures winners { HasWinners count tree.new.items }
    ensures leaves { HasSameLeaves count (slice_set tree.old.items leaf entrant) tree.new.items }
{
    tree[leaf] = entrant;
    climb(tree, count, leaf / 2);
}

/// Mends the nodes from one up to the root.
fn climb(tree: &mut Vec<Option<Entrant>>, count: usize, from: usize)
    requires winners { HasWinnersBut from count tree.old.items }
    requires size { length tree.old.items ≡ 2 * count }
    requires few { count < 2 ^ 32 }
    requires inner { from < count }
    ensures winners { HasWinners count tree.new.items }
    ensures leaves { HasSameLeaves count tree.old.items tree.new.items }
{
    let mut node = from;
    while node > 0 {
        let winner = better(tree[2 * node], tree[2 * node + 1]);
        tree[node] = winner;
        node /= 2;
    }
}

/// The one of two with the lesser key, of equals the one with the lesser place.
fn better(a: Option<Entrant>, b: Option<Entrant>) -> Option<Entrant>
    ensures { result ≡ better a b }
{
    let Some(x) = a else {
        return b;
    };
    let Some(y) = b else {
        return a;
    };
    if is_before(y, x) { b } else { a }
}

fn is_before(a: Entrant, b: Entrant) -> bool
    ensures { result ≡ is_before a b }
{
    a.key < b.key || (a.key == b.key && a.place < b.place)
}
