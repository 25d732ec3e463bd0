// Old names of pages that had to move: which pages they lead to, and how many stand in each block.
ghost use Rattle.std.specs.Prelude.{◌≡◌, ◌⊎◌, ℕ, ◌+◌, ◌-◌, ◌/◌, ◌^◌, ◌<◌, ◌≤◌, ◌↔◌, ◌==◌, if◌then◌else◌, cond, [], length, map, insert, remove, slice_set, slice_index_or, IsTrue, IfOk, IfSome, IfNone};
ghost use Rattle.std.specs.Bool.{OnTrue, OnFalse};
ghost use Rattle.nl_remap.specs.Links.{HasLink};
ghost use Rattle.nl_remap.specs.Table.{IsOld, IsRemap, beside, led, led_on, pair, place_of};
ghost use Rattle.nl_pseg_names.specs.OldNames.{IsNameTable, names_among};

use nl_field::Memory;
use nl_remap::Remap;
use std::alloc::Global;
use std::marker::Model;

/// The pairs of an old name and the page to which it leads, and how many old names stand in each block.
#[derive(Drop)]
pub struct OldNames {
    remap: Remap,
    /// How many old names stand in each block of the medium.
    counts: Vec<u32>,
    size: u32,
    /// How many pairs there may be.
    limit: u32,
}

impl Model for OldNames {
    ghost use Rattle.std.specs.Prelude.{length};
    ghost use Rattle.nl_pseg_names.specs.OldNames.{NameTable, AreKeptNames};

    ghost Value = { NameTable };

    ghost view = { λ n. record { pairs = n.remap.pairs; room = n.remap.room; size = n.size; blocks = length n.counts.items } };

    ghost invariant = { λ n. AreKeptNames n.size n.remap.room n.limit n.remap.pairs n.counts.items };
}

impl OldNames {
    /// No pair, with room for so many, on a medium of so many blocks of `size` pages.
    pub fn new(alloc: Global, room: u32, size: u32, blocks: u32) -> Result<OldNames, Memory>
        requires some { 0 < size }
        ensures { IfOk result (λ n. n ≡ record { pairs = []; room = room; size = size; blocks = blocks }) }
    {
        let remap = Remap::new(alloc, room)?;
        let counts = vec![in alloc; 0; blocks as usize]?;
        Ok(OldNames {
            remap,
            counts,
            size,
            limit: room,
        })
    }

    /// The page to which the name leads.
    pub fn resolve(&self, name: u32) -> u32
        ensures { result ≡ led self.now.pairs name }
    {
        let _ = self.size;
        self.remap.resolve(name)
    }

    /// The least old name of the page.
    pub fn name_of(&self, target: u32) -> Option<u32>
        ensures some { IfSome result (λ name. HasLink self.now.pairs (pair name target)) }
        ensures none { IfNone result ((name : ℕ) → HasLink self.now.pairs (pair name target) → ⊥) }
        ensures beside { IfNone result (beside self.now.pairs target ≡ self.now.pairs) }
    {
        let _ = self.size;
        self.remap.name_of(target)
    }

    /// The number of pairs.
    pub fn len(&self) -> u32
        ensures value { result ≡ length self.now.pairs }
        ensures table { IsNameTable self.now }
    {
        let _ = self.limit;
        self.remap.len()
    }

    /// How many old names stand in the block.
    pub fn count(&self, block: u32) -> u32
        requires within { block < self.now.blocks }
        ensures { result ≡ names_among self.now.size block self.now.pairs }
    {
        self.counts[block as usize]
    }

    /// Adds a pair: the page of that name has moved. Each name that led to `old` leads to `new`.
    pub fn add(&mut self, old: u32, new: u32)
        requires room { 0 < self.old.room }
        requires fresh { IsOld self.old.pairs old → ⊥ }
        requires free { IsOld self.old.pairs new → ⊥ }
        requires other { old ≡ new → ⊥ }
        ensures added { let pairs = map (led_on old new) self.old.pairs in self.new
            ≡ record self.old { pairs = insert pairs (place_of pairs old) (pair old new); room = self.old.room - 1 } }
        ensures table { IsRemap self.new.pairs }
        ensures ways { (name : ℕ) → led self.new.pairs name ≡ (if led self.old.pairs name == old then new else led self.old.pairs name) }
    {
        self.remap.add(old, new);
        add_one(&mut self.counts, old / self.size);
    }

    /// Takes the pair of this old name away. False exactly where there is none.
    pub fn drop_name(&mut self, name: u32) -> bool
        ensures found { IsTrue result ↔ IsOld self.old.pairs name }
        ensures dropped { OnTrue result
            (self.new ≡ record self.old { pairs = remove self.old.pairs (place_of self.old.pairs name); room = self.old.room + 1 }) }
        ensures kept { OnFalse result (self.new ≡ self.old) }
        ensures table { IsRemap self.new.pairs }
        ensures ways { OnTrue result ((other : ℕ) → led self.new.pairs other ≡ (if other == name then name else led self.old.pairs other)) }
        ensures beside { OnTrue result
            (let target = led self.old.pairs name in beside self.new.pairs target ≡ beside self.old.pairs target) }
    {
        if !self.remap.drop_name(name) {
            return false;
        }
        take_one(&mut self.counts, name / self.size);
        true
    }
}

/// Adds 1 to the count at an index of the list, where there is one.
fn add_one(counts: &mut Vec<u32>, at: u32)
    requires { slice_index_or counts.old.items at 0 + 1 < 2 ^ 32 }
    ensures size { length counts.new.items ≡ length counts.old.items }
    ensures each { (i : ℕ) → i < length counts.old.items
        → slice_index_or counts.new.items i 0 ≡ slice_index_or counts.old.items i 0 + cond (at == i) 1 0 }
{
    if (at as usize) < counts.len() {
        counts[at as usize] += 1;
    }
}

/// Takes 1 off the count at an index of the list, where there is one.
fn take_one(counts: &mut Vec<u32>, at: u32)
    requires { at < length counts.old.items → 0 < slice_index_or counts.old.items at 0 }
    ensures size { length counts.new.items ≡ length counts.old.items }
    ensures each { (i : ℕ) → i < length counts.old.items
        → slice_index_or counts.new.items i 0 + cond (at == i) 1 0 ≡ slice_index_or counts.old.items i 0 }
{
    if (at as usize) < counts.len() {
        counts[at as usize] -= 1;
    }
}
