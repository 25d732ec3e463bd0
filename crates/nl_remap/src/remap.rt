// The table of pages that had to move, with its lists by old name and by target.
ghost use Rattle.std.specs.Prelude.{◌≡◌, ℕ, ◌+◌, ◌-◌, ◌<◌, ◌≤◌, ◌↔◌, ◌==◌, if◌then◌else◌, [], length, map, insert, remove, slice_set, IsTrue, IfOk, IfSome, IfNone};
ghost use Rattle.std.specs.Bool.{OnTrue, OnFalse};
ghost use Rattle.nl_remap.specs.Links.{HasLink, link_at};
ghost use Rattle.nl_remap.specs.Table.{IsOld, IsRemap, beside, led, led_on, pair, place_of};

use crate::Memory;
use crate::links::{Link, place};
use crate::pairs::{lead_pair, put_pair, take_pair};
use std::alloc::Global;
use std::marker::Model;

/// The table of pages that had to move: pairs of an old name, which pointers may still have, and its target, where
/// the page is now. Old names differ, and no target is an old name: one pair leads to the place. No call but `new`
/// takes memory, and each finds its pairs by halving.
#[derive(Drop)]
pub struct Remap {
    room: u32,
    by_old: Vec<Link>,
    by_target: Vec<Link>,
}

impl Model for Remap {
    ghost use Rattle.std.specs.Prelude.{◌-◌, ◌≤◌, length, vec_capacity};
    ghost use Rattle.nl_remap.specs.Table.{RemapTable, IsPaired};

    ghost Value = { RemapTable };

    ghost view = { λ r. record { pairs = r.by_old.items; room = r.room - length r.by_old.items } };

    ghost invariant = { λ r. (IsPaired r.by_old.items r.by_target.items) × (length r.by_old.items ≤ r.room)
        × (r.room ≤ vec_capacity r.by_old) × (r.room ≤ vec_capacity r.by_target) };
}

impl Remap {
    /// No pair, with room for so many.
    pub fn new(alloc: Global, room: u32) -> Result<Remap, Memory>
        ensures empty { IfOk result (λ r. r ≡ record { pairs = []; room = room }) }
        ensures table { IfOk result (λ r. IsRemap r.pairs) }
    {
        let by_old = Vec::with_capacity(alloc, room as usize)?;
        let by_target = Vec::with_capacity(alloc, room as usize)?;
        Ok(Remap {
            room,
            by_old,
            by_target,
        })
    }

    /// For how many more pairs there is room.
    pub fn room(&self) -> u32
        ensures value { result ≡ self.now.room }
        ensures table { IsRemap self.now.pairs }
    {
        self.room - self.by_old.len() as u32
    }

    /// The number of pairs.
    pub fn len(&self) -> u32
        ensures { result ≡ length self.now.pairs }
    {
        let _room = self.room;
        self.by_old.len() as u32
    }

    /// The place to which the name leads: the target of the pair of that old name, else the name itself.
    pub fn resolve(&self, name: u32) -> u32
        ensures value { result ≡ led self.now.pairs name }
        ensures moved { IsOld self.now.pairs name → HasLink self.now.pairs (pair name result) }
        ensures away { IsOld self.now.pairs name → result ≡ name → ⊥ }
        ensures own { (IsOld self.now.pairs name → ⊥) → result ≡ name }
    {
        let at = place(&self.by_old, name, 0);
        if at == self.by_old.len() {
            return name;
        }
        let pair = self.by_old[at];
        if pair.from == name { pair.to } else { name }
    }

    /// The least old name whose pair has that target. None exactly where no pair has it.
    pub fn name_of(&self, target: u32) -> Option<u32>
        ensures some { IfSome result (λ name. HasLink self.now.pairs (pair name target)) }
        ensures least { IfSome result (λ name. (other : ℕ) → HasLink self.now.pairs (pair other target) → name ≤ other) }
        ensures none { IfNone result ((name : ℕ) → HasLink self.now.pairs (pair name target) → ⊥) }
        ensures beside { IfNone result (beside self.now.pairs target ≡ self.now.pairs) }
    {
        let at = place(&self.by_target, target, 0);
        if at == self.by_target.len() {
            return None;
        }
        let link = self.by_target[at];
        if link.from == target {
            Some(link.to)
        } else {
            None
        }
    }

    /// Leads the pair of `name`, whose target is `old`, on to `new`.
    fn lead_on(&mut self, name: u32, old: u32, new: u32)
        requires has { HasLink self.old.pairs (pair name old) }
        requires free { IsOld self.old.pairs new → ⊥ }
        requires other { old ≡ new → ⊥ }
        ensures place { let at = place_of self.old.pairs name in at < length self.old.pairs }
        ensures pair { let at = place_of self.old.pairs name in link_at self.old.pairs at ≡ pair name old }
        ensures led { let at = place_of self.old.pairs name in self.new
            ≡ record { pairs = slice_set self.old.pairs at (pair name new); room = self.old.room } }
    {
        let at = place(&self.by_old, name, 0);
        lead_pair(&mut self.by_old, &mut self.by_target, at, new);
    }

    /// Adds a pair, where no pair has `old` as its target.
    fn put(&mut self, old: u32, new: u32)
        requires room { 0 < self.old.room }
        requires fresh { IsOld self.old.pairs old → ⊥ }
        requires free { IsOld self.old.pairs new → ⊥ }
        requires other { old ≡ new → ⊥ }
        requires led { (name : ℕ) → HasLink self.old.pairs (pair name old) → ⊥ }
        ensures table { IsRemap self.new.pairs }
        ensures put { self.new ≡ record {
          pairs = insert self.old.pairs (place_of self.old.pairs old) (pair old new);
          room = self.old.room - 1;
        } }
    {
        put_pair(&mut self.by_old, &mut self.by_target, old, new);
    }

    /// Adds the pair of `old` and `new`: the page of that name has moved. Each pair whose target was `old` gets the
    /// target `new`.
    pub fn add(&mut self, old: u32, new: u32)
        requires room { 0 < self.old.room }
        requires fresh { IsOld self.old.pairs old → ⊥ }
        requires free { IsOld self.old.pairs new → ⊥ }
        requires other { old ≡ new → ⊥ }
        ensures added { let pairs = map (led_on old new) self.old.pairs in self.new
            ≡ record { pairs = insert pairs (place_of pairs old) (pair old new); room = self.old.room - 1 } }
        ensures table { IsRemap self.new.pairs }
        ensures ways { (name : ℕ) → led self.new.pairs name ≡ (if led self.old.pairs name == old then new else led self.old.pairs name) }
    {
        let _ = self.room();
        while let Some(name) = self.name_of(old) {
            self.lead_on(name, old, new);
        }
        self.put(old, new);
    }

    /// Takes the pair of this old name away. False exactly where there is none.
    pub fn drop_name(&mut self, name: u32) -> bool
        ensures found { IsTrue result ↔ IsOld self.old.pairs name }
        ensures dropped { OnTrue result
            (self.new ≡ record { pairs = remove self.old.pairs (place_of self.old.pairs name); room = self.old.room + 1 }) }
        ensures kept { OnFalse result (self.new ≡ self.old) }
        ensures table { IsRemap self.new.pairs }
        ensures ways { OnTrue result ((other : ℕ) → led self.new.pairs other ≡ (if other == name then name else led self.old.pairs other)) }
        ensures beside { OnTrue result
            (let target = led self.old.pairs name in beside self.new.pairs target ≡ beside self.old.pairs target) }
    {
        let at = place(&self.by_old, name, 0);
        if at == self.by_old.len() || self.by_old[at].from != name {
            return false;
        }
        take_pair(&mut self.by_old, &mut self.by_target, at);
        true
    }
}
