// The lists that a call of the store hands out.
ghost use Rattle.std.specs.Prelude.{◌≡◌, ◌<◌, ◌≤◌, ◌+◌, ◌^◌, [], ◌∷◌, ◌++◌, Some, length, slice_get, is_some, IsOk, OnOk, OnErr};
ghost use Rattle.std.specs.List.{list_any};

use nl_field::Memory;
use nl_tree::FaultReply;
use std::alloc::Global;
use std::marker::Model;

/// An answered line, with its fault reply where it had one.
#[derive(Clone, Copy, Debug, PartialEq, Eq)]
pub struct Ordered {
    pub line: u32,
    pub fault: Option<FaultReply>,
}

/// A sync that was answered ok: its line, how many calls it made durable, and the medium's clock then.
#[derive(Clone, Copy, Debug, PartialEq, Eq)]
pub struct Synced {
    pub line: u32,
    pub upto: u64,
    pub moment: u64,
}

/// The answered lines, in the order of their places.
#[derive(Debug, Drop)]
pub struct OrderList {
    items: Vec<Ordered>,
}

impl Model for OrderList {
    ghost use Rattle.std.specs.Prelude.{◌<◌, ◌-◌, ◌^◌, vec_len, vec_capacity};
    ghost use Rattle.nl_spec_headline.specs.declared.lists.Ordered.{Ordered};
    ghost use Rattle.nl_spec_headline.specs.Table.{Table};

    ghost Value = { Table Ordered };

    ghost view = { λ o. record { items = o.items.items; room = vec_capacity o.items - vec_len o.items } };

    ghost invariant = { λ o. vec_len o.items < 2 ^ 32 };
}

impl OrderList {
    /// No lines. It takes no memory.
    pub fn new(alloc: Global) -> Self
        ensures { result.items ≡ [] }
    {
        OrderList {
            items: Vec::new(alloc),
        }
    }

    /// Adds a line behind the others. `Memory` only where no room is left, and the list is as before then.
    pub fn push(&mut self, line: Ordered) -> Result<(), Memory>
        requires { length self.old.items + 1 < 2 ^ 32 }
        ensures ok { OnOk result (self.new.items ≡ self.old.items ++ line ∷ []) }
        ensures err { OnErr result (self.new.items ≡ self.old.items) }
        ensures succeeds { 0 < self.old.room → IsOk result }
        ensures room { self.old.room ≤ self.new.room + 1 }
    {
        self.items.push(line)?;
        Ok(())
    }

    /// Makes room: afterwards so many pushes succeed.
    pub fn reserve(&mut self, more: u32) -> Result<(), Memory>
        ensures items { self.new.items ≡ self.old.items }
        ensures room { OnOk result (more ≤ self.new.room) }
        ensures err { OnErr result (self.old.room ≤ self.new.room) }
    {
        self.items.reserve(more as usize)
    }

    /// How many lines the list has.
    pub fn len(&self) -> u32
        ensures { result ≡ length self.now.items }
    {
        self.items.len() as u32
    }

    /// Whether some line was answered by a fault reply.
    pub fn has_fault(&self) -> bool
        ensures { result ≡ list_any (λ o. is_some o.fault) self.now.items }
    {
        self.items.iter().any(|line| line.fault.is_some())
    }

    /// The line at a place below the length.
    pub fn get(&self, at: u32) -> &Ordered
        requires { at < length self.now.items }
        ensures { slice_get self.now.items at ≡ Some result.now }
    {
        &self.items[at as usize]
    }
}

/// The syncs that were answered ok, in the order of their places.
#[derive(Debug, Drop)]
pub struct SyncList {
    items: Vec<Synced>,
}

impl Model for SyncList {
    ghost use Rattle.std.specs.Prelude.{◌<◌, ◌-◌, ◌^◌, vec_len, vec_capacity};
    ghost use Rattle.nl_spec_headline.specs.declared.lists.Synced.{Synced};
    ghost use Rattle.nl_spec_headline.specs.Table.{Table};

    ghost Value = { Table Synced };

    ghost view = { λ s. record { items = s.items.items; room = vec_capacity s.items - vec_len s.items } };

    ghost invariant = { λ s. vec_len s.items < 2 ^ 32 };
}

impl SyncList {
    /// No syncs. It takes no memory.
    pub fn new(alloc: Global) -> Self
        ensures { result.items ≡ [] }
    {
        SyncList {
            items: Vec::new(alloc),
        }
    }

    /// Adds a sync behind the others. `Memory` only where no room is left, and the list is as before then.
    pub fn push(&mut self, sync: Synced) -> Result<(), Memory>
        requires { length self.old.items + 1 < 2 ^ 32 }
        ensures ok { OnOk result (self.new.items ≡ self.old.items ++ sync ∷ []) }
        ensures err { OnErr result (self.new.items ≡ self.old.items) }
        ensures succeeds { 0 < self.old.room → IsOk result }
        ensures room { self.old.room ≤ self.new.room + 1 }
    {
        self.items.push(sync)?;
        Ok(())
    }

    /// Makes room: afterwards so many pushes succeed.
    pub fn reserve(&mut self, more: u32) -> Result<(), Memory>
        ensures items { self.new.items ≡ self.old.items }
        ensures room { OnOk result (more ≤ self.new.room) }
        ensures err { OnErr result (self.old.room ≤ self.new.room) }
    {
        self.items.reserve(more as usize)
    }

    /// How many syncs the list has.
    pub fn len(&self) -> u32
        ensures { result ≡ length self.now.items }
    {
        self.items.len() as u32
    }

    /// The sync at a place below the length.
    pub fn get(&self, at: u32) -> &Synced
        requires { at < length self.now.items }
        ensures { slice_get self.now.items at ≡ Some result.now }
    {
        &self.items[at as usize]
    }
}
