// The table of pending callbacks.
ghost use Rattle.std.specs.Prelude.{◌≡◌, ℕ, ◌+◌, ◌-◌, ◌^◌, ◌<◌, ◌≤◌, ◌↔◌, ◌∷◌, ◌++◌, [], length, insert, min, slice_set, IsTrue, IfOk, IfSome, IfNone, Some};
ghost use Rattle.std.specs.Bool.{OnTrue, OnFalse};
ghost use Rattle.nl_callbacks.specs.Lists.{Rises};
ghost use Rattle.nl_callbacks.specs.Pending.{AcknowledgesName, Cancels, HasCallback, IsLeastFree, IsName, IsPending, ArePendingEntries, IsWaiting, beside_name, beside_stamp, callback_of, entry_at, with_transaction, new_entry, no_entry, number_of, place_of, unacknowledged};

use crate::entry::{Entry, entry_place};
use crate::links::{Link, place};
use crate::stamped::{add_stamped, drop_stamped, mark_stamped};
use nl_field::{Memory, Tag};
use nl_iface::Callback;
use std::alloc::Global;
use std::marker::Model;

/// The pending callbacks, each with the transaction that handled it, if one did. No call but `new` takes memory, and
/// each finds its callback by halving.
#[derive(Drop)]
pub struct Pending {
    room: u32,
    posted: u64,
    entries: Vec<Entry>,
    /// The callbacks by old name.
    names: Vec<Link>,
    /// The callbacks that were not handled, by number; each key is 0.
    waiting: Vec<Link>,
    /// The callbacks that were handled, by transaction.
    done: Vec<Link>,
    /// By the stamp of the page that moved.
    stamps: Vec<Link>,
}

impl Model for Pending {
    ghost use Rattle.std.specs.Prelude.{◌-◌, length, vec_capacity};
    ghost use Rattle.nl_callbacks.specs.Pending.{PendingTable};
    ghost use Rattle.nl_callbacks.specs.Kept.{IsInside};

    ghost Value = { PendingTable };

    ghost view = { λ p. record { callbacks = p.entries.items; posted = p.posted; room = p.room - length p.entries.items } };

    ghost invariant = { λ p. IsInside p.room p.posted p.entries.items p.names.items p.waiting.items p.done.items p.stamps.items
        (vec_capacity p.entries) (vec_capacity p.names) (vec_capacity p.waiting) (vec_capacity p.done) (vec_capacity p.stamps) };
}

fn least_free(entries: &Vec<Entry>) -> u64
    requires rising { Rises number_of no_entry entries.now.items }
    requires some { (i : ℕ) → i < length entries.now.items → 0 < number_of (entry_at entries.now.items i) }
    requires few { length entries.now.items < 2 ^ 32 }
    ensures { IsLeastFree entries.now.items result }
{
    for at in 0..entries.len() {
        if entries[at].callback.number != at as u64 + 1 {
            return at as u64 + 1;
        }
    }
    entries.len() as u64 + 1
}

impl Pending {
    /// No callback, with room for so many.
    pub fn new(alloc: Global, room: u32) -> Result<Pending, Memory>
        ensures empty { IfOk result (λ p. p ≡ record { callbacks = []; posted = 0; room = room }) }
        ensures table { IfOk result (λ p. ArePendingEntries p.callbacks p.posted) }
    {
        let entries = Vec::with_capacity(alloc, room as usize)?;
        let names = Vec::with_capacity(alloc, room as usize)?;
        let waiting = Vec::with_capacity(alloc, room as usize)?;
        let done = Vec::with_capacity(alloc, room as usize)?;
        let stamps = Vec::with_capacity(alloc, room as usize)?;
        Ok(Pending {
            room,
            posted: 0,
            entries,
            names,
            waiting,
            done,
            stamps,
        })
    }

    /// For how many more callbacks there is room.
    pub fn room(&self) -> u32
        ensures value { result ≡ self.now.room }
        ensures table { ArePendingEntries self.now.callbacks self.now.posted }
    {
        self.room - self.entries.len() as u32
    }

    /// The last number that was given, 0 where there is none. It stands at 2^64 - 1.
    pub fn posted(&self) -> u64
        ensures { result ≡ self.now.posted }
    {
        self.posted
    }

    fn next_number(&self) -> u64
        ensures next { self.now.posted + 1 < 2 ^ 64 → result ≡ self.now.posted + 1 }
        ensures reused { 2 ^ 64 ≤ self.now.posted + 1 → IsLeastFree self.now.callbacks result }
        ensures some { 0 < result }
        ensures fresh { IsPending self.now.callbacks result → ⊥ }
    {
        let _room = self.room;
        if self.posted < u64::MAX {
            return self.posted + 1;
        }
        least_free(&self.entries)
    }

    /// Posts a callback and gives it a number: 1, 2, and so on. Once 2^64 - 1 was given, it gets the least number
    /// that no pending callback has.
    pub fn post(&mut self, old: u32, new: u32, tag: Tag, stamp: u64) -> u64
        requires { 0 < self.old.room }
        ensures next { self.old.posted + 1 < 2 ^ 64 → result ≡ self.old.posted + 1 }
        ensures reused { 2 ^ 64 ≤ self.old.posted + 1 → IsLeastFree self.old.callbacks result }
        ensures fresh { IsPending self.old.callbacks result → ⊥ }
        ensures table { ArePendingEntries self.new.callbacks self.new.posted }
        ensures appends { self.old.posted + 1 < 2 ^ 64
            → self.new.callbacks ≡ self.old.callbacks ++ new_entry (callback_of result old new tag stamp) ∷ [] }
        ensures posted { self.new ≡ record {
          callbacks = insert self.old.callbacks (place_of self.old.callbacks result) (new_entry (callback_of result old new tag stamp));
          posted = min (self.old.posted + 1) (2 ^ 64 - 1);
          room = self.old.room - 1;
        } }
    {
        let number = self.next_number();
        let callback = Callback {
            number,
            before: old,
            after: new,
            tag,
            stamp,
        };
        add_stamped(
            &mut self.entries,
            &mut self.names,
            &mut self.waiting,
            &self.done,
            &mut self.stamps,
            callback,
        );
        self.posted = self.posted.saturating_add(1);
        number
    }

    /// The callback of this number. None exactly where that number is not pending.
    pub fn get(&self, number: u64) -> Option<Callback>
        ensures some { IfSome result (HasCallback self.now.callbacks) }
        ensures number { IfSome result (λ callback. callback.number ≡ number) }
        ensures none { IfNone result (IsPending self.now.callbacks number → ⊥) }
    {
        let at = entry_place(&self.entries, number);
        if at == self.entries.len() {
            return None;
        }
        let callback = self.entries[at].callback;
        if callback.number == number {
            Some(callback)
        } else {
            None
        }
    }

    /// The callback of a page with this stamp, of several the one of the least number. None exactly where there is none.
    pub fn of_stamp(&self, stamp: u64) -> Option<Callback>
        ensures some { IfSome result (HasCallback self.now.callbacks) }
        ensures stamp { IfSome result (λ callback. callback.stamp ≡ stamp) }
        ensures least { IfSome result
            (λ callback. (i : ℕ) → i < length self.now.callbacks → (entry_at self.now.callbacks i).callback.stamp ≡ stamp
            → callback.number ≤ number_of (entry_at self.now.callbacks i)) }
        ensures none { IfNone result (beside_stamp self.now.callbacks stamp ≡ self.now.callbacks) }
    {
        let here = place(&self.stamps, stamp, 0);
        if here == self.stamps.len() {
            return None;
        }
        let link = self.stamps[here];
        if link.key != stamp {
            return None;
        }
        let at = entry_place(&self.entries, link.number);
        Some(self.entries[at].callback)
    }

    /// The least number of a callback that was not handled. None exactly where none is unhandled.
    pub fn least(&self) -> Option<u64>
        ensures some { IfSome result (IsWaiting self.now.callbacks) }
        ensures least { IfSome result (λ number. (other : ℕ) → IsWaiting self.now.callbacks other → number ≤ other) }
        ensures none { IfNone result ((number : ℕ) → IsWaiting self.now.callbacks number → ⊥) }
    {
        let _room = self.room;
        if self.waiting.len() == 0 {
            return None;
        }
        let link = self.waiting[0];
        Some(link.number)
    }

    /// Notes that this transaction has handled the callback of this number; one that was handled before keeps the
    /// earlier transaction. False exactly where the number is not pending.
    pub fn handled(&mut self, number: u64, transaction: u64) -> bool
        ensures found { IsTrue result ↔ IsPending self.old.callbacks number }
        ensures handled { OnTrue result
            (let at = place_of self.old.callbacks number in self.new
            ≡ record {
              callbacks = slice_set self.old.callbacks at (with_transaction (entry_at self.old.callbacks at) transaction);
              posted = self.old.posted;
              room = self.old.room;
            }) }
        ensures kept { OnFalse result (self.new ≡ self.old) }
        ensures table { ArePendingEntries self.new.callbacks self.new.posted }
    {
        let at = entry_place(&self.entries, number);
        if at == self.entries.len() {
            return false;
        }
        let entry = self.entries[at];
        if entry.callback.number != number {
            return false;
        }
        match entry.transaction {
            None => {
                mark_stamped(
                    &mut self.entries,
                    &self.names,
                    &mut self.waiting,
                    &mut self.done,
                    &self.stamps,
                    at,
                    transaction,
                );
                true
            }
            Some(_) => true,
        }
    }

    /// Takes away the callback that was handled by the earliest transaction, if that is at most `upto`, of equals the
    /// one of the least number, and gives its old name. None exactly where none was handled by a transaction up to
    /// `upto`.
    pub fn acknowledge_next(&mut self, upto: u64) -> Option<u32>
        ensures some { IfSome result (AcknowledgesName self.old self.new upto) }
        ensures none { IfNone result
            ((i transaction : ℕ) → i < length self.old.callbacks → (entry_at self.old.callbacks i).transaction ≡ Some transaction
            → upto < transaction) }
        ensures kept { IfNone result (self.new ≡ self.old) }
        ensures over { unacknowledged upto self.new.callbacks ≡ unacknowledged upto self.old.callbacks }
        ensures all { IfNone result (unacknowledged upto self.new.callbacks ≡ self.new.callbacks) }
        ensures table { ArePendingEntries self.new.callbacks self.new.posted }
    {
        if self.done.len() == 0 {
            return None;
        }
        let link = self.done[0];
        if link.key > upto {
            return None;
        }
        let at = entry_place(&self.entries, link.number);
        let name = self.entries[at].callback.before;
        drop_stamped(
            &mut self.entries,
            &mut self.names,
            &mut self.waiting,
            &mut self.done,
            &mut self.stamps,
            at,
        );
        Some(name)
    }

    /// Takes away the callback of this old name, of several the one of the least number. False exactly where none
    /// has that old name.
    pub fn cancel(&mut self, name: u32) -> bool
        ensures found { IsTrue result ↔ IsName self.old.callbacks name }
        ensures cancelled { OnTrue result (Cancels self.old self.new name) }
        ensures kept { OnFalse result (self.new ≡ self.old) }
        ensures beside { beside_name self.new.callbacks name ≡ beside_name self.old.callbacks name }
        ensures all { OnFalse result (beside_name self.new.callbacks name ≡ self.new.callbacks) }
        ensures table { ArePendingEntries self.new.callbacks self.new.posted }
    {
        let here = place(&self.names, name as u64, 0);
        if here == self.names.len() {
            return false;
        }
        let link = self.names[here];
        if link.key != name as u64 {
            return false;
        }
        let at = entry_place(&self.entries, link.number);
        drop_stamped(
            &mut self.entries,
            &mut self.names,
            &mut self.waiting,
            &mut self.done,
            &mut self.stamps,
            at,
        );
        true
    }
}
