// The lists by which pending callbacks are found.
ghost use Rattle.std.specs.Prelude.{◌≡◌, ℕ, ◌<◌, ◌≤◌, Some, None, length, insert, remove, slice_set, vec_capacity};
ghost use Rattle.nl_callbacks.specs.Kept.{AreIndexed};
ghost use Rattle.nl_callbacks.specs.Pending.{IsPending, entry_at, place_of};

use crate::entry::{Entry, entry_place, put_entry};
use crate::links::{Link, place, put};
use nl_iface::Callback;

/// Puts a callback that was not handled into the lists.
pub fn add_entry(
    entries: &mut Vec<Entry>,
    names: &mut Vec<Link>,
    waiting: &mut Vec<Link>,
    done: &Vec<Link>,
    callback: Callback,
)
    requires kept { AreIndexed entries.old.items names.old.items waiting.old.items done.now.items }
    requires fresh { IsPending entries.old.items callback.number → ⊥ }
    requires entries_room { length entries.old.items < vec_capacity entries.old }
    requires names_room { length entries.old.items < vec_capacity names.old }
    requires waiting_room { length entries.old.items < vec_capacity waiting.old }
    ensures kept { AreIndexed entries.new.items names.new.items waiting.new.items done.now.items }
    ensures items { entries.new.items
        ≡ insert entries.old.items (place_of entries.old.items callback.number) (record { callback = callback; transaction = None }) }
    ensures entries_capacity { vec_capacity entries.old ≤ vec_capacity entries.new }
    ensures names_capacity { vec_capacity names.old ≤ vec_capacity names.new }
    ensures waiting_capacity { vec_capacity waiting.old ≤ vec_capacity waiting.new }
{
    let number = callback.number;
    let before = callback.before as u64;
    let name = place(names, before, number);
    put(
        names,
        name,
        Link {
            key: before,
            number,
        },
    );
    let wait = place(waiting, 0, number);
    put(waiting, wait, Link { key: 0, number });
    let at = entry_place(entries, number);
    put_entry(
        entries,
        at,
        Entry {
            callback,
            transaction: None,
        },
    );
}

/// Notes the transaction of the callback at a place, which was not handled.
pub fn mark_entry(
    entries: &mut Vec<Entry>,
    names: &Vec<Link>,
    waiting: &mut Vec<Link>,
    done: &mut Vec<Link>,
    at: usize,
    transaction: u64,
)
    requires kept { AreIndexed entries.old.items names.now.items waiting.old.items done.old.items }
    requires within { at < length entries.old.items }
    requires waits { (entry_at entries.old.items at).transaction ≡ None }
    requires done_room { length entries.old.items ≤ vec_capacity done.old }
    ensures kept { AreIndexed entries.new.items names.now.items waiting.new.items done.new.items }
    ensures items { entries.new.items
        ≡ slice_set entries.old.items at (record { callback = (entry_at entries.old.items at).callback; transaction = Some transaction }) }
    ensures entries_capacity { vec_capacity entries.old ≤ vec_capacity entries.new }
    ensures waiting_capacity { vec_capacity waiting.old ≤ vec_capacity waiting.new }
    ensures done_capacity { vec_capacity done.old ≤ vec_capacity done.new }
{
    let entry = entries[at];
    let number = entry.callback.number;
    let wait = place(waiting, 0, number);
    waiting.remove(wait);
    let handled = place(done, transaction, number);
    put(
        done,
        handled,
        Link {
            key: transaction,
            number,
        },
    );
    entries[at] = Entry {
        callback: entry.callback,
        transaction: Some(transaction),
    };
}

/// Takes the callback at a place, which was not handled, out of the lists.
fn drop_waiting(
    entries: &mut Vec<Entry>,
    names: &mut Vec<Link>,
    waiting: &mut Vec<Link>,
    done: &Vec<Link>,
    at: usize,
)
    requires kept { AreIndexed entries.old.items names.old.items waiting.old.items done.now.items }
    requires within { at < length entries.old.items }
    requires waits { (entry_at entries.old.items at).transaction ≡ None }
    ensures kept { AreIndexed entries.new.items names.new.items waiting.new.items done.now.items }
    ensures items { entries.new.items ≡ remove entries.old.items at }
    ensures entries_capacity { vec_capacity entries.old ≤ vec_capacity entries.new }
    ensures names_capacity { vec_capacity names.old ≤ vec_capacity names.new }
    ensures waiting_capacity { vec_capacity waiting.old ≤ vec_capacity waiting.new }
{
    let entry = entries[at];
    let name = place(names, entry.callback.before as u64, entry.callback.number);
    names.remove(name);
    let wait = place(waiting, 0, entry.callback.number);
    waiting.remove(wait);
    entries.remove(at);
}

/// Takes the callback at a place, which this transaction handled, out of the lists.
fn drop_done(
    entries: &mut Vec<Entry>,
    names: &mut Vec<Link>,
    waiting: &Vec<Link>,
    done: &mut Vec<Link>,
    at: usize,
    transaction: u64,
)
    requires kept { AreIndexed entries.old.items names.old.items waiting.now.items done.old.items }
    requires within { at < length entries.old.items }
    requires handled { (entry_at entries.old.items at).transaction ≡ Some transaction }
    ensures kept { AreIndexed entries.new.items names.new.items waiting.now.items done.new.items }
    ensures items { entries.new.items ≡ remove entries.old.items at }
    ensures entries_capacity { vec_capacity entries.old ≤ vec_capacity entries.new }
    ensures names_capacity { vec_capacity names.old ≤ vec_capacity names.new }
    ensures done_capacity { vec_capacity done.old ≤ vec_capacity done.new }
{
    let entry = entries[at];
    let name = place(names, entry.callback.before as u64, entry.callback.number);
    names.remove(name);
    let handled = place(done, transaction, entry.callback.number);
    done.remove(handled);
    entries.remove(at);
}

/// Takes the callback at a place out of the lists.
pub fn drop_entry(
    entries: &mut Vec<Entry>,
    names: &mut Vec<Link>,
    waiting: &mut Vec<Link>,
    done: &mut Vec<Link>,
    at: usize,
)
    requires kept { AreIndexed entries.old.items names.old.items waiting.old.items done.old.items }
    requires within { at < length entries.old.items }
    ensures kept { AreIndexed entries.new.items names.new.items waiting.new.items done.new.items }
    ensures items { entries.new.items ≡ remove entries.old.items at }
    ensures entries_capacity { vec_capacity entries.old ≤ vec_capacity entries.new }
    ensures names_capacity { vec_capacity names.old ≤ vec_capacity names.new }
    ensures waiting_capacity { vec_capacity waiting.old ≤ vec_capacity waiting.new }
    ensures done_capacity { vec_capacity done.old ≤ vec_capacity done.new }
{
    match entries[at].transaction {
        None => drop_waiting(entries, names, waiting, done, at),
        Some(transaction) => drop_done(entries, names, waiting, done, at, transaction),
    }
}
