// The lists of callbacks with the one by stamp.
ghost use Rattle.std.specs.Prelude.{◌≡◌, ℕ, ◌<◌, ◌≤◌, Some, None, length, insert, remove, slice_set, vec_capacity};
ghost use Rattle.nl_callbacks.specs.Kept.{AreIndexed, IsStamped};
ghost use Rattle.nl_callbacks.specs.Pending.{IsPending, entry_at, place_of};

use crate::entry::Entry;
use crate::links::{Link, place, put};
use crate::lists::{add_entry, drop_entry, mark_entry};
use nl_iface::Callback;

/// Puts a callback that was not handled into the lists.
pub fn add_stamped(
    entries: &mut Vec<Entry>,
    names: &mut Vec<Link>,
    waiting: &mut Vec<Link>,
    done: &Vec<Link>,
    stamps: &mut Vec<Link>,
    callback: Callback,
)
    requires kept { AreIndexed entries.old.items names.old.items waiting.old.items done.now.items }
    requires stamped { IsStamped entries.old.items stamps.old.items }
    requires fresh { IsPending entries.old.items callback.number → ⊥ }
    requires entries_room { length entries.old.items < vec_capacity entries.old }
    requires names_room { length entries.old.items < vec_capacity names.old }
    requires waiting_room { length entries.old.items < vec_capacity waiting.old }
    requires stamps_room { length entries.old.items < vec_capacity stamps.old }
    ensures kept { AreIndexed entries.new.items names.new.items waiting.new.items done.now.items }
    ensures stamped { IsStamped entries.new.items stamps.new.items }
    ensures items { entries.new.items
        ≡ insert entries.old.items (place_of entries.old.items callback.number) (record { callback = callback; transaction = None }) }
    ensures entries_capacity { vec_capacity entries.old ≤ vec_capacity entries.new }
    ensures names_capacity { vec_capacity names.old ≤ vec_capacity names.new }
    ensures waiting_capacity { vec_capacity waiting.old ≤ vec_capacity waiting.new }
    ensures stamps_capacity { vec_capacity stamps.old ≤ vec_capacity stamps.new }
{
    let stamp = callback.stamp;
    let number = callback.number;
    let at = place(stamps, stamp, number);
    put(stamps, at, Link { key: stamp, number });
    add_entry(entries, names, waiting, done, callback);
}

/// Notes the transaction of the callback at a place, which was not handled. Its stamp stays.
pub fn mark_stamped(
    entries: &mut Vec<Entry>,
    names: &Vec<Link>,
    waiting: &mut Vec<Link>,
    done: &mut Vec<Link>,
    stamps: &Vec<Link>,
    at: usize,
    transaction: u64,
)
    requires kept { AreIndexed entries.old.items names.now.items waiting.old.items done.old.items }
    requires stamped { IsStamped entries.old.items stamps.now.items }
    requires within { at < length entries.old.items }
    requires waits { (entry_at entries.old.items at).transaction ≡ None }
    requires done_room { length entries.old.items ≤ vec_capacity done.old }
    ensures kept { AreIndexed entries.new.items names.now.items waiting.new.items done.new.items }
    ensures stamped { IsStamped entries.new.items stamps.now.items }
    ensures items { entries.new.items
        ≡ slice_set entries.old.items at (record { callback = (entry_at entries.old.items at).callback; transaction = Some transaction }) }
    ensures entries_capacity { vec_capacity entries.old ≤ vec_capacity entries.new }
    ensures waiting_capacity { vec_capacity waiting.old ≤ vec_capacity waiting.new }
    ensures done_capacity { vec_capacity done.old ≤ vec_capacity done.new }
{
    let _ = stamps.len();
    mark_entry(entries, names, waiting, done, at, transaction);
}

/// Takes the callback at a place out of the lists.
pub fn drop_stamped(
    entries: &mut Vec<Entry>,
    names: &mut Vec<Link>,
    waiting: &mut Vec<Link>,
    done: &mut Vec<Link>,
    stamps: &mut Vec<Link>,
    at: usize,
)
    requires kept { AreIndexed entries.old.items names.old.items waiting.old.items done.old.items }
    requires stamped { IsStamped entries.old.items stamps.old.items }
    requires within { at < length entries.old.items }
    ensures kept { AreIndexed entries.new.items names.new.items waiting.new.items done.new.items }
    ensures stamped { IsStamped entries.new.items stamps.new.items }
    ensures items { entries.new.items ≡ remove entries.old.items at }
    ensures entries_capacity { vec_capacity entries.old ≤ vec_capacity entries.new }
    ensures names_capacity { vec_capacity names.old ≤ vec_capacity names.new }
    ensures waiting_capacity { vec_capacity waiting.old ≤ vec_capacity waiting.new }
    ensures done_capacity { vec_capacity done.old ≤ vec_capacity done.new }
    ensures stamps_capacity { vec_capacity stamps.old ≤ vec_capacity stamps.new }
{
    let entry = entries[at];
    let link = place(stamps, entry.callback.stamp, entry.callback.number);
    stamps.remove(link);
    drop_entry(entries, names, waiting, done, at);
}
