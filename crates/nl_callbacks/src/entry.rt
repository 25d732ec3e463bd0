// The entries of the list of pending callbacks.
ghost use Rattle.std.specs.Prelude.{◌≡◌, ◌≤◌, ◌<◌, length, insert, vec_capacity};
ghost use Rattle.nl_callbacks.specs.Lists.{IsInsertionPoint, Rises};
ghost use Rattle.nl_callbacks.specs.Pending.{no_entry, number_of};

use nl_iface::Callback;

/// A pending callback, and the transaction that handled it, if one did.
#[derive(Clone, Copy, Debug)]
pub struct Entry {
    pub callback: Callback,
    pub transaction: Option<u64>,
}

/// The place of a number in a list by rising number, by halving.
pub fn entry_place(entries: &Vec<Entry>, number: u64) -> usize
    requires { Rises number_of no_entry entries.now.items }
    ensures { IsInsertionPoint number_of no_entry entries.now.items number result }
{
    let mut low = 0;
    let mut high = entries.len();
    while low < high {
        let mid = low + (high - low) / 2;
        if entries[mid].callback.number < number {
            low = mid + 1;
        } else {
            high = mid;
        }
    }
    low
}

/// Puts an entry into a list that has room.
pub fn put_entry(entries: &mut Vec<Entry>, at: usize, entry: Entry)
    requires within { at ≤ length entries.old.items }
    requires room { length entries.old.items < vec_capacity entries.old }
    ensures items { entries.new.items ≡ insert entries.old.items at entry }
    ensures capacity { vec_capacity entries.old ≤ vec_capacity entries.new }
{
    let _ = entries.insert(at, entry);
}
