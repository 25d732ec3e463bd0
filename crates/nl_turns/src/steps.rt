//! The steps on the table.
ghost use Rattle.std.specs.Prelude.{◌≡◌, ℕ, List, ◌+◌, ◌<◌, ◌≤◌, ◌∷◌, ◌++◌, [], Some, None, IfOk, IfErr};
ghost use Rattle.nl_turns.specs.Seat.{Passed, entries};
ghost use Rattle.nl_turns.specs.View.{blank, idle, enters, inside, leaves, hosts};
ghost use Rattle.nl_turns.specs.Rule.{blank_view, HostFits, by_entries};
ghost use Rattle.nl_turns.specs.Steps.{after_pass, NumbersAreGiven, HasReached};

use crate::bells::Bells;
use crate::entry::Entry;
use crate::kept::{Kept, Opens};
use crate::plays::{Add, Begin, Draw, Fetch, Look, Origin, Park, Says, Settle};
use crate::table::{About, Board, Place, Top};
use atomic_table::{Refused, Table};
use std::alloc::Global;
use std::snapshot::Snapshot;
use std::sync::Wait;

/// The table, and its first seat.
pub(crate) fn open<V: Kept>(alloc: Global, value: V, seats: u32) -> Result<(Board<V>, Place<V>), V>
    requires seats { (0 < seats) × (seats ≤ 10) }
    ensures ok { IfOk result (λ r. (r.0.shared.table_id.words ≡ 2) × (r.0.shared.table_id.slots ≡ 1)
        × (r.1.table_id ≡ r.0.shared.table_id) × (r.0.shared.key.seats ≡ seats) × (r.0.shared.key.value.value ≡ value)
        × (r.1.me ≡ (blank_view seats, []))) }
    ensures err { IfErr result (λ v. v ≡ value) }
{
    let Ok(mut slots) = Vec::with_capacity(alloc, 1) else {
        return Err(value);
    };
    let about = About {
        value: Snapshot::of(&value),
        seats,
    };
    slots.push_reserved(Some(value));
    match Table::new(alloc, &[0, 0], slots, &about) {
        Ok(made) => Ok(made),
        Err(Refused { slots }) => Err(only(slots)),
    }
}

fn only<V>(mut slots: Vec<Option<V>>) -> V
    requires { (v : V) × (slots.items ≡ Some v ∷ []) }
    ensures { slots.items ≡ Some result ∷ [] }
{
    let value = slots.pop().unwrap().unwrap();
    slots.destroy_empty();
    value
}

/// Picks the opening: the origin stands for it before the first turn.
pub(crate) fn begin<V: Kept, O: Opens>(top: &Top<V>, place: &mut Place<V>)
    requires table { (place.old.table_id ≡ top.now.table_id) × (top.now.table_id.words ≡ 2) }
    requires blank { place.old.me.0.role ≡ blank }
    requires stands { V.stands top.now.key.value.value O.opening [] top.now.key.value.value }
    ensures place { (place.new.table_id ≡ place.old.table_id) × (place.new.id ≡ place.old.id) }
    ensures begun { place.new.me ≡ (record place.old.me.0 { role = idle; opening = O.opening }, place.old.me.1) }
{
    top.load::<Begin<O>>(place, 0);
}

/// Draws a ticket, and waits for its turn. Then it takes the slot.
pub(crate) fn reach<V: Kept, O: Origin<V>, R: Wait>(
    rt: &R,
    top: &Top<V>,
    bells: &Bells,
    place: &mut Place<V>,
)
    requires told { O.origin ≡ Some top.now.key.value.value }
    requires table { (place.old.table_id ≡ top.now.table_id) × (top.now.table_id.words ≡ 2) × (top.now.table_id.slots ≡ 1) }
    requires idle { (place.old.me.0.role ≡ idle) × (place.old.me.1 ≡ []) }
    ensures place { (place.new.table_id ≡ place.old.table_id) × (place.new.id ≡ place.old.id) }
    ensures reached { HasReached (by_entries (V.stands top.now.key.value.value)) place.old.me place.new.me }
{
    let ticket = top.fetch_add::<Draw>(place, 0, 1);
    let mut yields = 0;
    for _ in rt.forever() {
        let passed = top.load::<Look<O>>(place, 1);
        if passed == ticket {
            return;
        }
        yields = bells.wait(rt, ticket, passed, yields);
    }
    unreachable!()
}

/// Brings the empty slot home, for the time of a turn: a seat between calls names no type of slots, and so holds none.
pub(crate) fn put_home<V: Kept>(top: &Top<V>, place: &mut Place<V>)
    requires table { (place.old.table_id ≡ top.now.table_id) × (top.now.table_id.words ≡ 2) }
    requires turn { (t : ℕ) × (place.old.me.0.role ≡ enters t) × (place.old.me.1 ≡ (0, None) ∷ []) }
    ensures place { (place.new.table_id ≡ place.old.table_id) × (place.new.id ≡ place.old.id) }
    ensures parked { (t : ℕ) → place.old.me.0.role ≡ enters t → place.new.me ≡ (record place.old.me.0 { role = inside t }, []) }
{
    top.load::<Park>(place, 1);
}

/// Takes the empty slot out again.
pub(crate) fn take_out<V: Kept>(top: &Top<V>, place: &mut Place<V>)
    requires table { (place.old.table_id ≡ top.now.table_id) × (top.now.table_id.words ≡ 2) }
    requires turn { (t : ℕ) × (place.old.me.0.role ≡ inside t) × (place.old.me.1 ≡ []) }
    ensures place { (place.new.table_id ≡ place.old.table_id) × (place.new.id ≡ place.old.id) }
    ensures fetched { (t : ℕ) → place.old.me.0.role ≡ inside t
        → place.new.me ≡ (record place.old.me.0 { role = leaves t }, (0, None) ∷ []) }
{
    top.load::<Fetch>(place, 1);
}

/// Gives the slot back with the next turn, adds an entry to the history, and wakes those whose turns come next.
pub(crate) fn add<V: Kept, E: Says>(top: &Top<V>, bells: &Bells, place: &mut Place<V>, entry: Entry)
    requires said { E.entry ≡ entry }
    requires table { (place.old.table_id ≡ top.now.table_id) × (top.now.table_id.words ≡ 2) × (top.now.table_id.slots ≡ 1) }
    requires turn { (t : ℕ) × (y : V) × (place.old.me.0.role ≡ leaves t) × (place.old.me.1 ≡ (0, Some y) ∷ [])
        × V.stands top.now.key.value.value place.old.me.0.opening (entries place.old.me.0.seen ++ entry ∷ []) y }
    ensures place { (place.new.table_id ≡ place.old.table_id) × (place.new.id ≡ place.old.id) }
    ensures added { place.new.me ≡ (after_pass place.old.me.0 entry, []) }
{
    let passed = top.fetch_add::<Add<E>>(place, 1, 1);
    bells.ring(passed.wrapping_add(1));
}

/// Puts the first seat at rest after a join. What a join tells is told by the read of a word that follows it.
pub(crate) fn settle<V: Kept>(top: &Top<V>, place: &mut Place<V>)
    requires table { (place.old.table_id ≡ top.now.table_id) × (top.now.table_id.words ≡ 2) }
    requires hosts { (n : ℕ) × (xs : List Passed) × (ys : List Passed) × (place.old.me.0.role ≡ hosts n xs ys) }
    ensures place { (place.new.table_id ≡ place.old.table_id) × (place.new.id ≡ place.old.id)
        × (place.new.me ≡ (record place.old.me.0 { role = idle }, place.old.me.1)) }
    ensures host { HostFits place.old.me.0 place.old.me.0.role }
    ensures few { place.old.me.0.number ≡ 0 → place.old.me.0.places + 1 ≤ 10 }
    ensures told { NumbersAreGiven place.old.me.0 place.old.me.0.seen }
{
    top.load::<Settle>(place, 0);
}

/// The value at the end.
pub(crate) fn close<V: Kept>(table: Board<V>, place: Place<V>) -> V
    requires table { (place.table_id ≡ table.shared.table_id) × (table.shared.table_id.words ≡ 2) × (table.shared.table_id.slots ≡ 1) }
    requires idle { (place.me.0.role ≡ idle) × (place.me.1 ≡ []) }
    requires first { (place.me.0.number ≡ 0) × (place.me.0.places + 1 ≡ table.shared.key.seats) }
    ensures { V.stands table.shared.key.value.value place.me.0.opening (entries place.me.0.seen) result }
{
    let mut closed = table.close_with(place);
    let value = closed.take(0).unwrap();
    closed.free();
    value
}
