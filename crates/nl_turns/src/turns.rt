//! The ticket lock: a turn is taken, the value is borrowed for it, and the lock is closed at the end.
ghost use Rattle.std.specs.Prelude.{◌≡◌, ℕ, ◌+◌, ◌-◌, ◌<◌, ◌≤◌, ◌∷◌, ◌++◌, [], true, false, Contains, IfOk, IfErr, IfSome, IfNone};
ghost use mathlib.Core.List.{IsPrefix};
ghost use Rattle.nl_turns.specs.Seat.{entries, by_seat, passed_by, longer, NoNumberBeyond, SeatState};

use crate::bells::Bells;
use crate::entry::Entry;
use crate::kept::{Kept, Opens};
use crate::plays::Seats;
use crate::seat::{Turn, TurnSeat};
use crate::steps::{add, begin, close, open, put_home, reach, settle, take_out};
use crate::table::Board;
use atomic_table::Badge;
use nl_tree::Lines;
use std::alloc::Global;
use std::marker::{Brand, Model};
use std::mem;
use std::sync::Wait;

/// A ticket lock over one value, which threads share by reference. Turns come in the order of the tickets.
///
/// Contracts see which lock it is, how many seats it has in all, and its origin: the value with which it was made. What a seat has seen is
/// a beginning of one history, which has an entry for each turn that was passed.
pub struct Turns<V: Kept> {
    table: Board<V>,
    bells: Bells,
}

impl<V: Kept> Model for Turns<V> {
    ghost use Rattle.std.specs.Prelude.{◌≡◌};
    ghost use Rattle.nl_turns.specs.Seat.{LockState};

    ghost Value = { LockState V };

    ghost view = { λ t. record { name = t.table.shared.table_id; seats = t.table.shared.key.seats; origin = t.table.shared.key.value.value } };

    ghost invariant = { λ t. (t.table.shared.table_id.words ≡ 2) × (t.table.shared.table_id.slots ≡ 1) };
}

impl<V: Kept> Turns<V> {
    /// The lock, and its first seat, of number 0, which may give all others. The caller picks the opening, for which the value stands
    /// before any turn. The value comes back for want of memory.
    pub fn new<O: Opens>(
        alloc: Global,
        value: V,
        lines: &Lines,
        seats: u32,
    ) -> Result<(Turns<V>, TurnSeat), V>
        requires seats { (0 < seats) × (seats ≤ 10) }
        requires lines { O.opening.lines ≡ lines.now }
        requires stands { V.stands value O.opening [] value }
        ensures lock { IfOk result (λ r. (r.0.seats ≡ seats) × (r.0.origin ≡ value)) }
        ensures seat { IfOk result (λ r. r.1 ≡ record { lock = r.0.name; number = 0; opening = O.opening; seen = []; has_turn = false; places = seats - 1; next = 1; joined = [] }) }
        ensures memory { IfErr result (λ v. v ≡ value) }
    {
        let _ = lines;
        let (table, mut place) = open(alloc, value, seats)?;
        begin::<V, O>(&table.shared, &mut place);
        let seat = TurnSeat {
            badge: place.into_badge(),
            places: seats - 1,
        };
        let bells = Bells::new();
        Ok((Turns { table, bells }, seat))
    }

    /// Waits for the seat's turn, and takes the value. It stands for the opening and a history that begins with all that the seat
    /// had seen, which the seat then knows. That history has no further entry of this seat, of a seat that it took back, or of a
    /// number that was not given yet.
    pub fn take<R: Wait>(&self, rt: &R, seat: &mut TurnSeat) -> Turn<V>
        requires lock { seat.old.lock ≡ self.now.name }
        requires idle { seat.old.has_turn ≡ false }
        ensures seat { seat.new ≡ record seat.old { seen = seat.new.seen; has_turn = true } }
        ensures grows { IsPrefix seat.old.seen seat.new.seen }
        ensures own { by_seat seat.old.number seat.new.seen ≡ by_seat seat.old.number seat.old.seen }
        ensures joined { (n : ℕ) → Contains seat.old.joined n → by_seat n seat.new.seen ≡ by_seat n seat.old.seen }
        ensures numbers { seat.old.number ≡ 0 → NoNumberBeyond seat.old.next seat.new.seen }
        ensures stands { V.stands self.now.origin seat.old.opening (entries seat.new.seen) result.value }
    {
        let top = &self.table.shared;
        let mut place = mem::replace(&mut seat.badge, Badge::blank()).into_seat();
        reach::<V, Brand, R>(rt, top, &self.bells, &mut place);
        let value = top.exchange(&mut place, 0, None).unwrap();
        put_home(top, &mut place);
        seat.badge = place.into_badge();
        Turn { value }
    }

    /// Ends the seat's turn by an entry, and gives the value back.
    pub fn pass(&self, seat: &mut TurnSeat, turn: Turn<V>, entry: Entry)
        requires lock { seat.old.lock ≡ self.now.name }
        requires turn { seat.old.has_turn ≡ true }
        requires stands { V.stands self.now.origin seat.old.opening (entries seat.old.seen ++ entry ∷ []) turn.value }
        ensures seat { seat.new ≡ record seat.old { seen = seat.old.seen ++ passed_by seat.old.number entry ∷ []; has_turn = false } }
        ensures joined { (n : ℕ) → Contains seat.old.joined n → by_seat n seat.new.seen ≡ by_seat n seat.old.seen }
        ensures numbers { seat.old.number ≡ 0 → NoNumberBeyond seat.old.next seat.new.seen }
    {
        let Turn { value } = turn;
        let top = &self.table.shared;
        let mut place = mem::replace(&mut seat.badge, Badge::blank()).into_seat();
        take_out(top, &mut place);
        let found = top.exchange(&mut place, 0, Some(value));
        let None = found else { unreachable!() };
        add::<V, Brand>(top, &self.bells, &mut place, entry);
        seat.badge = place.into_badge();
    }

    /// A new seat, where the first one has a place left. It has seen what the first one has seen. No number comes twice.
    pub fn split(&self, seat: &mut TurnSeat) -> Option<TurnSeat>
        requires lock { seat.old.lock ≡ self.now.name }
        requires idle { seat.old.has_turn ≡ false }
        requires first { seat.old.number ≡ 0 }
        ensures none { IfNone result ((seat.old.places ≡ 0) × (seat.new ≡ seat.old)) }
        ensures seat { IfSome result (λ r. (0 < seat.old.places)
            × (seat.new ≡ record seat.old { places = seat.old.places - 1; next = seat.old.next + 1 })) }
        ensures given { IfSome result (λ r. r ≡ record seat.old { number = seat.old.next; places = 0; next = 0; joined = [] }) }
        ensures numbers { IfSome result (λ r. (0 < r.number) × NoNumberBeyond r.number r.seen) }
    {
        if seat.places == 0 {
            return None;
        }
        let top = &self.table.shared;
        let mut place = mem::replace(&mut seat.badge, Badge::blank()).into_seat();
        let new = top.split_seat::<Seats>(&mut place);
        seat.badge = place.into_badge();
        seat.places -= 1;
        Some(TurnSeat {
            badge: new.into_badge(),
            places: 0,
        })
    }

    /// Takes another seat back, with all that it had seen. The first seat then knows all entries of that seat's number, for good,
    /// and has one place more.
    pub fn join(&self, seat: &mut TurnSeat, other: TurnSeat)
        requires lock { (seat.old.lock ≡ self.now.name) × (other.lock ≡ self.now.name) }
        requires idle { (seat.old.has_turn ≡ false) × (other.has_turn ≡ false) }
        requires first { seat.old.number ≡ 0 }
        ensures seat { seat.new
            ≡ record seat.old { seen = longer seat.old.seen other.seen; places = seat.old.places + 1; joined = other.number ∷ seat.old.joined } }
        ensures grows { IsPrefix seat.old.seen seat.new.seen × IsPrefix other.seen seat.new.seen }
        ensures own { by_seat 0 seat.new.seen ≡ by_seat 0 seat.old.seen }
        ensures theirs { by_seat other.number seat.new.seen ≡ by_seat other.number other.seen }
        ensures joined { (n : ℕ) → Contains seat.old.joined n → by_seat n seat.new.seen ≡ by_seat n seat.old.seen }
        ensures numbers { NoNumberBeyond seat.new.next seat.new.seen }
    {
        let TurnSeat { badge, places: _ } = other;
        let top = &self.table.shared;
        let mut place = mem::replace(&mut seat.badge, Badge::blank()).into_seat();
        top.join_seat::<Seats>(&mut place, badge.into_seat());
        settle(top, &mut place);
        seat.badge = place.into_badge();
        seat.places += 1;
    }

    /// The value at the end, once the first seat has taken all others back. It stands for the opening and the whole history, which
    /// is what that seat has seen.
    pub fn close(self, seat: TurnSeat) -> V
        requires lock { seat.lock ≡ self.name }
        requires idle { seat.has_turn ≡ false }
        requires first { (seat.number ≡ 0) × (seat.places + 1 ≡ self.seats) }
        ensures { V.stands self.origin seat.opening (entries seat.seen) result }
    {
        let Turns { table, bells: _ } = self;
        let TurnSeat { badge, places: _ } = seat;
        close(table, badge.into_seat())
    }
}
