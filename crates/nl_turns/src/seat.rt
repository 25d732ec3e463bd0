//! A seat at the lock, with which a thread takes turns.
use crate::table::SeatView;
use atomic_table::Badge;
use std::marker::Model;
use std::mem;

/// A seat at one lock, with which a thread takes turns. It may go to another thread.
///
/// Contracts see its lock and number, the opening, the beginning of the history that it has seen, whether it has its turn, and for
/// the first seat how many places it has to give, the number of the next seat and the numbers of those that it took back.
#[derive(Drop)]
pub struct TurnSeat {
    pub(crate) badge: Badge<SeatView>,
    /// How many seats it may still give.
    pub(crate) places: u32,
}

impl Model for TurnSeat {
    ghost use Rattle.nl_turns.specs.Seat.{SeatState};
    ghost use Rattle.nl_turns.specs.Steps.{state_of, view_of, IsSeat};

    ghost Value = { SeatState };

    ghost view = { λ s. state_of s.badge.table_id (view_of s.badge.views) };

    ghost invariant = { λ s. IsSeat s.badge.views s.places };
}

impl TurnSeat {
    /// Lends the seat by value to the call, and takes back the seat that it answers with.
    pub fn lend<T, F: FnOnce(TurnSeat) -> (TurnSeat, T)>(seat: &mut TurnSeat, call: F) -> T
        requires { F.pre call seat.old }
        ensures { F.post call seat.old (seat.new, result) }
    {
        let lent = TurnSeat {
            badge: mem::replace(&mut seat.badge, Badge::blank()),
            places: seat.places,
        };
        let (back, told) = call(lent);
        *seat = back;
        told
    }
}

/// A turn: the value, for as long as the seat keeps all others out.
pub struct Turn<V> {
    pub value: V,
}
