ghost use Rattle.std.specs.Prelude.{◌≡◌, ◌+◌, false};
ghost use Rattle.nl_turns.specs.Seat.{entries, longer};

use nl_turns::{Kept, TurnSeat, Turns};

/// Takes the last seat back, and the value with the whole history.
pub fn close_with<V: Kept>(turns: Turns<V>, mut seat: TurnSeat, other: TurnSeat) -> V
    requires lock { (seat.lock ≡ turns.name) × (other.lock ≡ turns.name) }
    requires idle { (seat.has_turn ≡ false) × (other.has_turn ≡ false) }
    requires last { (seat.number ≡ 0) × (seat.places + 2 ≡ turns.seats) }
    ensures { V.stands turns.origin seat.opening (entries (longer seat.seen other.seen)) result }
{
    turns.join(&mut seat, other);
    turns.close(seat)
}
