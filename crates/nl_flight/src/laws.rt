//! Laws of lines in flight: how many pages they have, and what a rename leaves of them. A function stands for each law.
ghost use Rattle.std.specs.Prelude.{◌≡◌, ◌≤◌, ℕ, List, length, map};
ghost use Rattle.nl_flight.specs.Flight.{InFlight, IsFlight, carried, renamed, renamed_pointer};

/// At most 130 pages are in flight: sixteen for each of eight workers, and two.
pub fn most_pages()
    ensures { (flight : List InFlight) → IsFlight flight → length (carried flight) ≤ 130 }
{}

/// A rename changes names alone, and leaves the order of the pages.
pub fn carried_under_names()
    ensures { (stamp to : ℕ) (flight : List InFlight)
        → carried (renamed stamp to flight) ≡ map (λ held. (held.0, renamed_pointer stamp to held.1)) (carried flight) }
{}
