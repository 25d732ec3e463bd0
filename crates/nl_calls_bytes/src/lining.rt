ghost use Rattle.std.specs.Prelude.{◌≡◌, ◌<◌, ◌≤◌, ◌==◌, ℕ, Some, slice_get, true};
ghost use Rattle.std.specs.List.{list_any};
ghost use Rattle.nl_flight.specs.Flight.{of_worker};
ghost use Rattle.nl_flight.specs.declared.page.FlightPage.{FlightPage};
ghost use Rattle.nl_calls_bytes.specs.Staged.{AllOfFile};

use nl_flight::Flight;

/// Whether each page in flight of a worker is one of this generation of a node, under a write sequence number.
pub fn all_of_file(flight: &Flight, worker: u8, ino: u32, generation: u32) -> bool
    requires known { worker < 8 }
    ensures { result ≡ true → AllOfFile ino generation (of_worker flight.now worker).pages }
{
    let _line = flight.line(worker);
    let mut place = 0;
    'pages: while let Some((_, at, tag)) = flight.get(worker, place) {
        if tag.ino != ino || tag.generation != generation || at.stamp == 0 {
            return false;
        }
        place += 1;
    }
    true
}

/// Whether a worker has a page in flight for an index.
pub fn has_index(flight: &Flight, worker: u8, index: u32) -> bool
    requires known { worker < 8 }
    ensures { result ≡ list_any (λ (page : FlightPage). page.index == index) (of_worker flight.now worker).pages }
{
    let _line = flight.line(worker);
    let mut place = 0;
    'pages: while let Some((at, _, _)) = flight.get(worker, place) {
        if at == index {
            return true;
        }
        place += 1;
    }
    false
}
