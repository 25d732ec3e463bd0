// What calls on files change of a core beside its pages: the count of calls, the line of a worker, and the pointers that await their free.
ghost use Rattle.std.specs.Prelude.{◌≡◌, ◌<◌, ◌≤◌, length};
ghost use Rattle.nl_flight.specs.Flight.{IsFlight, begun, with_line};
ghost use Rattle.nl_core.specs.Calls.{counted};
ghost use Rattle.nl_core.specs.Lines.{Withdraws, notes_fault};
ghost use Rattle.nl_core.specs.Programming.{line_of};

use crate::state::Core;
use nl_flight::Flight;
use nl_iface::MovingPages;

impl<D: MovingPages> Core<D> {
    /// Counts one call more. The count stands at its type's end.
    pub fn count_call(&mut self)
        ensures { self.new ≡ counted self.old }
    {
        self.count = self.count.saturating_add(1);
    }

    /// Ends the worker's line, whose pages a file has or which has none: the worker has no line, and nothing is freed.
    pub fn end_line(&mut self, worker: u8)
        requires known { worker < 8 }
        ensures { self.new ≡ record self.old { flight = with_line self.old.flight worker (begun 0) } }
    {
        self.flight.clear(worker);
    }

    /// The worker's line, which begins where it has none, keeps the sum of both fault counts after a failure.
    pub fn note_failure(&mut self, worker: u8, line: u32)
        requires known { worker < 8 }
        requires some { 0 < line }
        ensures noted { self.new ≡ notes_fault D.Counts worker line self.old }
        ensures lines { IsFlight self.new.flight }
    {
        let sum = self.faults();
        keep_failure(&mut self.flight, worker, line, sum);
    }

    /// The pointers behind the first ones no longer await their free.
    pub fn withdraw(&mut self, first: u32)
        requires first { first ≤ length self.old.freeing.items }
        ensures { Withdraws first self.old self.new }
    {
        self.freeing.shorten(first);
    }
}

// The worker's line, which begins where it has none, keeps this number.
fn keep_failure(flight: &mut Flight, worker: u8, line: u32, sum: u64)
    requires known { worker < 8 }
    requires some { 0 < line }
    ensures kept { flight.new ≡ with_line flight.old worker (record (line_of flight.old worker line) { fault = sum }) }
    ensures lines { IsFlight flight.new }
{
    if flight.line(worker) == 0 {
        flight.begin(worker, line);
        flight.set_fault(worker, sum);
    } else {
        flight.set_fault(worker, sum);
    }
    let _line = flight.line(worker);
}
