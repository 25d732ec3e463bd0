//! A gate, which is told of the steps of workers and may hold them there.
ghost use Rattle.std.specs.Prelude.{◌≡◌};

/// Where a worker stands with a line.
#[derive(Clone, Copy, Debug, PartialEq, Eq)]
pub enum GatePlace {
    /// Before the line's first turn.
    Before,
    /// At least one page or unit was staged and no more can be, and the effect is still to come.
    Staged,
    /// The effect is done. Of the cleaner and the handler: a background task did something.
    After,
}

/// Is told of each worker's steps, and may hold the worker there. None that is told has its turn at that moment.
pub trait Gate {
    ghost use Rattle.std.specs.Prelude.{ℕ};
    ghost use Rattle.nl_workers.specs.declared.gate.GatePlace.{GatePlace};

    /// The gate was told that a worker is at this place of the line of this number. Code that knows of a gate's type only that it is a
    /// gate learns this from a call of `at`, and from nothing else.
    ghost heard: { Self → ℕ → ℕ → GatePlace → Type 0 };

    /// A worker, 0 to 7, is at this place of the line of this number. The cleaner is worker 8 and the handler worker 9, with line 0.
    fn at(&self, worker: u8, line: u32, place: GatePlace)
        ensures { heard self.now worker line place };
}

/// A gate that does nothing.
pub struct NoGate;

impl Gate for NoGate {
    ghost heard = { λ gate worker line place. Unit {0} };

    fn at(&self, _worker: u8, _line: u32, _place: GatePlace) {}
}

/// A step of which a gate was told. Only `tell` makes one.
#[derive(Clone, Copy, Debug, PartialEq, Eq)]
pub(crate) struct Told {
    worker: u8,
    line: u32,
    place: GatePlace,
}

/// Tells the gate.
pub(crate) fn tell<G: Gate>(gate: &G, worker: u8, line: u32, place: GatePlace) -> Told
    ensures told { result ≡ record { worker = worker; line = line; place = place } }
    ensures heard { G.heard gate.now worker line place }
{
    gate.at(worker, line, place);
    Told {
        worker,
        line,
        place,
    }
}
