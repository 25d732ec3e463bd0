//! Whether an operation of a medium in memory finishes, fails, or is cut short by a stop.
ghost use Rattle.std.specs.Prelude.{◌≡◌};
ghost use Rattle.nl_nand.specs.Fate.{IsFate};

use crate::stop::{Cut, Stop};
use nl_field::FailList;

/// What becomes of an operation that is begun.
#[derive(Clone, Copy)]
pub enum Fate {
    Finishes,
    Fails,
    Stops(Cut),
}

/// What becomes of the operation of that number.
pub fn fate_of(stop: Option<Stop>, failing: &FailList, number: u64) -> Fate
    ensures { IsFate stop failing.now number result }
{
    if let Some(stop) = stop
        && stop.operation == number
    {
        return Fate::Stops(stop.cut);
    }
    if failing.has(number) {
        Fate::Fails
    } else {
        Fate::Finishes
    }
}
