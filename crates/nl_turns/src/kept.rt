//! A value with the opening and the history that explain it.
use std::marker::Brand;

/// A value that an opening and the history of its turns explain. `Turns` keeps it.
pub trait Kept {
    ghost use Rattle.std.specs.Prelude.{List};
    ghost use Rattle.nl_turns.specs.History.{Opening};
    ghost use Rattle.nl_turns.specs.declared.entry.Entry.{Entry};

    /// For which opening and history the value stands. The first value is the origin, with which the lock was made: what its medium
    /// had left before is no part of the run.
    ghost stands: { Self → Opening → List Entry → Self → Type 0 };
}

/// The opening of a lock. The call that makes the lock picks it.
pub trait Opens {
    ghost use Rattle.nl_turns.specs.History.{Opening};

    ghost opening: { Opening };
}

impl Opens for Brand {
    ghost use Rattle.nl_turns.specs.View.{no_opening};

    ghost opening = { no_opening };
}
