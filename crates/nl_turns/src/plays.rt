//! What each step on the table tells.
use crate::kept::{Kept, Opens};
use crate::table::SeatView;
use atomic_table::{Join, Play, Split};
use std::marker::{Brand, PhantomData};

/// Picks the opening.
pub(crate) struct Begin<O> {
    picked: PhantomData<O>,
}

impl<V, O: Opens> Play<Option<V>, SeatView> for Begin<O> {
    ghost use Rattle.nl_turns.specs.Steps.{begins};

    ghost then = { begins O.opening };
}

/// Draws a ticket.
pub(crate) struct Draw;

impl<V> Play<Option<V>, SeatView> for Draw {
    ghost use Rattle.nl_turns.specs.Steps.{draws};

    ghost then = { draws };
}

/// The origin of the lock. A step knows nothing of its table, so each call picks it.
pub(crate) trait Origin<V> {
    ghost use Rattle.std.specs.Prelude.{Option};

    ghost origin: { Option V };
}

impl<V> Origin<V> for Brand {
    ghost use Rattle.std.specs.Prelude.{None};

    ghost origin = { None };
}

/// Looks at the count of turns that were passed.
pub(crate) struct Look<O> {
    picked: PhantomData<O>,
}

impl<V: Kept, O: Origin<V>> Play<Option<V>, SeatView> for Look<O> {
    ghost use Rattle.nl_turns.specs.Rule.{by_entries};
    ghost use Rattle.nl_turns.specs.Steps.{looks, from_origin};

    ghost then = { looks (by_entries (from_origin V.stands O.origin)) };
}

pub(crate) struct Park;

impl<V> Play<Option<V>, SeatView> for Park {
    ghost use Rattle.nl_turns.specs.Steps.{parks};

    ghost then = { parks };
}

pub(crate) struct Fetch;

impl<V> Play<Option<V>, SeatView> for Fetch {
    ghost use Rattle.nl_turns.specs.Steps.{fetches};

    ghost then = { fetches };
}

/// The entry that a step adds. Each call picks it.
pub(crate) trait Says {
    ghost use Rattle.nl_turns.specs.declared.entry.Entry.{Entry};

    ghost entry: { Entry };
}

impl Says for Brand {
    ghost use Rattle.nl_tree.specs.declared.turn.DutyAnswer.TheVariants.{Nothing};
    ghost use Rattle.nl_turns.specs.Served.{duty_entry};

    ghost entry = { duty_entry Nothing };
}

pub(crate) struct Add<E> {
    said: PhantomData<E>,
}

impl<V, E: Says> Play<Option<V>, SeatView> for Add<E> {
    ghost use Rattle.nl_turns.specs.Steps.{adds};

    ghost then = { adds E.entry };
}

pub(crate) struct Settle;

impl<V> Play<Option<V>, SeatView> for Settle {
    ghost use Rattle.nl_turns.specs.Steps.{settles};

    ghost then = { settles };
}

pub(crate) struct Seats;

impl Split<SeatView> for Seats {
    ghost use Rattle.nl_turns.specs.Steps.{after_split, newcomer};

    ghost left = { after_split };

    ghost right = { newcomer };
}

impl Join<SeatView> for Seats {
    ghost use Rattle.nl_turns.specs.Steps.{after_join, spent_view};

    ghost both = { after_join };

    ghost spent = { spent_view };
}
