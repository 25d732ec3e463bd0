//! The table of the lock. Word 0 counts the tickets drawn, word 1 the turns passed, both modulo 2^64. The one slot holds the value.
use crate::kept::Kept;
use atomic_table::{Seat, Shared, Table, TableRule};
use std::alloc::Global;
use std::marker::Model;
use std::snapshot::Snapshot;

/// What the rule knows of a seat. No value of it is ever made.
pub struct SeatView {
    never: Never,
}

enum Never {}

impl Model for SeatView {
    ghost use Rattle.nl_turns.specs.View.{View};
    ghost use Rattle.nl_turns.specs.Steps.{spent_view};

    ghost Value = { View };

    ghost view = { λ _. spent_view };
}

/// What the lock is told when it is made: its origin, and how many seats it has.
#[derive(Drop)]
pub struct About<V> {
    pub value: Snapshot<V>,
    pub seats: u32,
}

/// The rule of the lock, as the table wants it. No value of it is needed.
pub struct TicketLock;

impl<V: Kept> TableRule<Option<V>, SeatView, About<V>> for TicketLock {
    ghost use Rattle.nl_turns.specs.Rule.{IsLock, blank_view, by_entries};

    ghost holds = { λ a. IsLock (by_entries (V.stands a.value.value)) a.value.value a.seats };

    ghost first = { λ a. blank_view a.seats };
}

/// The table of a lock over a value of this type.
pub type Board<V> = Table<Option<V>, SeatView, About<V>, TicketLock, Global>;

/// The table as the seats share it.
pub type Top<V> = Shared<Option<V>, SeatView, About<V>, TicketLock>;

/// A seat at the table.
pub type Place<V> = Seat<Option<V>, SeatView>;
