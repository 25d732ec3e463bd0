//! Steps of small volumes on worked rows, right ones and wrong ones.
ghost use Rattle.std.specs.Prelude.{◌≡◌};
ghost use Rattle.nl_spec_holders.specs.Examples.{acknowledged_early, renamed_to_after, flight_overlooked, freed_early, name_trusted, handled_for_frozen, freed_for_frozen, in_order};
ghost use Rattle.nl_spec_holders.specs.Holding.{HoldsPages, KeepsCommitted};

/// A volume that acknowledges a move as it handles it, before its transaction counts, does not keep what is committed.
pub fn acknowledges_early()
    ensures { KeepsCommitted acknowledged_early → ⊥ }
{}

/// A handler that takes a callback's place for the name, without resolving it, leaves a live page that nobody holds.
pub fn renames_to_after()
    ensures { HoldsPages renamed_to_after → ⊥ }
{}

/// A handler that overlooks pages in flight leaves one under an old name, with its callback handled.
pub fn overlooks_flight()
    ensures { HoldsPages flight_overlooked → ⊥ }
{}

/// A volume that frees the old page as it installs the new one does not keep what is committed.
pub fn frees_early()
    ensures { KeepsCommitted freed_early → ⊥ }
{}

/// An opening that trusts a name without its stamp leaves a live page that nobody holds.
pub fn trusts_names()
    ensures { HoldsPages name_trusted → ⊥ }
{}

/// A volume that counts what it handles for the frozen transaction does not keep what is committed.
pub fn handles_for_frozen()
    ensures { KeepsCommitted handled_for_frozen → ⊥ }
{}

/// A volume in which a page is due that the committed metadata still has does not keep it.
pub fn frees_for_frozen()
    ensures { KeepsCommitted freed_for_frozen → ⊥ }
{}

/// A volume that counts the callback for the next transaction holds its pages and keeps what is committed.
pub fn is_in_order()
    ensures held { HoldsPages in_order }
    ensures safe { KeepsCommitted in_order }
{}
