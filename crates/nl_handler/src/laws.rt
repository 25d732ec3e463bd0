//! Laws of the handling of a callback: who holds live pages after it, and that no page in memory is lost. A function stands for each law.
ghost use Rattle.nl_handler.specs.Laws.{FlightRenames, FreeingRenames, HandlerChangesPages, HandlerKeeps, StoredRenames};

use nl_iface::NamedPages;

/// Of those that hold live pages, one has another name, and wants the page that it wanted.
pub fn holders_renamed()
    ensures stored { StoredRenames }
    ensures flight { FlightRenames }
    ensures freeing { FreeingRenames }
{}

/// Where each live page is held once, the page of a callback that is pending has a holder, so that `handle` never answers `Gone`, and
/// where it answers `Renamed` the holders are those before, one under the name.
pub fn handler_keeps<D: NamedPages>()
    ensures { HandlerKeeps D.Counts }
{}

/// However `handle` answers, it loses no page that is resident, thaws none, and makes none of the journal's resident.
pub fn handler_changes_pages<D: NamedPages>()
    ensures { HandlerChangesPages D.Counts }
{}
