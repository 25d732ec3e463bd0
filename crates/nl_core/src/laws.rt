//! Laws of a core between two calls: what it stores, where its pages in flight lead, how many pages files have. A function stands for each.
ghost use Rattle.std.specs.Prelude.{◌≡◌};
ghost use Rattle.nl_core.specs.Core.{IsCore};
ghost use Rattle.nl_core.specs.LastCommit.{CommitRows};
ghost use Rattle.nl_core.specs.Laws.{FlightLeads, PagesStayAsMany, StoredOpens};

use crate::state::Core;
use nl_iface::MovingPages;
use nl_spec_commits::laws::device_stands;

/// While no write has failed, what a core stores can be opened: it opens as the tree that is committed.
pub fn stored_opens<D: MovingPages>(core: &Core<D>)
    requires core { IsCore D.Counts core.now }
    requires writes { core.now.stopped ≡ 0 }
    ensures { StoredOpens D.Counts core.now }
{
    device_stands(&core.device);
}

/// Each page in flight is live where its pointer leads, with its owner and its write sequence number. The pointer can be stored: its number
/// is spelled, and its name is one of the physical segment.
pub fn flight_leads<D: MovingPages>(core: &Core<D>)
    requires core { IsCore D.Counts core.now }
    ensures { FlightLeads D.Counts core.now }
{
    device_stands(&core.device);
}

/// Where nodes are the same but for names of pages, files have as many pages.
pub fn pages_stay_as_many()
    ensures { PagesStayAsMany }
{}

/// The last commit stays where a call is counted, and does not where its moment or its count of calls is another one.
pub fn commit_stays<D: MovingPages>()
    ensures { CommitRows D.Counts }
{}
