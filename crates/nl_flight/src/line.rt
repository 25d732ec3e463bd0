//! The line of one worker in flight, with the pages that were programmed for it.
ghost use Rattle.std.specs.Prelude.{◌≡◌, ◌<◌, ◌++◌, ◌∷◌, [], length, map, Some, IfOk, slice_index_or, vec_capacity};
ghost use Rattle.nl_flight.specs.Flight.{InFlight, begun, line_has_stamp, renamed_line, renamed_page};

use crate::page::FlightPage;
use nl_field::Memory;
use std::alloc::Global;
use std::marker::Model;

// Sixteen whole pages, and two partial ones.
const PLACES: usize = 18;

/// One worker's line, with room for its pages.
#[derive(Drop)]
pub(crate) struct WorkerLine {
    line: u32,
    fault: u64,
    goal: Option<u64>,
    pages: Vec<FlightPage>,
}

impl Model for WorkerLine {
    ghost use Rattle.std.specs.Prelude.{◌≤◌, vec_capacity};
    ghost use Rattle.nl_flight.specs.Flight.{InFlight};

    ghost Value = { InFlight };

    ghost view = { λ l. record { line = l.line; fault = l.fault; goal = l.goal; pages = l.pages.items } };

    ghost invariant = { λ l. 18 ≤ vec_capacity l.pages };
}

fn renamed_page(page: FlightPage, stamp: u64, to: u32) -> FlightPage
    ensures { result ≡ renamed_page stamp to page }
{
    let mut page = page;
    if page.at.stamp == stamp {
        page.at.name = to;
    }
    page
}

fn rename_pages(pages: &mut Vec<FlightPage>, stamp: u64, to: u32)
    ensures items { pages.new.items ≡ map (renamed_page stamp to) pages.old.items }
    ensures capacity { vec_capacity pages.new ≡ vec_capacity pages.old }
{
    for at in 0..pages.len() {
        pages[at] = renamed_page(pages[at], stamp, to);
    }
}

impl WorkerLine {
    /// No line, with room for eighteen pages. `Memory` where there is none for them.
    pub fn new(alloc: Global) -> Result<WorkerLine, Memory>
        ensures { IfOk result (λ now. now ≡ begun 0) }
    {
        let pages = Vec::with_capacity(alloc, PLACES)?;
        Ok(WorkerLine {
            line: 0,
            fault: 0,
            goal: None,
            pages,
        })
    }

    /// The number of the line, 0 for none.
    pub fn line(&self) -> u32
        ensures { result ≡ self.now.line }
    {
        self.line
    }

    /// The sum of both fault counts after the last failed stage of the line, 0 for none.
    pub fn fault(&self) -> u64
        ensures { result ≡ self.now.fault }
    {
        self.fault
    }

    /// The count of calls that the line has to reach, where it is fixed.
    pub fn goal(&self) -> Option<u64>
        ensures { result ≡ self.now.goal }
    {
        self.goal
    }

    /// How many pages are in flight for the line, 18 at most.
    pub fn len(&self) -> usize
        ensures { result ≡ length self.now.pages }
    {
        self.pages.len()
    }

    /// The page at a place below the length, in the order in which pages were added.
    pub fn get(&self, at: usize) -> FlightPage
        requires { at < length self.now.pages }
        ensures { (page : FlightPage) → result ≡ slice_index_or self.now.pages at page }
    {
        self.pages[at]
    }

    /// Ends what was in flight, and begins a line, 0 for none.
    pub fn restart(&mut self, line: u32)
        ensures { self.new ≡ begun line }
    {
        self.line = line;
        self.fault = 0;
        self.goal = None;
        self.pages.clear();
    }

    /// Keeps the sum of both fault counts after a stage that failed.
    pub fn set_fault(&mut self, sum: u64)
        ensures { self.new ≡ record { line = self.old.line; fault = sum; goal = self.old.goal; pages = self.old.pages } }
    {
        self.fault = sum;
    }

    /// Fixes the count of calls that the line has to reach.
    pub fn set_goal(&mut self, goal: u64)
        ensures { self.new ≡ record { line = self.old.line; fault = self.old.fault; goal = Some goal; pages = self.old.pages } }
    {
        self.goal = Some(goal);
    }

    /// Adds a page behind the others, of which there are fewer than 18. It takes no memory.
    pub fn push(&mut self, page: FlightPage)
        requires { length self.old.pages < 18 }
        ensures { self.new
            ≡ record { line = self.old.line; fault = self.old.fault; goal = self.old.goal; pages = self.old.pages ++ page ∷ [] } }
    {
        self.pages.push_reserved(page);
    }

    /// Whether a page of the line has this write sequence number.
    pub fn has_stamp(&self, stamp: u64) -> bool
        ensures { result ≡ line_has_stamp stamp self.now }
    {
        self.pages.iter().any(|page| page.at.stamp == stamp)
    }

    /// Gives each page of this write sequence number the name.
    pub fn rename(&mut self, stamp: u64, to: u32)
        ensures { self.new ≡ renamed_line stamp to self.old }
    {
        rename_pages(&mut self.pages, stamp, to);
    }
}
