//! The lines of eight workers in flight, each with its pages, and the calls that begin, fill and end them.
ghost use Rattle.std.specs.Prelude.{◌≡◌, ℕ, ◌+◌, ◌<◌, ◌≤◌, ◌↔◌, [], ◌∷◌, ◌++◌, length, slice_get, Some, None, IsTrue, IsNone, IfOk, IfSome};
ghost use Rattle.nl_field.specs.declared.pointer.Pointer.{Pointer};
ghost use Rattle.nl_field.specs.declared.pointer.Tag.{Tag};
ghost use Rattle.nl_flight.specs.Flight.{HasFlightRoom, InFlight, IsFlight, begun, has_stamp, nothing, of_worker, renamed, with_line};

use crate::Memory;
use crate::line::WorkerLine;
use crate::page::FlightPage;
use nl_field::{Pointer, Tag};
use std::alloc::Global;
use std::marker::Model;

// Workers 0 to 7.
const WORKERS: usize = 8;

/// What is in flight: for each worker of 0 to 7 at most one line, the fault of its staging, the goal of a sync, and the pages
/// that were programmed for it. A worker has sixteen places for pages, and two more are there for all. No call but `new`
/// takes memory.
#[derive(Drop)]
pub struct Flight {
    lines: Vec<WorkerLine>,
}

impl Model for Flight {
    ghost use Rattle.std.specs.Prelude.{List};
    ghost use Rattle.nl_flight.specs.Flight.{InFlight, IsFlight};

    ghost Value = { List InFlight };

    ghost view = { λ f. f.lines.items };

    ghost invariant = { λ f. IsFlight f.lines.items };
}

fn rename_lines(lines: &mut Vec<WorkerLine>, stamp: u64, to: u32)
    ensures { lines.new.items ≡ renamed stamp to lines.old.items }
{
    for worker in 0..lines.len() {
        lines[worker].rename(stamp, to);
    }
}

impl Flight {
    /// Nothing is in flight.
    pub fn new(alloc: Global) -> Result<Flight, Memory>
        ensures none { IfOk result (λ flight. flight ≡ nothing) }
    {
        let mut lines = Vec::with_capacity(alloc, WORKERS)?;
        'made: for _ in 0..WORKERS {
            lines.push(WorkerLine::new(alloc)?)?;
        }
        Ok(Flight { lines })
    }

    /// The worker's line in flight, 0 for none.
    pub fn line(&self, worker: u8) -> u32
        requires known { worker < 8 }
        ensures line { result ≡ (of_worker self.now worker).line }
        ensures flight { IsFlight self.now }
    {
        self.lines[worker as usize].line()
    }

    /// The sum of both fault counts after the last failed stage of the worker's line, 0 for none.
    pub fn fault(&self, worker: u8) -> u64
        requires known { worker < 8 }
        ensures fault { result ≡ (of_worker self.now worker).fault }
    {
        self.lines[worker as usize].fault()
    }

    /// The count of calls that the worker's line has to reach as a sync. None exactly where the line has no goal.
    pub fn goal(&self, worker: u8) -> Option<u64>
        requires known { worker < 8 }
        ensures goal { result ≡ (of_worker self.now worker).goal }
    {
        self.lines[worker as usize].goal()
    }

    /// Index, pointer and owner of the worker's page of that place, from 0. None exactly where it has no more than so many.
    pub fn get(&self, worker: u8, i: u32) -> Option<(u32, Pointer, Tag)>
        requires known { worker < 8 }
        ensures some { IfSome result (λ found. slice_get (of_worker self.now worker).pages i
            ≡ Some (record { index = found.0; at = found.1; tag = found.2 })) }
        ensures none { IsNone result ↔ length (of_worker self.now worker).pages ≤ i }
    {
        let line = &self.lines[worker as usize];
        if i as usize >= line.len() {
            return None;
        }
        let page = line.get(i as usize);
        Some((page.index, page.at, page.tag))
    }

    /// Begins a line of a worker that has none.
    pub fn begin(&mut self, worker: u8, line: u32)
        requires known { worker < 8 }
        requires none { (of_worker self.old worker).line ≡ 0 }
        requires some { 0 < line }
        ensures begun { self.new ≡ with_line self.old worker (begun line) }
    {
        self.lines[worker as usize].restart(line);
    }

    /// Ends the worker's line: it has none, no page, no fault and no goal.
    pub fn clear(&mut self, worker: u8)
        requires known { worker < 8 }
        ensures cleared { self.new ≡ with_line self.old worker (begun 0) }
    {
        self.lines[worker as usize].restart(0);
    }

    /// Keeps the sum of both fault counts after a stage that failed.
    pub fn set_fault(&mut self, worker: u8, sum: u64)
        requires known { worker < 8 }
        ensures kept { let was = of_worker self.old worker in self.new
            ≡ with_line self.old worker (record { line = was.line; fault = sum; goal = was.goal; pages = was.pages }) }
    {
        self.lines[worker as usize].set_fault(sum);
    }

    /// Fixes the count of calls that the worker's line has to reach.
    pub fn set_goal(&mut self, worker: u8, goal: u64)
        requires known { worker < 8 }
        requires some { 0 < (of_worker self.old worker).line }
        ensures fixed { let was = of_worker self.old worker in self.new
            ≡ with_line self.old worker (record { line = was.line; fault = was.fault; goal = Some goal; pages = was.pages }) }
    {
        self.lines[worker as usize].set_goal(goal);
    }

    /// Puts a page behind the others of the worker's line.
    pub fn put(&mut self, worker: u8, index: u32, at: Pointer, tag: Tag)
        requires known { worker < 8 }
        requires some { 0 < (of_worker self.old worker).line }
        requires place { HasFlightRoom self.old worker }
        ensures put { let was = of_worker self.old worker in self.new ≡ with_line self.old worker
            (record { line = was.line; fault = was.fault; goal = was.goal; pages = was.pages ++ record { index = index; at = at; tag = tag } ∷ [] }) }
    {
        self.lines[worker as usize].push(FlightPage { index, at, tag });
    }

    /// Gives the page of this write sequence number the name `to`. False exactly where none has it.
    #[tactic(auto, using(crate::proofs::Renaming::still))]
    pub fn rename(&mut self, stamp: u64, to: u32) -> bool
        ensures found { result ≡ has_stamp self.old stamp }
        ensures renamed { self.new ≡ renamed stamp to self.old }
    {
        let found = self.lines.iter().any(|line| line.has_stamp(stamp));
        rename_lines(&mut self.lines, stamp, to);
        found
    }
}
