// A core, its calls, and the numbers that it tells.
ghost use Rattle.std.specs.Prelude.{◌≡◌, ◌≤◌, ◌^◌, false};

use crate::image::{fill_data, tag};
use crate::reading::flight_number;
use nl_core::{Core, Programmed, Rounded};
use nl_core_clean::Cleaned;
use nl_device::Device;
use nl_field::{PageBuf, Tag, VirtualWrite};
use nl_iface::{Counts, MovingPages};
use nl_journal::Committing;
use nl_nand::MemNand;
use nl_tree::{Duty, DutyAnswer};
use std::marker::Model;

/// A call of a core, or a number that it tells.
#[derive(Clone, Copy)]
pub enum Step {
    /// A call is answered that changes nothing.
    Call,
    Round,
    /// So many rounds, each behind a call, until one is not done.
    Rounds(u32),
    /// So many rounds without a call.
    Quiet(u32),
    Clean,
    Commit,
    Duty(Duty),
    /// So many tasks of that kind.
    Duties(Duty, u32),
    /// The callbacks of so many numbers from 1 on are handled.
    Handles(u64),
    /// So many pages behind those of a worker's line.
    Program(u8, u32),
    /// A staging of the sync of a worker: its goal is fixed, and a unit is done where it is not reached.
    Stage(u8),
    /// The effect of the sync of a worker, which tells how many calls are committed, and is a call itself.
    Sync(u8),
    /// These rows, one after the other, until an operation fails.
    Rows(&'static [(Step, Seen)]),
    Drop(u8),
    FreeBlocks,
    Pairs,
    Count,
    Committed,
    Stopped,
    /// The clock as the last commit page was finished.
    Moment,
    /// The programs and erases that finished.
    Clock,
}

/// What it answered.
#[derive(Clone, Copy, PartialEq)]
pub enum Seen {
    Number(u64),
    Did,
    Nothing,
    Lost,
    Fault,
    /// The volume is read-only.
    ReadOnly,
}

/// A core that runs.
#[derive(Drop)]
pub struct Rig {
    pub core: Core<Device<MemNand>>,
}

/// Whether no write may follow: one failed, or the write sequence numbers are beyond those of the tests.
fn is_read_only(core: &Core<Device<MemNand>>) -> bool
    ensures stopped { result ≡ false → core.now.stopped ≡ 0 }
    ensures stamp { result ≡ false → ⟦<Device<MemNand> as Counts>⟧.next_stamp core.now.device ≤ 2 ^ 40 }
{
    core.stopped != 0 || core.device.next_stamp() > 1 << 40
}

fn of_duty(answer: DutyAnswer) -> Seen {
    match answer {
        DutyAnswer::Did => Seen::Did,
        DutyAnswer::Nothing => Seen::Nothing,
        DutyAnswer::Lost { .. } => Seen::Lost,
        DutyAnswer::Fault => Seen::Fault,
    }
}

// What a unit answers, or that it was done.
fn of_write(answer: VirtualWrite, done: Seen) -> Seen {
    match answer {
        VirtualWrite::Done => done,
        VirtualWrite::Lost { .. } => Seen::Lost,
        VirtualWrite::Fault => Seen::Fault,
    }
}

impl Model for Rig {
    ghost use Rattle.nl_core.specs.Core.{IsCore};

    ghost Value = { Unit {0} };

    ghost view = { λ r. tt };

    ghost invariant = { λ r. IsCore ⟦<Device<MemNand> as Counts>⟧ r.core };
}

impl Rig {
    fn call(&mut self) {
        self.core.count_call();
    }

    fn round(&mut self) -> Seen {
        if is_read_only(&self.core) {
            return Seen::ReadOnly;
        }
        match self.core.round() {
            Rounded::Done => Seen::Did,
            Rounded::Lost { .. } => Seen::Lost,
            Rounded::Fault => Seen::Fault,
        }
    }

    fn rounds(&mut self, count: u32) -> Seen {
        for _ in 0..count {
            self.call();
            match self.round() {
                Seen::Did => {}
                answer => return answer,
            }
        }
        Seen::Did
    }

    fn quiet(&mut self, count: u32) -> Seen {
        for _ in 0..count {
            match self.round() {
                Seen::Did => {}
                answer => return answer,
            }
        }
        Seen::Did
    }

    fn clean(&mut self) -> Seen {
        if is_read_only(&self.core) {
            return Seen::ReadOnly;
        }
        match self.core.clean() {
            Cleaned::Done => Seen::Did,
            Cleaned::Nothing => Seen::Nothing,
            Cleaned::Lost { .. } => Seen::Lost,
            Cleaned::Fault => Seen::Fault,
        }
    }

    fn commit(&mut self) -> Seen {
        if is_read_only(&self.core) {
            return Seen::ReadOnly;
        }
        match self.core.commit() {
            Committing::Done(number) => Seen::Number(number),
            Committing::Lost { .. } => Seen::Lost,
            Committing::Fault => Seen::Fault,
        }
    }

    fn duty(&mut self, which: Duty) -> Seen {
        of_duty(self.core.duty(which))
    }

    /// How many of these tasks did something.
    fn duties(&mut self, which: Duty, count: u32) -> Seen {
        let mut done = 0u64;
        for _ in 0..count {
            if self.duty(which) == Seen::Did {
                done = done.saturating_add(1);
            }
        }
        Seen::Number(done)
    }

    fn handles(&mut self, last: u64) -> Seen {
        let mut done = 0u64;
        for number in 0..last {
            if self.duty(Duty::Handle(number.saturating_add(1))) == Seen::Did {
                done = done.saturating_add(1);
            }
        }
        Seen::Number(done)
    }

    /// How many pages the worker's line has.
    fn in_flight(&self, worker: u8) -> u32 {
        let mut count = 0u32;
        if worker < 8 {
            for place in 0..16 {
                if self.core.flight.get(worker, place).is_some() {
                    count = count.saturating_add(1);
                }
            }
        }
        count
    }

    fn program_one(&mut self, worker: u8, tag: Tag, from: &PageBuf) -> Seen {
        if worker >= 8 || self.core.flight.get(worker, 15).is_some() {
            return Seen::Nothing;
        }
        let line = self.core.flight.line(worker).max(1);
        match self.core.program(worker, line, tag, from) {
            Programmed::InFlight => Seen::Did,
            Programmed::Stopped => Seen::ReadOnly,
            Programmed::Lost { .. } => Seen::Lost,
            Programmed::Fault => Seen::Fault,
        }
    }

    /// Programs pages until one is not in flight.
    fn program(&mut self, worker: u8, count: u32, buf: &mut PageBuf) -> Seen {
        for _ in 0..count {
            let place = self.in_flight(worker);
            if worker >= 8 || place >= 16 {
                return Seen::Nothing;
            }
            let number = flight_number(worker, place);
            fill_data(number, buf);
            match self.program_one(worker, tag(number), buf) {
                Seen::Did => {}
                answer => return answer,
            }
        }
        Seen::Did
    }

    fn stage(&mut self, worker: u8) -> Seen {
        if is_read_only(&self.core) {
            return Seen::ReadOnly;
        }
        if worker >= 8 || self.core.flight.line(worker) > 1 {
            return Seen::Nothing;
        }
        let goal = self.core.fix_goal(worker, 1);
        if goal <= self.core.committed {
            return Seen::Nothing;
        }
        of_write(self.core.unit(), Seen::Did)
    }

    fn sync(&mut self, worker: u8) -> Seen {
        if is_read_only(&self.core) {
            return Seen::ReadOnly;
        }
        if worker >= 8 {
            return Seen::Nothing;
        }
        let count = self.core.count;
        let goal = self.core.flight.goal(worker).unwrap_or(count).min(count);
        self.core.drop_line(worker);
        let reached = self.core.reach(goal);
        let seen = of_write(reached, Seen::Number(self.core.committed));
        self.call();
        seen
    }

    /// Runs rows until an operation fails, or one answers something else.
    fn rows(&mut self, rows: &[(Step, Seen)], buf: &mut PageBuf) -> Seen {
        for row in rows {
            let seen = self.run_one(row.0, buf);
            if self.core.stopped != 0 {
                return Seen::Fault;
            }
            if seen != row.1 {
                return seen;
            }
        }
        Seen::Did
    }

    fn drop_line(&mut self, worker: u8) -> Seen {
        if worker < 8 {
            self.core.drop_line(worker);
        }
        Seen::Did
    }

    fn number(&self, step: Step) -> u64 {
        match step {
            Step::FreeBlocks => u64::from(self.core.device.free_blocks()),
            Step::Pairs => u64::from(self.core.device.pairs()),
            Step::Count => self.core.count,
            Step::Committed => self.core.committed,
            Step::Stopped => self.core.stopped,
            Step::Moment => self.core.moment,
            _ => self.core.device.clock(),
        }
    }

    fn run(&mut self, step: Step, buf: &mut PageBuf) -> Seen {
        match step {
            Step::Rows(rows) => self.rows(rows, buf),
            step => self.run_one(step, buf),
        }
    }

    /// Runs a step that is no table.
    fn run_one(&mut self, step: Step, buf: &mut PageBuf) -> Seen {
        match step {
            Step::Call => {
                self.call();
                Seen::Did
            }
            Step::Round => self.round(),
            Step::Rounds(count) => self.rounds(count),
            Step::Quiet(count) => self.quiet(count),
            Step::Clean => self.clean(),
            Step::Commit => self.commit(),
            Step::Duty(which) => self.duty(which),
            Step::Duties(which, count) => self.duties(which, count),
            Step::Handles(last) => self.handles(last),
            Step::Program(worker, count) => self.program(worker, count, buf),
            Step::Stage(worker) => self.stage(worker),
            Step::Sync(worker) => self.sync(worker),
            Step::Drop(worker) => self.drop_line(worker),
            step => Seen::Number(self.number(step)),
        }
    }

    /// The first row whose answer is another one, and what it is.
    pub fn differs(&mut self, rows: &[(Step, Seen)], buf: &mut PageBuf) -> Option<(usize, Seen)> {
        for (at, row) in rows.iter().enumerate() {
            let seen = self.run(row.0, buf);
            if seen != row.1 {
                return Some((at, seen));
            }
        }
        None
    }
}
