// A volume on which no call succeeds, for tests of what takes turns with one.
ghost use Rattle.std.specs.Prelude.{◌≡◌, ◌+◌, ⊤};

use nl_tree::{Answered, Call, Duty, DutyAnswer, FaultReply, Reply, ReplyBuf, Stage};
use nl_turns::{Kept, Served};

const WORKERS: usize = 256;

/// A volume whose medium fails each read, so that no call succeeds. It stages one page of a line before each effect. It has few free
/// blocks, and each copy posts a callback.
#[derive(Drop)]
pub struct FailingVolume {
    /// The count of calls, at most 2^64 - 1.
    pub calls: u64,
    /// The effects so far, at most 2^64 - 1.
    pub done: u64,
    /// The failed reads so far, at most 2^64 - 1.
    pub faults: u64,
    /// The callbacks so far, at most 2^64 - 1.
    posted: u64,
    /// The line of which a page is staged, for each worker, or 0.
    staged: [u32; 256],
}

impl FailingVolume {
    /// A volume without calls, effects and failed reads.
    pub fn new() -> Self
        ensures calls { result.calls ≡ 0 }
        ensures done { result.done ≡ 0 }
        ensures faults { result.faults ≡ 0 }
    {
        FailingVolume {
            calls: 0,
            done: 0,
            faults: 0,
            posted: 0,
            staged: [0; WORKERS],
        }
    }
}

impl Kept for FailingVolume {
    ghost use Rattle.nl_test_workers.specs.Failing.{FailingStands};

    ghost stands = { λ _ o h v. FailingStands o h v.calls v.done v.faults };
}

impl Served for FailingVolume {
    ghost use Rattle.std.specs.Prelude.{⊤};
    ghost use Rattle.std.specs.Prelude.{None, refl};
    ghost use Rattle.nl_test_workers.specs.Failing.{failing_counts, pages_to_stage, refuses_none};

    ghost tells = { ⊤ };

    ghost counts = { λ v. failing_counts v.faults };

    ghost refusing = { λ _ _ _. refuses_none };

    ghost read_only = { λ _. None };

    ghost to_stage = { λ v. pages_to_stage v.staged };

    ghost posted = { λ v. v.posted };

    ghost free_blocks = { λ _. 5 };

    fn stage(&mut self, worker: u8, line: u32, _call: &Call) -> Stage {
        let at = usize::from(worker);
        if self.staged[at] == line {
            return Stage::Whole;
        }
        self.staged[at] = line;
        Stage::Staged
    }

    fn effect(&mut self, worker: u8, _line: u32, _call: &Call, out: &mut ReplyBuf) -> Answered {
        self.staged[usize::from(worker)] = 0;
        self.calls = self.calls.saturating_add(1);
        self.done = self.done.saturating_add(1);
        self.faults = self.faults.saturating_add(1);
        out.clear();
        Answered {
            place: self.calls,
            ordinal: self.done,
            reply: Reply::Fault(FaultReply::Eio(self.faults)),
        }
    }

    fn duty(&mut self, which: Duty) -> DutyAnswer {
        match which {
            Duty::Copy => {
                self.posted = self.posted.saturating_add(1);
                DutyAnswer::Did
            }
            Duty::Handle(_) => DutyAnswer::Did,
            _ => DutyAnswer::Nothing,
        }
    }

    fn posted(&self) -> u64 {
        self.posted
    }

    fn free_blocks(&self) -> u32 {
        5
    }

    ghost since = { λ v w o h s. s.since };

    ghost one_number = { λ v w l. refl };
}
