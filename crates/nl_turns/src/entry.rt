//! The entry that a history has of one turn.
ghost use Rattle.std.specs.Prelude.{◌≡◌};
ghost use Rattle.nl_turns.specs.Served.{stage_entry, effect_entry, duty_entry};

use nl_tree::{DutyAnswer, FaultReply, Reply, Stage};

/// The fault reply of an effect, if it had one.
#[derive(Clone, Copy, Debug, PartialEq, Eq)]
pub enum FaultMark {
    NoFault,
    /// The effect had this fault reply.
    Fault(FaultReply),
}

/// The numbers of a sync that was answered ok: the count of calls that a stop can no longer lose, and the moment of the last commit
/// page then, by the medium's clock.
#[derive(Clone, Copy, Debug, PartialEq, Eq)]
pub enum SyncMark {
    NoSync,
    /// The sync made so many calls durable, at this moment of the medium's clock.
    At { upto: u64, moment: u64 },
}

/// What one turn did: the effect of a line, the staging of one page or unit of a line, or a background task, which has neither line.
#[derive(Clone, Copy, Debug, PartialEq, Eq)]
pub struct Entry {
    /// The line whose effect the turn was, or 0.
    pub line: u32,
    /// The line for which the turn staged, or 0.
    pub staged: u32,
    /// Whether that staging put a page in flight or did a unit, so that more may be left.
    pub more: bool,
    /// Whether the staging or the background task found a page without the wanted stamp. An effect that finds one tells it by its fault,
    /// and is not counted here.
    pub lost: bool,
    pub fault: FaultMark,
    pub synced: SyncMark,
}

impl Entry {
    /// The entry of a turn that staged for a line.
    pub fn of_stage(line: u32, answer: Stage) -> Entry
        ensures { result ≡ stage_entry line answer }
    {
        Entry {
            line: 0,
            staged: line,
            more: matches!(answer, Stage::Staged),
            lost: matches!(answer, Stage::Lost { .. }),
            fault: FaultMark::NoFault,
            synced: SyncMark::NoSync,
        }
    }

    /// The entry of a turn with a line's effect, with the fault of its reply, or the numbers of a sync.
    pub fn of_effect(line: u32, reply: Reply) -> Entry
        ensures { result ≡ effect_entry line reply }
    {
        let mut entry = Entry::of_duty(DutyAnswer::Did);
        entry.line = line;
        match reply {
            Reply::Fault(fault) => entry.fault = FaultMark::Fault(fault),
            Reply::Synced { upto, moment } => entry.synced = SyncMark::At { upto, moment },
            _ => {}
        }
        entry
    }

    /// The entry of a turn with a background task.
    pub fn of_duty(answer: DutyAnswer) -> Entry
        ensures { result ≡ duty_entry answer }
    {
        Entry {
            line: 0,
            staged: 0,
            more: false,
            lost: matches!(answer, DutyAnswer::Lost { .. }),
            fault: FaultMark::NoFault,
            synced: SyncMark::NoSync,
        }
    }
}
