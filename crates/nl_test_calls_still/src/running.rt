// Calls on a core, as long as it can be written to.
ghost use Rattle.std.specs.Prelude.{◌≡◌, ◌≤◌, ◌^◌, false};
ghost use Rattle.nl_core.specs.Core.{IsCore};

use nl_core::{Core, Programmed};
use nl_field::{PageBuf, Tag};
use nl_iface::{Counts, MovingPages};
use nl_journal::Committing;
use nl_testkit_still::Still;

/// Whether no write may follow: one failed, or the write sequence numbers are beyond those of the tests.
pub fn is_read_only(core: &Core<Still>) -> bool
    ensures stopped { result ≡ false → core.now.stopped ≡ 0 }
    ensures stamp { result ≡ false → ⟦<Still as Counts>⟧.next_stamp core.now.device ≤ 2 ^ 40 }
{
    core.stopped != 0 || core.device.next_stamp() > 1 << 40
}

/// Programs so many pages for a worker's line. How many are in flight then of those.
pub fn program(core: &mut Core<Still>, worker: u8, count: u32, buf: &PageBuf) -> u32
    requires core { IsCore ⟦<Still as Counts>⟧ core.old }
    ensures core { IsCore ⟦<Still as Counts>⟧ core.new }
{
    let mut done = 0u32;
    for number in 0..count {
        let tag = Tag {
            ino: 1,
            generation: 0,
            index: number,
        };
        if program_one(core, worker, tag, buf) {
            done = done.saturating_add(1);
        }
    }
    done
}

/// Whether the page is in flight.
fn program_one(core: &mut Core<Still>, worker: u8, tag: Tag, buf: &PageBuf) -> bool
    requires core { IsCore ⟦<Still as Counts>⟧ core.old }
    ensures core { IsCore ⟦<Still as Counts>⟧ core.new }
{
    if worker >= 8 || core.flight.get(worker, 15).is_some() {
        return false;
    }
    let line = core.flight.line(worker).max(1);
    match core.program(worker, line, tag, buf) {
        Programmed::InFlight => true,
        Programmed::Stopped | Programmed::Lost { .. } | Programmed::Fault => false,
    }
}

/// The pages of the worker's line are given up.
pub fn drop_line(core: &mut Core<Still>, worker: u8)
    requires core { IsCore ⟦<Still as Counts>⟧ core.old }
    ensures core { IsCore ⟦<Still as Counts>⟧ core.new }
{
    if worker < 8 {
        core.drop_line(worker);
    }
}

/// The number of the transaction that makes all calls so far take effect. None where it was not made.
pub fn commit(core: &mut Core<Still>) -> Option<u64>
    requires core { IsCore ⟦<Still as Counts>⟧ core.old }
    ensures core { IsCore ⟦<Still as Counts>⟧ core.new }
{
    if is_read_only(core) {
        return None;
    }
    match core.commit() {
        Committing::Done(number) => Some(number),
        Committing::Lost { .. } | Committing::Fault => None,
    }
}
