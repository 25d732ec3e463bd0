// The device of a core is cleaned between two calls, so that a call finds room.
ghost use Rattle.std.specs.Prelude.{◌≡◌, ◌+◌, nat_le, true, false};
ghost use Rattle.nl_field.specs.CrashStates.{saturated};
ghost use Rattle.nl_calls_steps.specs.Calls.{counts_of};
ghost use Rattle.nl_core.specs.Core.{IsCore};
ghost use Rattle.nl_core.specs.Goes.{PreservesVolume};
ghost use Rattle.nl_core.specs.Writing.{stopped_on};
ghost use Rattle.nl_tree.specs.Causes.{FaultRose};

use nl_core::Core;
use nl_iface::{Counts, MovingPages};
use nl_nand::Nand;
use nl_pagemap::{Cleaning, Pagemap};
use nl_spec_commits::laws::device_stands;

/// Cleans blocks until so many pages are left, or none can be cleaned. False where the medium failed. The core stays the volume that it
/// was.
pub(crate) fn make_room<M: Nand>(core: &mut Core<Pagemap<M>>, wanted: u32) -> bool
    requires core { IsCore ⟦<Pagemap<M> as Counts>⟧ core.old }
    requires writes { core.old.stopped ≡ 0 }
    ensures core { IsCore ⟦<Pagemap<M> as Counts>⟧ core.new }
    ensures goes { PreservesVolume ⟦<Pagemap<M> as Counts>⟧ 0 core.old core.new }
    ensures flight { core.new.flight ≡ core.old.flight }
    ensures writes { result ≡ true → core.new.stopped ≡ 0 }
    ensures failed { result ≡ false
        → FaultRose (counts_of ⟦<Pagemap<M> as Counts>⟧ core.old.device) (counts_of ⟦<Pagemap<M> as Counts>⟧ core.new.device) }
{
    let most = core.shape.blocks;
    for turn in 0..most {
        let _ = turn;
        if wanted <= core.device.pages_left() {
            return true;
        }
        match clean_one(core) {
            Cleaning::Done => {}
            Cleaning::Nothing => return true,
            Cleaning::Fault => return false,
        }
    }
    true
}

/// Cleans one block. A fault is answered where the medium failed, and always where the core is read-only then.
fn clean_one<M: Nand>(core: &mut Core<Pagemap<M>>) -> Cleaning
    requires core { IsCore ⟦<Pagemap<M> as Counts>⟧ core.old }
    requires writes { core.old.stopped ≡ 0 }
    ensures core { IsCore ⟦<Pagemap<M> as Counts>⟧ core.new }
    ensures goes { PreservesVolume ⟦<Pagemap<M> as Counts>⟧ 0 core.old core.new }
    ensures flight { core.new.flight ≡ core.old.flight }
    ensures writes { (result ≡ Cleaning.Fault → ⊥) → core.new.stopped ≡ 0 }
    ensures failed { result ≡ Cleaning.Fault
        → FaultRose (counts_of ⟦<Pagemap<M> as Counts>⟧ core.old.device) (counts_of ⟦<Pagemap<M> as Counts>⟧ core.new.device) }
{
    let answer = clean_device(core);
    if core.stopped == 0 {
        answer
    } else {
        Cleaning::Fault
    }
}

/// Cleans one block, and notes whether a write failed: whoever holds a page holds it as before, also in what a stop within leaves.
fn clean_device<M: Nand>(core: &mut Core<Pagemap<M>>) -> Cleaning
    requires core { IsCore ⟦<Pagemap<M> as Counts>⟧ core.old }
    requires writes { core.old.stopped ≡ 0 }
    ensures core { IsCore ⟦<Pagemap<M> as Counts>⟧ core.new }
    ensures goes { PreservesVolume ⟦<Pagemap<M> as Counts>⟧ 0 core.old core.new }
    ensures flight { core.new.flight ≡ core.old.flight }
    ensures failed { result ≡ Cleaning.Fault
        → FaultRose (counts_of ⟦<Pagemap<M> as Counts>⟧ core.old.device) (counts_of ⟦<Pagemap<M> as Counts>⟧ core.new.device) }
{
    let faults = core.device.write_faults();
    device_stands(&core.device);
    let answer = core.device.clean();
    device_stands(&core.device);
    note_fault(core, faults);
    answer
}

/// The core is read-only from the first write on that failed.
fn note_fault<D: MovingPages>(core: &mut Core<D>, writes_before: u64)
    ensures { core.new ≡ record core.old { stopped = stopped_on D.Counts writes_before core.old core.old } }
{
    if core.stopped == 0 && rose(writes_before, core.device.write_faults()) {
        core.stopped = core.faults();
    }
}

/// A count rose, or stands at its end.
fn rose(before: u64, now: u64) -> bool
    ensures { result ≡ nat_le (saturated (before + 1)) now }
{
    before.saturating_add(1) <= now
}
