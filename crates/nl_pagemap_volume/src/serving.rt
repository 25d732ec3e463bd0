// A core that does the calls of one thread, one after the other.
ghost use Rattle.std.specs.Prelude.{◌≡◌, ◌+◌, ◌<◌, ◌&&◌, IfSome, is_none};
ghost use Rattle.nl_field.specs.CrashStates.{saturated};
ghost use Rattle.nl_calls.specs.Answering.{AnswersOn, MayTry, is_sync_call, is_synced};
ghost use Rattle.nl_calls_steps.specs.Calls.{counts_of};
ghost use Rattle.nl_core.specs.Goes.{TurnsReadOnly};
ghost use Rattle.nl_pagemap_volume.specs.Serving.{CoreServes, StampsPaid, TakesStep, TellsAllCalls};
ghost use Rattle.nl_tree.specs.Calls.{IsBounded};
ghost use Rattle.nl_tree.specs.Causes.{FaultWithin, NeverFall, fault_in};

use nl_calls::{Answer, answer_call};
use nl_core::Core;
use nl_field::PageBuf;
use nl_iface::MovingPages;
use nl_tree::{Call, ReplyBuf};

/// A call takes effect and is counted: its reply, with the bytes that belong to it in the buffer, and how many pages files have then. A
/// call that changes something comes only where the core can be written to. The reply is that of the step of the tree as which the core
/// runs, or a fault that has its cause within the call; from then on the core runs as the tree after that step, which a fault leaves. A
/// sync without a fault tells how many calls came before it, all of which are committed then, and no other call does. The core is read-only
/// from the first write on that fails.
pub fn serve_call<D: MovingPages>(
    core: &mut Core<D>,
    worker: u8,
    call: &Call,
    files: u32,
    out: &mut ReplyBuf,
    page: &mut PageBuf,
) -> Answer
    requires serves { CoreServes D.Counts files core.old }
    requires known { worker < 8 }
    requires bounded { IsBounded call.now }
    requires may { MayTry D.Counts call.now core.old }
    ensures serves { CoreServes D.Counts result.files core.new }
    ensures answers { AnswersOn D.Counts call.now core.old result.reply out.new }
    ensures steps { TakesStep D.Counts call.now core.old core.new result.reply }
    ensures cause { IfSome (fault_in result.reply)
        (FaultWithin D.tells (counts_of D.Counts core.old.device) (counts_of D.Counts core.new.device)) }
    ensures synced { is_synced result.reply ≡ (is_sync_call call.now && is_none (fault_in result.reply)) }
    ensures numbers { TellsAllCalls core.old core.new result.reply }
    ensures counted { core.new.count ≡ saturated (core.old.count + 1) }
    ensures counts { NeverFall (counts_of D.Counts core.old.device) (counts_of D.Counts core.new.device) }
    ensures same_shape { D.shape core.new.device ≡ D.shape core.old.device }
    ensures stops { TurnsReadOnly D.Counts core.old core.new }
    ensures stamps { StampsPaid D.Counts core.old.device core.new.device }
{
    out.clear();
    let answer = answer_call(core, worker, 1, call, files, out, page);
    core.count_call();
    answer
}
