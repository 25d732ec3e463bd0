// What a call is answered on a core over a page-mapped device.
ghost use Rattle.std.specs.Prelude.{◌≡◌, ◌<◌, [], None, true};
ghost use Rattle.nl_pagemap_volume.specs.Serving.{CoreServes};
ghost use Rattle.nl_calls_steps.specs.Calls.{counts_of};
ghost use Rattle.nl_core.specs.Calls.{counted};
ghost use Rattle.nl_pagemap_volume.specs.Volume.{DoesCall, is_clean, refusing};
ghost use Rattle.nl_tree.specs.Calls.{IsBounded};
ghost use Rattle.nl_tree.specs.Causes.{fault_due, fault_sum, is_changing};
ghost use Rattle.nl_tree.specs.declared.call.Call.TheVariants.{Clean};
ghost use Rattle.nl_tree.specs.declared.reply.FaultReply.TheVariants.{Eio};
ghost use Rattle.nl_tree.specs.declared.reply.Reply.TheVariants.{Fault as FaultAnswer};

use crate::cleaning::make_room;
use crate::freeing::LAST_STAMP;
use crate::serving::serve_call;
use nl_calls::Answer;
use nl_core::Core;
use nl_field::PageBuf;
use nl_iface::{Counts, MovingPages};
use nl_nand::Nand;
use nl_pagemap::Pagemap;
use nl_tree::{Call, FaultReply, Reply, ReplyBuf};

/// More pages than one call programs under numbers.
const ROOM: u32 = 24;

/// A call is answered and counted. One that changes something is refused on a core that is read-only or whose write sequence numbers are
/// used up; before another one blocks are cleaned, so that it finds room, and it is not tried where that fails. A call for cleaning cleans
/// all blocks that can be.
pub(crate) fn answer<M: Nand>(
    core: &mut Core<Pagemap<M>>,
    worker: u8,
    call: &Call,
    files: u32,
    out: &mut ReplyBuf,
    page: &mut PageBuf,
) -> Answer
    requires serves { CoreServes ⟦<Pagemap<M> as Counts>⟧ files core.old }
    requires known { worker < 8 }
    requires bounded { IsBounded call.now }
    ensures serves { CoreServes ⟦<Pagemap<M> as Counts>⟧ result.files core.new }
    ensures does { DoesCall ⟦<Pagemap<M> as Counts>⟧ call.now core.old core.new result.reply out.new }
{
    out.clear();
    match refusal(core, call) {
        Some(fault) => without_effect(core, Reply::Fault(fault), files),
        None => try_call(core, worker, call, files, out, page),
    }
}

/// A call that is not refused.
fn try_call<M: Nand>(
    core: &mut Core<Pagemap<M>>,
    worker: u8,
    call: &Call,
    files: u32,
    out: &mut ReplyBuf,
    page: &mut PageBuf,
) -> Answer
    requires serves { CoreServes ⟦<Pagemap<M> as Counts>⟧ files core.old }
    requires known { worker < 8 }
    requires bounded { IsBounded call.now }
    requires due { fault_due (refusing ⟦<Pagemap<M> as Counts>⟧ core.old) call.now ≡ None }
    requires nothing { out.old ≡ [] }
    ensures serves { CoreServes ⟦<Pagemap<M> as Counts>⟧ result.files core.new }
    ensures does { DoesCall ⟦<Pagemap<M> as Counts>⟧ call.now core.old core.new result.reply out.new }
{
    if is_clean(call) {
        return clean_all(core, files);
    }
    if is_changing(call) {
        return change(core, worker, call, files, out, page);
    }
    serve_call(core, worker, call, files, out, page)
}

/// A call that changes something, on a core that can be written to.
fn change<M: Nand>(
    core: &mut Core<Pagemap<M>>,
    worker: u8,
    call: &Call,
    files: u32,
    out: &mut ReplyBuf,
    page: &mut PageBuf,
) -> Answer
    requires serves { CoreServes ⟦<Pagemap<M> as Counts>⟧ files core.old }
    requires known { worker < 8 }
    requires bounded { IsBounded call.now }
    requires due { fault_due (refusing ⟦<Pagemap<M> as Counts>⟧ core.old) call.now ≡ None }
    requires changes { is_changing call.now ≡ true }
    requires nothing { out.old ≡ [] }
    ensures serves { CoreServes ⟦<Pagemap<M> as Counts>⟧ result.files core.new }
    ensures does { DoesCall ⟦<Pagemap<M> as Counts>⟧ call.now core.old core.new result.reply out.new }
{
    let found = make_room(core, ROOM);
    if found {
        return serve_call(core, worker, call, files, out, page);
    }
    fail(core, files)
}

/// A call for cleaning, on a core that can be written to: all blocks are cleaned that can be.
fn clean_all<M: Nand>(core: &mut Core<Pagemap<M>>, files: u32) -> Answer
    requires serves { CoreServes ⟦<Pagemap<M> as Counts>⟧ files core.old }
    requires due { fault_due (refusing ⟦<Pagemap<M> as Counts>⟧ core.old) Clean ≡ None }
    ensures serves { CoreServes ⟦<Pagemap<M> as Counts>⟧ result.files core.new }
    ensures does { DoesCall ⟦<Pagemap<M> as Counts>⟧ Clean core.old core.new result.reply [] }
{
    let done = make_room(core, u32::MAX);
    if done {
        return without_effect(core, Reply::Done, files);
    }
    fail(core, files)
}

/// A call that is not tried since the medium failed: it is counted, and the tree stays.
fn fail<D: MovingPages>(core: &mut Core<D>, files: u32) -> Answer
    ensures counted { core.new ≡ counted core.old }
    ensures reply { result.reply ≡ FaultAnswer (Eio (fault_sum (counts_of D.Counts core.old.device))) }
    ensures files { result.files ≡ files }
{
    let fault = FaultReply::Eio(core.faults());
    without_effect(core, Reply::Fault(fault), files)
}

/// The call is counted, and the tree stays.
fn without_effect<D: MovingPages>(core: &mut Core<D>, reply: Reply, files: u32) -> Answer
    ensures counted { core.new ≡ counted core.old }
    ensures reply { result.reply ≡ reply }
    ensures files { result.files ≡ files }
{
    core.count_call();
    Answer { reply, files }
}

/// The fault that refuses a call before it is tried: it changes something, and the core is read-only or its write sequence numbers are used
/// up.
fn refusal<D: MovingPages>(core: &Core<D>, call: &Call) -> Option<FaultReply>
    ensures { result ≡ fault_due (refusing D.Counts core.now) call.now }
{
    if !is_changing(call) {
        return None;
    }
    if core.stopped != 0 {
        return Some(FaultReply::Erofs(core.stopped));
    }
    if LAST_STAMP <= core.device.next_stamp() {
        return Some(FaultReply::Eworn);
    }
    None
}

/// Whether a call does more than look.
fn is_changing(call: &Call) -> bool
    ensures { result ≡ is_changing call.now }
{
    match call {
        Call::Read(..) | Call::Stat(_) | Call::List(_) => false,
        _ => true,
    }
}

/// Whether it is the call for cleaning.
fn is_clean(call: &Call) -> bool
    ensures { result ≡ is_clean call.now }
{
    match call {
        Call::Clean => true,
        _ => false,
    }
}
