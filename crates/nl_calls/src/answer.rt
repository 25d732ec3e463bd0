ghost use Rattle.std.specs.Prelude.{◌≡◌};
ghost use Rattle.nl_tree.specs.Causes.{fault_sum};
ghost use Rattle.nl_calls_steps.specs.Calls.{counts_of};
ghost use Rattle.nl_tree.specs.declared.reply.Reply.TheVariants.{Fault as FaultAnswer};
ghost use Rattle.nl_tree.specs.declared.reply.FaultReply.TheVariants.{Eio};

use nl_core::Core;
use nl_iface::MovingPages;
use nl_tree::{FaultReply, Reply};

/// What a file call answers, and how many pages files have then.
#[derive(Clone, Copy, Debug, PartialEq, Eq)]
pub struct Answer {
    pub reply: Reply,
    pub files: u32,
}

// An operation of the medium failed: the number is the sum of both fault counts.
pub(crate) fn failed<D: MovingPages>(core: &Core<D>) -> Reply
    ensures { result ≡ FaultAnswer (Eio (fault_sum (counts_of D.Counts core.now.device))) }
{
    Reply::Fault(FaultReply::Eio(core.faults()))
}
