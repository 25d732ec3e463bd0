ghost use Rattle.std.specs.Prelude.{◌≡◌};
ghost use Rattle.nl_core.specs.Core.{IsCore};
ghost use Rattle.nl_dir.specs.Directory.{HasRoomForDirty};
ghost use Rattle.nl_calls_steps.specs.Steps.{Steps};
ghost use Rattle.nl_namespace.specs.Calls.{PathsHaveNames, IsOfNames};
ghost use Rattle.nl_calls_names.specs.Naming.{AnswersAs, TakesLeastOn, naming_stop};
ghost use Rattle.nl_meta_running.specs.Reading.{ReadsExplainStop};

use crate::answer::{Naming, stopped};
use crate::gathering::gather_lost;
use crate::settling::settle;
use nl_core::Core;
use nl_iface::MovingPages;
use nl_namespace::change;
use nl_namespace::laws::changes_in_tree;
use nl_spec_commits::laws::device_stands;
use nl_tree::Call;

/// Does a call that changes names: mkdir, rmdir, create, unlink or rename. It asks room for nine more dirty pages. `Done` comes where the
/// step of the tree is done, and the core stands for the tree after it: the pages of a file that lost its name await their free, and its
/// addresses and its number are free. A new node has the least free number and the generation after the last one of that number, a new
/// page the least free address. `No` comes with the refusal of the step, also where a name or a path is too long and where there is no
/// room; `Fault` where a read failed; and `Lost` where a page does not hold the sequence number under which its address was written. All of
/// them leave the tree as it was.
pub fn change_names<D: MovingPages>(core: &mut Core<D>, call: &Call) -> Naming
    requires core { IsCore D.Counts core.old }
    requires names { PathsHaveNames call.now }
    requires of_names { IsOfNames call.now }
    requires room { HasRoomForDirty 9 core.old.meta }
    ensures core { IsCore D.Counts core.new }
    ensures steps { Steps D.Counts core.old core.new }
    ensures flight { core.new.flight ≡ core.old.flight }
    ensures answer { AnswersAs D.Counts call.now core.old core.new result }
    ensures takes { TakesLeastOn D.Counts core.old core.new }
    ensures reads { ReadsExplainStop D.Counts core.old.device core.new.device (naming_stop result) }
{
    device_stands(&core.device);
    changes_in_tree();
    let first = core.freeing.len();
    match gather_lost(core, call) {
        Ok(()) => {
            device_stands(&core.device);
            let answer = change(&mut core.device, &mut core.meta, &mut core.nodes, call);
            device_stands(&core.device);
            settle(core, first, answer)
        }
        Err(stop) => {
            device_stands(&core.device);
            stopped(stop)
        }
    }
}
