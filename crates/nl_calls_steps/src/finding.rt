ghost use Rattle.std.specs.Prelude.{◌≡◌, IfOk};
ghost use Rattle.nl_meta_running.specs.Reading.{stop_of};
ghost use Rattle.nl_meta_running.specs.Running.{IsUsedNode};
ghost use Rattle.nl_core.specs.Core.{IsCore};
ghost use Rattle.nl_calls_steps.specs.Steps.{ReadsOn};
ghost use Rattle.nl_calls_steps.specs.Answers.{EndsEarly};
ghost use Rattle.nl_calls_steps.specs.Finding.{IsFileOrNot, IsFoundFile};

use crate::answer::Found;
use crate::reading::{look_up, open_node};
use nl_core::Core;
use nl_field::Kind;
use nl_iface::MovingPages;
use nl_meta_running::Stop;
use nl_namespace::Look;
use nl_namespace::laws::looks_in_tree;
use nl_spec_commits::laws::device_stands;
use nl_tree::{Path, Refusal, is_long};

/// The file that a path leads to, or why it leads to none.
pub fn find_file<D: MovingPages>(core: &mut Core<D>, path: &Path) -> Result<Found, Stop>
    requires core { IsCore D.Counts core.old }
    ensures core { IsCore D.Counts core.new }
    ensures same { ReadsOn D.Counts core.old core.new }
    ensures found { IfOk result (IsFoundFile D.Counts core.old path.now) }
    ensures early { EndsEarly D.Counts core.old core.new (stop_of result) }
{
    looks_in_tree();
    device_stands(&core.device);
    if is_long(path.names()) {
        return Ok(Found::No(Refusal::Enametoolong));
    }
    match look_up(core, path) {
        Look::At(ino) => file_or_not(core, ino),
        Look::Missing => Ok(Found::No(Refusal::Enoent)),
        Look::No(refusal) => Ok(Found::No(refusal)),
        Look::Fault => Err(Stop::Fault),
        Look::Lost { wanted, found } => Err(Stop::Lost { wanted, found }),
    }
}

// A node that is used, as a file or not.
fn file_or_not<D: MovingPages>(core: &mut Core<D>, ino: u32) -> Result<Found, Stop>
    requires core { IsCore D.Counts core.old }
    requires used { IsUsedNode D.Counts core.old.device core.old.meta ino }
    ensures core { IsCore D.Counts core.new }
    ensures same { ReadsOn D.Counts core.old core.new }
    ensures found { IfOk result (IsFileOrNot D.Counts core.old ino) }
    ensures early { EndsEarly D.Counts core.old core.new (stop_of result) }
{
    match open_node(core, ino) {
        Ok(rec) => match rec.kind {
            Kind::File => Ok(Found::File(ino)),
            _ => Ok(Found::No(Refusal::Eisdir)),
        },
        Err(stop) => Err(stop),
    }
}
