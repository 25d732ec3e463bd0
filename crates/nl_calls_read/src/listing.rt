ghost use Rattle.std.specs.Prelude.{◌≡◌, [], false};
ghost use Rattle.nl_namespace.specs.Listing.{ListsNames};
ghost use Rattle.nl_meta_running.specs.Running.{IsDirectoryAt};
ghost use Rattle.nl_tree.specs.declared.call.Call.TheVariants.{List};
ghost use Rattle.nl_core.specs.Core.{IsCore};
ghost use Rattle.nl_calls_steps.specs.Steps.{ReadsOn};
ghost use Rattle.nl_calls_read.specs.Due.{AnswersStep};
ghost use Rattle.nl_calls_read.specs.Looking.{EndsLook, IfNames, IfReplied, IsPlainReply, brings_bytes};

use crate::answer::{Looked, Spot};
use crate::spots::find_spot;
use nl_calls_steps::list_names;
use nl_core::Core;
use nl_iface::MovingPages;
use nl_namespace::Listing;
use nl_spec_commits::laws::device_stands;
use nl_tree::{Path, Refusal, Reply, ReplyBuf};

/// The names of a directory, in order.
pub(crate) fn list_path<D: MovingPages>(
    core: &mut Core<D>,
    path: &Path,
    out: &mut ReplyBuf,
) -> Looked
    requires core { IsCore D.Counts core.old }
    requires nothing { out.old ≡ [] }
    ensures core { IsCore D.Counts core.new }
    ensures same { ReadsOn D.Counts core.old core.new }
    ensures answer { AnswersStep D.Counts core.old (List path.now) out.new result }
    ensures plain { IfReplied result IsPlainReply }
    ensures out { brings_bytes result ≡ false → out.new ≡ [] }
    ensures ends { EndsLook D.Counts core.old.device core.new.device result }
{
    device_stands(&core.device);
    match find_spot(core, path) {
        Spot::File(..) => Looked::Replied(Reply::No(Refusal::Enotdir)),
        Spot::Dir(ino, _) => list_directory(core, ino, out),
        Spot::No(refusal) => Looked::Replied(Reply::No(refusal)),
        Spot::Lost { wanted, found } => Looked::Lost { wanted, found },
        Spot::Fault => Looked::Fault,
    }
}

fn list_directory<D: MovingPages>(core: &mut Core<D>, ino: u32, out: &mut ReplyBuf) -> Looked
    requires core { IsCore D.Counts core.old }
    requires directory { IsDirectoryAt D.Counts core.old.device core.old.meta ino }
    ensures core { IsCore D.Counts core.new }
    ensures same { ReadsOn D.Counts core.old core.new }
    ensures names { IfNames result (λ n. ListsNames D.Counts core.old.device core.old.meta ino n out.new) }
    ensures out { brings_bytes result ≡ false → out.new ≡ [] }
    ensures ends { EndsLook D.Counts core.old.device core.new.device result }
{
    match list_names(core, ino, out) {
        Listing::Listed(count) => Looked::Replied(Reply::Names(count)),
        Listing::Lost { wanted, found } => {
            out.clear();
            Looked::Lost { wanted, found }
        }
        Listing::Fault => {
            out.clear();
            Looked::Fault
        }
    }
}
