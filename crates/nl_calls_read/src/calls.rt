ghost use Rattle.std.specs.Prelude.{◌≡◌, [], false};
ghost use Rattle.nl_iface.specs.Calls.{ReadsCounted};
ghost use Rattle.nl_tree.specs.Calls.{IsBounded};
ghost use Rattle.nl_core.specs.Core.{IsCore};
ghost use Rattle.nl_calls_steps.specs.Steps.{ReadsOn};
ghost use Rattle.nl_calls_read.specs.Due.{AnswersStep};
ghost use Rattle.nl_calls_read.specs.Looking.{IfLookLost, IfReplied, IsLostReply, IsPlainReply, OnlyLooks, brings_bytes};

use crate::answer::Looked;
use crate::listing::list_path;
use crate::reading::read_path;
use crate::stating::stat_path;
use nl_core::Core;
use nl_field::PageBuf;
use nl_iface::MovingPages;
use nl_tree::{Call, ReplyBuf};

/// A file call that only looks: `Read`, `Stat` or `List`. The bytes of its reply come into `out`, which has none with any other answer.
/// `page` is work space. While the medium tells its contents, the reply is that of the tree as which the core runs, refusals included.
pub fn look_call<D: MovingPages>(
    core: &mut Core<D>,
    call: &Call,
    out: &mut ReplyBuf,
    page: &mut PageBuf,
) -> Looked
    requires core { IsCore D.Counts core.old }
    requires looks { OnlyLooks call.now }
    requires bounded { IsBounded call.now }
    requires nothing { out.old ≡ [] }
    ensures core { IsCore D.Counts core.new }
    ensures same { ReadsOn D.Counts core.old core.new }
    ensures answer { AnswersStep D.Counts core.old call.now out.new result }
    ensures plain { IfReplied result IsPlainReply }
    ensures out { brings_bytes result ≡ false → out.new ≡ [] }
    ensures faults { ReadsCounted D.Counts (result ≡ Looked.Fault) core.old.device core.new.device }
    ensures lost { IfLookLost result (λ wanted found. found ≡ wanted → ⊥) }
    ensures told { D.tells → IsLostReply result → ⊥ }
{
    match call {
        Call::Read(path, from, len) => read_path(core, path, *from, *len, out, page),
        Call::Stat(path) => stat_path(core, path),
        Call::List(path) => list_path(core, path, out),
        _ => unreachable!(),
    }
}
