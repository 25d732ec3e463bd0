ghost use Rattle.std.specs.Prelude.{◌≡◌, ◌≤◌, ℕ, [], length};
ghost use Rattle.nl_meta.specs.Nodes.{pointers_of_inode};
ghost use Rattle.nl_tree.specs.declared.call.Call.TheVariants.{Stat};
ghost use Rattle.nl_core.specs.Core.{IsCore, running_of};
ghost use Rattle.nl_calls_files.specs.Fits.{IsFileOf};
ghost use Rattle.nl_calls_steps.specs.Steps.{ReadsOn};
ghost use Rattle.nl_calls_read.specs.Due.{AnswersStep};
ghost use Rattle.nl_calls_read.specs.Looking.{EndsLook, IfFile, IfReplied, IsPlainReply};

use crate::answer::{Looked, Spot};
use crate::spots::find_spot;
use nl_calls_steps::count_file;
use nl_core::Core;
use nl_field::InodeRec;
use nl_files::CountPages;
use nl_iface::MovingPages;
use nl_spec_commits::laws::device_stands;
use nl_tree::{Path, Reply};

/// What stands at a path: a file with its size and how many pages hold bytes, or a directory with how many entries it has.
pub(crate) fn stat_path<D: MovingPages>(core: &mut Core<D>, path: &Path) -> Looked
    requires core { IsCore D.Counts core.old }
    ensures core { IsCore D.Counts core.new }
    ensures same { ReadsOn D.Counts core.old core.new }
    ensures answer { AnswersStep D.Counts core.old (Stat path.now) [] result }
    ensures plain { IfReplied result IsPlainReply }
    ensures ends { EndsLook D.Counts core.old.device core.new.device result }
{
    device_stands(&core.device);
    match find_spot(core, path) {
        Spot::File(_, rec) => stat_file(core, &rec),
        Spot::Dir(_, rec) => Looked::Replied(Reply::Dir {
            entries: entries_in(&rec),
        }),
        Spot::No(refusal) => Looked::Replied(Reply::No(refusal)),
        Spot::Lost { wanted, found } => Looked::Lost { wanted, found },
        Spot::Fault => Looked::Fault,
    }
}

/// How many entries a directory has.
fn entries_in(rec: &InodeRec) -> u32
    requires { rec.now.size ≤ 1024 }
    ensures { result ≡ rec.now.size }
{
    rec.size as u32
}

/// The size of a file, and how many of its page indexes have a pointer.
fn stat_file<D: MovingPages>(core: &mut Core<D>, rec: &InodeRec) -> Looked
    requires core { IsCore D.Counts core.old }
    requires file { (n : ℕ) × IsFileOf D.Counts core.old.device core.old.meta n rec.now }
    ensures core { IsCore D.Counts core.new }
    ensures same { ReadsOn D.Counts core.old core.new }
    ensures file { IfFile result (λ size pages.
        (size ≡ rec.now.size) × (pages ≡ length (pointers_of_inode (running_of D.Counts core.old) rec.now))) }
    ensures ends { EndsLook D.Counts core.old.device core.new.device result }
{
    match count_file(core, rec) {
        CountPages::Pages(pages) => Looked::Replied(Reply::File {
            size: rec.size,
            pages,
        }),
        CountPages::Lost { wanted, found } => Looked::Lost { wanted, found },
        CountPages::Fault => Looked::Fault,
    }
}
