// Prints every path of the tree as which a core runs.
ghost use Rattle.std.specs.Prelude.{◌≡◌, ◌≤◌, [], Some};
ghost use Rattle.nl_core.specs.Core.{IsCore};
ghost use Rattle.nl_calls_steps.specs.Steps.{ReadsOn};
ghost use Rattle.nl_field.specs.CrashStates.{Rose};
ghost use Rattle.nl_print.specs.Texts.{tree_text};
ghost use Rattle.nl_cmd_print.specs.Showing.{ReadsFor, ReadsUntil, PrintsText, ShowsNext, ended_by, paths_text};
ghost use Rattle.nl_volume_list.specs.Next.{IsOnWay};

use crate::laws::items_are_printed;
use nl_core::Core;
use nl_iface::MovingPages;
use nl_io::{Sink, SinkAnswer};
use nl_print::{dir_line, file_line, number_line};
use nl_spec_commits::laws::device_stands;
use nl_volume_list::laws::walks_begin;
use nl_volume_list::{TreeItem, TreeWalk, next_path};

/// How the printing of all paths ended.
#[derive(Clone, Copy, Debug, PartialEq, Eq)]
pub enum Shown {
    /// The sink has taken all.
    All,
    /// The sink failed.
    NotTaken,
    /// A read failed.
    Fault,
    /// A page does not hold the sequence number under which it was written.
    Lost,
}

/// Prints a count of calls, and a line for each path of the tree as which a core runs, in the order of the paths. After a failure of the
/// sink or of a read no more is printed. The walk is one that was made for the core, of which pages are only read.
pub fn print_tree<K: Sink, D: MovingPages>(
    sink: &mut K,
    core: &mut Core<D>,
    walk: &mut TreeWalk,
    count: u64,
) -> Shown
    requires core { IsCore D.Counts core.old }
    requires fresh { walk.old ≡ record { path = []; nodes = []; room = core.old.shape.nodes } }
    ensures core { IsCore D.Counts core.new }
    ensures same { ReadsOn D.Counts core.old core.new }
    ensures shows { PrintsText D.Counts core.old (λ tree. tree_text count tree) (K.taken sink.old) (K.taken sink.new) result }
    ensures reads { ReadsFor D.Counts core.old.device core.new.device result }
    ensures never_falls { K.faults sink.old ≤ K.faults sink.new }
    ensures cause { result ≡ Shown.NotTaken → Rose (K.faults sink.old) (K.faults sink.new) }
{
    walks_begin::<D>();
    items_are_printed();
    match number_line(sink, b"opened", count) {
        SinkAnswer::Took => print_paths(sink, core, walk),
        SinkAnswer::Failed => Shown::NotTaken,
    }
}

// Prints a line for each path. A core has no more of them than its volume may have nodes.
fn print_paths<K: Sink, D: MovingPages>(
    sink: &mut K,
    core: &mut Core<D>,
    walk: &mut TreeWalk,
) -> Shown
    requires core { IsCore D.Counts core.old }
    requires way { IsOnWay D.Counts core.old walk.old }
    requires before { walk.old.nodes ≡ [] }
    ensures core { IsCore D.Counts core.new }
    ensures same { ReadsOn D.Counts core.old core.new }
    ensures shows { PrintsText D.Counts core.old paths_text (K.taken sink.old) (K.taken sink.new) result }
    ensures reads { ReadsFor D.Counts core.old.device core.new.device result }
    ensures never_falls { K.faults sink.old ≤ K.faults sink.new }
    ensures cause { result ≡ Shown.NotTaken → Rose (K.faults sink.old) (K.faults sink.new) }
{
    device_stands(&core.device);
    walks_begin::<D>();
    'paths: for at in 0..core.shape.nodes {
        match print_next(sink, core, walk) {
            None => {}
            Some(shown) => return shown,
        }
    }
    Shown::All
}

// Prints the line of the next path of a walk. None where the printing goes on behind it.
fn print_next<K: Sink, D: MovingPages>(
    sink: &mut K,
    core: &mut Core<D>,
    walk: &mut TreeWalk,
) -> Option<Shown>
    requires core { IsCore D.Counts core.old }
    requires way { IsOnWay D.Counts core.old walk.old }
    ensures core { IsCore D.Counts core.new }
    ensures same { ReadsOn D.Counts core.old core.new }
    ensures way { IsOnWay D.Counts core.new walk.new }
    ensures shows { ShowsNext D.Counts core.old walk.old walk.new (K.taken sink.old) (K.taken sink.new) result }
    ensures reads { ReadsUntil D.Counts core.old.device core.new.device result }
    ensures never_falls { K.faults sink.old ≤ K.faults sink.new }
    ensures cause { result ≡ Some Shown.NotTaken → Rose (K.faults sink.old) (K.faults sink.new) }
{
    match next_path(core, walk) {
        TreeItem::Dir(entries) => ended_by(dir_line(sink, walk.path(), entries)),
        TreeItem::File { size, pages } => ended_by(file_line(sink, walk.path(), size, pages)),
        TreeItem::End => Some(Shown::All),
        TreeItem::Fault => Some(Shown::Fault),
        TreeItem::Lost { .. } => Some(Shown::Lost),
    }
}

fn ended_by(answer: SinkAnswer) -> Option<Shown>
    ensures { result ≡ ended_by answer }
{
    match answer {
        SinkAnswer::Took => None,
        SinkAnswer::Failed => Some(Shown::NotTaken),
    }
}
