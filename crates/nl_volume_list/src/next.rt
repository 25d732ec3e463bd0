ghost use Rattle.std.specs.Prelude.{◌≡◌, ◌≢◌, ◌≤◌, ℕ, [], true, false, IfOk, Some};
ghost use Rattle.nl_core.specs.Core.{IsCore, running_of};
ghost use Rattle.nl_calls_files.specs.Fits.{IsFileOf};
ghost use Rattle.nl_calls_steps.specs.Steps.{ReadsOn};
ghost use Rattle.nl_meta_running.specs.Reading.{ReadsExplainStop, stop_of};
ghost use Rattle.nl_meta_running.specs.Running.{IsUsedNode};
ghost use Rattle.nl_volume_list.specs.Next.{GaveAt, GivesNext, IsOnWay, IsItemOfFile, nodes_of};
ghost use Rattle.nl_volume_list.specs.Onward.{StepsOnward, LeadsOn, path_to};
ghost use Rattle.nl_volume_list.specs.Walks.{IsItemOfNode, is_path, item_stop};

use crate::item::TreeItem;
use crate::places::next_place;
use crate::walk::{Onward, TreeWalk};
use nl_calls_steps::{count_file, open_node};
use nl_core::Core;
use nl_field::{InodeRec, Kind};
use nl_files::CountPages;
use nl_iface::MovingPages;
use nl_meta_running::Stop;
use nl_spec_commits::laws::device_stands;

/// The next path of the tree as which the core runs, and what stands there; the walk holds that path then. `End` comes exactly where no
/// path is left. After `End`, `Fault` and `Lost` the walk stays. The core is the one over which the walk began, but for pages that were
/// read.
pub fn next_path<D: MovingPages>(core: &mut Core<D>, walk: &mut TreeWalk) -> TreeItem
    requires core { IsCore D.Counts core.old }
    requires way { IsOnWay D.Counts core.old walk.old }
    ensures core { IsCore D.Counts core.new }
    ensures same { ReadsOn D.Counts core.old core.new }
    ensures way { IsOnWay D.Counts core.new walk.new }
    ensures gives { GivesNext D.Counts core.old walk.old walk.new result }
    ensures stays { is_path result ≡ false → walk.new ≡ walk.old }
    ensures reads { ReadsExplainStop D.Counts core.old.device core.new.device (item_stop result) }
{
    device_stands(&core.device);
    if !walk.has_begun() {
        return begin(core, walk);
    }
    match place_of(core, walk) {
        Ok(Some(to)) => go_to(core, walk, to),
        Ok(None) => TreeItem::End,
        Err(stop) => stopped(stop),
    }
}

// Where a walk goes on that has begun.
fn place_of<D: MovingPages>(core: &mut Core<D>, walk: &TreeWalk) -> Result<Option<Onward>, Stop>
    requires core { IsCore D.Counts core.old }
    requires way { IsOnWay D.Counts core.old walk.now }
    requires begun { walk.now.nodes ≢ [] }
    ensures core { IsCore D.Counts core.new }
    ensures same { ReadsOn D.Counts core.old core.new }
    ensures place { IfOk result (StepsOnward (nodes_of D.Counts core.old) walk.now) }
    ensures reads { ReadsExplainStop D.Counts core.old.device core.new.device (stop_of result) }
{
    device_stands(&core.device);
    let answer = next_place(&mut core.device, &mut core.meta, &core.nodes, walk);
    device_stands(&core.device);
    answer
}

// The root.
fn begin<D: MovingPages>(core: &mut Core<D>, walk: &mut TreeWalk) -> TreeItem
    requires core { IsCore D.Counts core.old }
    requires way { IsOnWay D.Counts core.old walk.old }
    requires before { walk.old.nodes ≡ [] }
    ensures core { IsCore D.Counts core.new }
    ensures same { ReadsOn D.Counts core.old core.new }
    ensures told { IsItemOfNode (nodes_of D.Counts core.old 0).body result }
    ensures gave { is_path result ≡ true → GaveAt (nodes_of D.Counts core.old) walk.old walk.new [] }
    ensures stays { is_path result ≡ false → walk.new ≡ walk.old }
    ensures reads { ReadsExplainStop D.Counts core.old.device core.new.device (item_stop result) }
{
    device_stands(&core.device);
    let item = item_at(core, 0);
    if !item.is_path() {
        return item;
    }
    walk.begin();
    item
}

// The path of an entry.
fn go_to<D: MovingPages>(core: &mut Core<D>, walk: &mut TreeWalk, to: Onward) -> TreeItem
    requires core { IsCore D.Counts core.old }
    requires way { IsOnWay D.Counts core.old walk.old }
    requires begun { walk.old.nodes ≢ [] }
    requires leads { LeadsOn (nodes_of D.Counts core.old) walk.old to }
    ensures core { IsCore D.Counts core.new }
    ensures same { ReadsOn D.Counts core.old core.new }
    ensures told { IsItemOfNode (nodes_of D.Counts core.old to.entry.ino).body result }
    ensures gave { is_path result ≡ true → GaveAt (nodes_of D.Counts core.old) walk.old walk.new (path_to walk.old to) }
    ensures stays { is_path result ≡ false → walk.new ≡ walk.old }
    ensures reads { ReadsExplainStop D.Counts core.old.device core.new.device (item_stop result) }
{
    device_stands(&core.device);
    let item = item_at(core, to.entry.ino);
    if !item.is_path() {
        return item;
    }
    walk.move_to(to);
    item
}

// What stands at a node that is used.
fn item_at<D: MovingPages>(core: &mut Core<D>, ino: u32) -> TreeItem
    requires core { IsCore D.Counts core.old }
    requires used { IsUsedNode D.Counts core.old.device core.old.meta ino }
    ensures core { IsCore D.Counts core.new }
    ensures same { ReadsOn D.Counts core.old core.new }
    ensures told { IsItemOfNode (nodes_of D.Counts core.old ino).body result }
    ensures reads { ReadsExplainStop D.Counts core.old.device core.new.device (item_stop result) }
{
    device_stands(&core.device);
    match open_node(core, ino) {
        Ok(rec) => match rec.kind {
            Kind::File => file_item(core, &rec),
            _ => TreeItem::Dir(entries_in(&rec)),
        },
        Err(stop) => stopped(stop),
    }
}

// The size of a file, and how many of its page indexes have a pointer.
fn file_item<D: MovingPages>(core: &mut Core<D>, rec: &InodeRec) -> TreeItem
    requires core { IsCore D.Counts core.old }
    requires file { (n : ℕ) × IsFileOf D.Counts core.old.device core.old.meta n rec.now }
    ensures core { IsCore D.Counts core.new }
    ensures same { ReadsOn D.Counts core.old core.new }
    ensures file { IsItemOfFile (running_of D.Counts core.old) rec.now result }
    ensures reads { ReadsExplainStop D.Counts core.old.device core.new.device (item_stop result) }
{
    match count_file(core, rec) {
        CountPages::Pages(pages) => TreeItem::File {
            size: rec.size,
            pages,
        },
        CountPages::Lost { wanted, found } => TreeItem::Lost { wanted, found },
        CountPages::Fault => TreeItem::Fault,
    }
}

// How many entries a directory has.
fn entries_in(rec: &InodeRec) -> u32
    requires { rec.now.size ≤ 1024 }
    ensures { result ≡ rec.now.size }
{
    rec.size as u32
}

// No path was given, since pages could not be read.
fn stopped(stop: Stop) -> TreeItem
    ensures stop { item_stop result ≡ Some stop }
    ensures none { is_path result ≡ false }
{
    match stop {
        Stop::Fault => TreeItem::Fault,
        Stop::Lost { wanted, found } => TreeItem::Lost { wanted, found },
    }
}
