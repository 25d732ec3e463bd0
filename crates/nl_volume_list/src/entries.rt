ghost use Rattle.std.specs.Prelude.{◌≡◌, ◌<◌, ◌≤◌, IfOk, IfSome, drop, length, option_and_then, slice_get};
ghost use Rattle.nl_dir.specs.Directory.{IsDirectory};
ghost use Rattle.nl_meta.specs.Nodes.{entries_of_inode, graph_of};
ghost use Rattle.nl_meta.specs.Pages.{page_of};
ghost use Rattle.nl_meta_running.specs.Reading.{ReadsExplainStop, stop_of};
ghost use Rattle.nl_meta_running.specs.Running.{IsUsedNode, RunningIsRight, PreservesRunning, running_on};
ghost use Rattle.nl_volume_list.specs.Entries.{IsLeastOf, LeastBehind, is_behind, is_lesser};

use nl_dir::{entry_at, name_at};
use nl_field::{EntryRec, InodeRec, Kind};
use nl_iface::VirtualPages;
use nl_inode::Nodes;
use nl_meta::Meta;
use nl_meta_running::{Stop, node};
use nl_namespace::hold_entries;
use std::cmp::Ordering;

/// The entry of a node whose name is the least behind this one, none where it has none, as a file. Each name comes behind the one without
/// bytes.
pub(crate) fn least_behind<D: VirtualPages>(
    device: &mut D,
    meta: &mut Meta,
    nodes: &Nodes,
    ino: u32,
    after: &[u8],
) -> Result<Option<EntryRec>, Stop>
    requires formed { D.formed device.old }
    requires runs { RunningIsRight D.Counts device.old meta.old }
    requires used { IsUsedNode D.Counts device.old meta.old ino }
    ensures formed { D.formed device.new }
    ensures least { IfOk result (LeastBehind (graph_of (D.shape device.old) (running_on D.Counts device.old meta.old)) ino after.now) }
    ensures kept { PreservesRunning D.Counts device.old meta.old device.new meta.new }
    ensures reads { ReadsExplainStop D.Counts device.old device.new (stop_of result) }
{
    let rec = node(device, meta, nodes, ino)?;
    match rec.kind {
        Kind::Dir => {}
        _ => return Ok(None),
    }
    hold_entries(device, meta, &rec)?;
    Ok(least_entry(&rec, meta, after))
}

/// The entry of a directory whose name is the least behind this one.
fn least_entry(rec: &InodeRec, meta: &Meta, after: &[u8]) -> Option<EntryRec>
    requires directory { IsDirectory (page_of meta.now) rec.now }
    requires few { rec.now.size ≤ 1024 }
    ensures { IsLeastOf (entries_of_inode (page_of meta.now) rec.now) after.now result }
{
    match least_place(rec, meta, after) {
        Some(place) => Some(entry_at(rec, meta, place)),
        None => None,
    }
}

/// Where that entry stands. No entry but that one is read: names are compared as their pages have them.
fn least_place(rec: &InodeRec, meta: &Meta, after: &[u8]) -> Option<u32>
    requires directory { IsDirectory (page_of meta.now) rec.now }
    requires few { rec.now.size ≤ 1024 }
    ensures below { IfSome result (λ place. place < rec.now.size) }
    ensures least { IsLeastOf (entries_of_inode (page_of meta.now) rec.now) after.now
        (option_and_then (slice_get (entries_of_inode (page_of meta.now) rec.now)) result) }
{
    let mut least = None;
    for place in 0..rec.size as u32 {
        let name = name_at(rec, meta, place);
        if comes_behind(after, name) && is_before(rec, meta, name, least) {
            least = Some(place);
        }
    }
    least
}

/// A name comes before that of the entry at a place, where there is one.
fn is_before(rec: &InodeRec, meta: &Meta, name: &[u8], least: Option<u32>) -> bool
    requires directory { IsDirectory (page_of meta.now) rec.now }
    requires below { IfSome least (λ place. place < rec.now.size) }
    ensures { result ≡ is_lesser name.now (option_and_then (slice_get (entries_of_inode (page_of meta.now) rec.now)) least) }
{
    match least {
        Some(place) => comes_behind(name, name_at(rec, meta, place)),
        None => true,
    }
}

/// The second name comes behind the first.
fn comes_behind(after: &[u8], name: &[u8]) -> bool
    ensures { result ≡ is_behind after.now name.now }
{
    is_behind_from(after, name, 0)
}

/// The same of what two names have from a place on. Most differ among their first eight bytes, which are looked at one by one; the others
/// are compared at once.
fn is_behind_from(after: &[u8], name: &[u8], at: usize) -> bool
    requires first { at ≤ length after.now }
    requires second { at ≤ length name.now }
    ensures { result ≡ is_behind (drop at after.now) (drop at name.now) }
{
    if at >= 8 || at >= after.len() || at >= name.len() {
        return after[at..].cmp(&name[at..]) == Ordering::Less;
    }
    if after[at] == name[at] {
        is_behind_from(after, name, at + 1)
    } else {
        after[at] < name[at]
    }
}
