//! The names of a directory are listed, in the order of their bytes.
ghost use Rattle.std.specs.Prelude.{◌≡◌, ◌<◌, ◌≤◌, ◌+◌, ◌++◌, ◌∷◌, [], ℕ, IfOk, length};
ghost use Rattle.nl_field.specs.Numbers.{max_bytes};
ghost use Rattle.nl_meta.specs.Nodes.{entries_of_inode, graph_of};
ghost use Rattle.nl_namespace.specs.Holding.{HasEntries};
ghost use Rattle.nl_namespace.specs.Listing.{IfListed, IsListing, ListsNames, PrintsPlace, kind_mark};
ghost use Rattle.nl_namespace.specs.Reading.{listing_stop};
ghost use Rattle.nl_meta_running.specs.Reading.{ReadsExplainStop, stop_of};
ghost use Rattle.nl_meta_running.specs.Running.{IsDirectoryOf, IsDirectoryAt, RunningIsRight, PreservesRunning, running_on};

use crate::answer::Listing;
use crate::hold::hold_entries;
use crate::kinds::node_kind;
use crate::ordering::in_order;
use nl_dir::entry_at;
use nl_field::{EntryRec, InodeRec, Kind};
use nl_iface::VirtualPages;
use nl_inode::Nodes;
use nl_meta::Meta;
use nl_meta_running::{Stop, node};
use nl_tree::ReplyBuf;

/// The names of a directory in the order of their bytes, each behind a space and with `/` behind a directory's. It takes no memory, and
/// compares each name with some ten others. After `Fault` and `Lost` the buffer has some of the names.
pub fn list<D: VirtualPages>(
    device: &mut D,
    meta: &mut Meta,
    nodes: &Nodes,
    ino: u32,
    out: &mut ReplyBuf,
) -> Listing
    requires formed { D.formed device.old }
    requires runs { RunningIsRight D.Counts device.old meta.old }
    requires directory { IsDirectoryAt D.Counts device.old meta.old ino }
    ensures formed { D.formed device.new }
    ensures listed { IfListed result (λ n. ListsNames D.Counts device.old meta.old ino n out.new) }
    ensures kept { PreservesRunning D.Counts device.old meta.old device.new meta.new }
    ensures reads { ReadsExplainStop D.Counts device.old device.new (listing_stop result) }
{
    out.clear();
    match node(device, meta, nodes, ino) {
        Ok(rec) => match print_all(device, meta, &rec, out) {
            Ok(count) => Listing::Listed(count),
            Err(Stop::Fault) => Listing::Fault,
            Err(Stop::Lost { wanted, found }) => Listing::Lost { wanted, found },
        },
        Err(Stop::Fault) => Listing::Fault,
        Err(Stop::Lost { wanted, found }) => Listing::Lost { wanted, found },
    }
}

/// Adds the names of a directory to a buffer without bytes.
fn print_all<D: VirtualPages>(
    device: &mut D,
    meta: &mut Meta,
    rec: &InodeRec,
    out: &mut ReplyBuf,
) -> Result<u32, Stop>
    requires formed { D.formed device.old }
    requires runs { RunningIsRight D.Counts device.old meta.old }
    requires directory { IsDirectoryOf D.Counts device.old meta.old rec.now }
    requires nothing { out.old ≡ [] }
    ensures formed { D.formed device.new }
    ensures listed { IfOk result (λ n. IsListing (graph_of (D.shape device.old) (running_on D.Counts device.old meta.old))
        (entries_of_inode (running_on D.Counts device.old meta.old) rec.now) n out.new) }
    ensures kept { PreservesRunning D.Counts device.old meta.old device.new meta.new }
    ensures reads { ReadsExplainStop D.Counts device.old device.new (stop_of result) }
{
    match hold_entries(device, meta, rec) {
        Ok(()) => {}
        Err(stop) => return Err(stop),
    }
    let order = in_order(rec, meta);
    let count = size_of(rec);
    for i in 0..count {
        match print_place(device, meta, rec, order.as_slice()[i as usize], out) {
            Ok(()) => {}
            Err(stop) => return Err(stop),
        }
    }
    Ok(count)
}

/// How many entries a directory has.
pub(crate) fn size_of(rec: &InodeRec) -> u32
    requires { rec.now.size ≤ 1024 }
    ensures { result ≡ rec.now.size }
{
    rec.size as u32
}

/// Adds the name at a place of a directory whose pages are resident.
fn print_place<D: VirtualPages>(
    device: &mut D,
    meta: &mut Meta,
    rec: &InodeRec,
    place: u32,
    out: &mut ReplyBuf,
) -> Result<(), Stop>
    requires formed { D.formed device.old }
    requires runs { RunningIsRight D.Counts device.old meta.old }
    requires directory { IsDirectoryOf D.Counts device.old meta.old rec.now }
    requires held { HasEntries D.Counts device.old meta.old meta.old rec.now }
    requires below { place < rec.now.size }
    requires room { length out.old + 57 ≤ max_bytes }
    ensures formed { D.formed device.new }
    ensures printed { IfOk result (λ u. PrintsPlace (graph_of (D.shape device.old) (running_on D.Counts device.old meta.old))
        (entries_of_inode (running_on D.Counts device.old meta.old) rec.now) place out.old out.new) }
    ensures short { IfOk result (λ u. length out.new ≤ length out.old + 57) }
    ensures kept { PreservesRunning D.Counts device.old meta.old device.new meta.new }
    ensures reads { ReadsExplainStop D.Counts device.old device.new (stop_of result) }
{
    let entry = entry_at(rec, meta, place);
    let kind = node_kind(device, meta, entry.ino)?;
    print(&entry, kind, out);
    Ok(())
}

/// Adds a space and the name, with `/` behind a directory's.
fn print(entry: &EntryRec, kind: Kind, out: &mut ReplyBuf)
    requires { length out.old + 57 ≤ max_bytes }
    ensures printed { out.new ≡ out.old ++ 32 ∷ entry.now.name ++ kind_mark kind }
    ensures short { length out.new ≤ length out.old + 57 }
{
    out.push(b' ');
    out.extend(entry.name.bytes());
    match kind {
        Kind::Dir => out.push(b'/'),
        _ => {}
    }
}
