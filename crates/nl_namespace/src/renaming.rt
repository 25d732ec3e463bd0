//! A file or a directory gets another path.
ghost use Rattle.std.specs.Prelude.{◌≡◌, ◌≢◌, ◌≤◌, MatchBool, MatchOption, false};
ghost use Rattle.nl_dir.specs.Directory.{HasRoomForDirty};
ghost use Rattle.nl_meta.specs.Nodes.{graph_of};
ghost use Rattle.nl_tree.specs.Calls.{AreNames};
ghost use Rattle.nl_tree.specs.Tree.{is_at_or_under, paths_eq};
ghost use Rattle.nl_namespace.specs.Changing.{FreeFits, ChangeLeaves};
ghost use Rattle.nl_namespace.specs.Entering.{HasNamed};
ghost use Rattle.nl_namespace.specs.Finding.{FitsAfter, NameIsThere, MovesIn};
ghost use Rattle.nl_namespace.specs.Moving.{AreAllowed, CanTake, LacksRoomIn, RenamesName, refusal_over_record};
ghost use Rattle.nl_namespace.specs.Placing.{DirectoryIsResident};
ghost use Rattle.nl_namespace.specs.Reading.{change_stop};
ghost use Rattle.nl_meta_running.specs.Reading.{ReadsExplainStop};
ghost use Rattle.nl_meta_running.specs.Running.{RunningIsRight, running_on};
ghost use Rattle.nl_field.specs.declared.inode.Kind.TheVariants.{Dir};

use crate::answer::Change;
use crate::entering::{put_in, take_out};
use crate::finding::{Found, There, find_node};
use crate::free::has_address;
use crate::naming::name_of;
use crate::same_paths::{are_one, lies_under};
use nl_field::{EntryRec, InodeRec, Kind, Name};
use nl_iface::VirtualPages;
use nl_inode::Nodes;
use nl_meta::Meta;
use nl_meta_running::Stop;
use nl_tree::{Path, Refusal, Space, is_long};

/// Gives a file or a directory, with all that is under it, another path. A file, or an empty directory, that stood there loses its name,
/// and its record and its pages stay as they are. A refusal, a read that failed and a page that is lost leave all as it was.
pub fn rename<D: VirtualPages>(
    device: &mut D,
    meta: &mut Meta,
    nodes: &mut Nodes,
    from: &Path,
    to: &Path,
) -> Change
    requires formed { D.formed device.old }
    requires runs { RunningIsRight D.Counts device.old meta.old }
    requires free { FreeFits D.Counts device.old meta.old nodes.old }
    requires room { HasRoomForDirty 8 meta.old }
    requires names { AreNames to.now }
    ensures formed { D.formed device.new }
    ensures answer { RenamesName nodes.old (graph_of (D.shape device.old) (running_on D.Counts device.old meta.old))
        (graph_of (D.shape device.new) (running_on D.Counts device.new meta.new)) from.now to.now result }
    ensures left { ChangeLeaves D.Counts device.old meta.old nodes.old device.new meta.new nodes.new result }
    ensures reads { ReadsExplainStop D.Counts device.old device.new (change_stop result) }
{
    if is_long(from.names()) || is_long(to.names()) {
        return Change::No(Refusal::Enametoolong);
    }
    if from.len() == 0 || to.len() == 0 {
        return Change::No(Refusal::Einval);
    }
    match find_node(device, meta, nodes, from) {
        Ok(Found::At(old)) => {
            if are_one(from.names(), to.names()) {
                return Change::Changed { gone: None };
            }
            if is_directory(old.node.kind) && lies_under(from.names(), to.names()) {
                return Change::No(Refusal::Einval);
            }
            rename_to(device, meta, nodes, from, to, &old)
        }
        Ok(Found::Free(_)) => Change::No(Refusal::Enoent),
        Ok(Found::No(refusal)) => Change::No(refusal),
        Err(Stop::Fault) => Change::Fault,
        Err(Stop::Lost { wanted, found }) => Change::Lost { wanted, found },
    }
}

/// Gives a node that is there another path, not one under it where it is a directory.
fn rename_to<D: VirtualPages>(
    device: &mut D,
    meta: &mut Meta,
    nodes: &mut Nodes,
    from: &Path,
    to: &Path,
    old: &There,
) -> Change
    requires formed { D.formed device.old }
    requires runs { RunningIsRight D.Counts device.old meta.old }
    requires free { FreeFits D.Counts device.old meta.old nodes.old }
    requires room { HasRoomForDirty 8 meta.old }
    requires names { AreNames to.now }
    requires there { NameIsThere D.Counts device.old meta.old from.now old.now }
    requires held { DirectoryIsResident D.Counts device.old meta.old meta.old old.now.dir old.now.rec }
    requires paths { AreAllowed from.now to.now }
    requires other { paths_eq from.now to.now ≡ false }
    requires not_under { old.now.node.kind ≡ Dir → is_at_or_under from.now to.now ≡ false }
    ensures formed { D.formed device.new }
    ensures answer { RenamesName nodes.old (graph_of (D.shape device.old) (running_on D.Counts device.old meta.old))
        (graph_of (D.shape device.new) (running_on D.Counts device.new meta.new)) from.now to.now result }
    ensures left { ChangeLeaves D.Counts device.old meta.old nodes.old device.new meta.new nodes.new result }
    ensures reads { ReadsExplainStop D.Counts device.old device.new (change_stop result) }
{
    match find_node(device, meta, nodes, to) {
        Ok(Found::At(over)) => match refused_over(old.node.kind, &over.node) {
            Some(refusal) => Change::No(refusal),
            None => {
                let There { dir, entry, .. } = over;
                let gone = entry.ino;
                take_out(meta, nodes, dir, entry.name.bytes());
                move_entry(meta, nodes, old.dir, &old.entry, dir, entry.name);
                Change::Changed { gone: Some(gone) }
            }
        },
        Ok(Found::Free(place)) => match lacks_room(
            nodes,
            old.dir,
            old.rec.size,
            place.dir,
            place.rec.size,
        ) {
            Some(space) => Change::No(Refusal::Enospc(space)),
            None => {
                let last = to.get(to.len() - 1);
                move_entry(
                    meta,
                    nodes,
                    old.dir,
                    &old.entry,
                    place.dir,
                    name_of(last.bytes()),
                );
                Change::Changed { gone: None }
            }
        },
        Ok(Found::No(refusal)) => Change::No(refusal),
        Err(Stop::Fault) => Change::Fault,
        Err(Stop::Lost { wanted, found }) => Change::Lost { wanted, found },
    }
}

/// Takes an entry out of a directory, and puts it into one, which may be the same, under another name.
fn move_entry(meta: &mut Meta, nodes: &mut Nodes, dir: u32, entry: &EntryRec, to: u32, name: Name)
    requires named { HasNamed dir entry.now.name meta.old nodes.old }
    requires fits { FitsAfter dir entry.now to name meta.old nodes.old }
    ensures { MovesIn dir entry.now to name meta.old meta.new nodes.old nodes.new }
{
    take_out(meta, nodes, dir, entry.name.bytes());
    let moved = EntryRec {
        ino: entry.ino,
        generation: entry.generation,
        name,
    };
    put_in(meta, nodes, to, &moved);
}

/// What a directory of so many entries lacks for one that comes out of a directory of so many, None where it lacks nothing.
fn lacks_room(nodes: &mut Nodes, dir: u32, others: u64, to: u32, count: u64) -> Option<Space>
    requires { count ≤ 1024 }
    ensures room { MatchOption result (CanTake nodes.old dir others to count) (LacksRoomIn nodes.old dir others to count) }
    ensures same { nodes.new ≡ nodes.old }
{
    if dir == to {
        return None;
    }
    if count == 1024 {
        return Some(Space::Dir);
    }
    if count % 64 == 0 && others % 64 != 1 && !has_address(nodes) {
        return Some(Space::Meta);
    }
    None
}

fn is_directory(kind: Kind) -> bool
    ensures { MatchBool result (kind ≡ Dir) (kind ≢ Dir) }
{
    match kind {
        Kind::Dir => true,
        _ => false,
    }
}

/// Why a node of a kind cannot take the place of another.
fn refused_over(kind: Kind, over: &InodeRec) -> Option<Refusal>
    ensures { result ≡ refusal_over_record kind over.now.kind over.now.size }
{
    match kind {
        Kind::Dir => match over.kind {
            Kind::Dir => {
                if over.size > 0 {
                    Some(Refusal::Enotempty)
                } else {
                    None
                }
            }
            Kind::File => Some(Refusal::Enotdir),
            Kind::Unused => None,
        },
        Kind::File => match over.kind {
            Kind::Dir => Some(Refusal::Eisdir),
            _ => None,
        },
        Kind::Unused => None,
    }
}
