//! The pointer of a moved page in the metadata: it is found by the tag of the page, and gets the new name.
ghost use Rattle.std.specs.Prelude.{◌≡◌, ◌<◌, ◌↔◌, IfOk, IsSome, IsTrue, MatchOption, true, false};
ghost use Rattle.nl_field.specs.Live.{resolve};
ghost use Rattle.nl_field.specs.Spelling.{is_stamp};
ghost use Rattle.nl_field.specs.declared.inode.InodeRec.{InodeRec as InodeRecOf};
ghost use Rattle.nl_iface.specs.Names.{Has};
ghost use Rattle.nl_indirect.specs.Ranges.{HasRange};
ghost use Rattle.nl_inode.specs.Nodes.{page_of_node};
ghost use Rattle.nl_meta.specs.Committed.{VirtualMap};
ghost use Rattle.nl_meta.specs.Nodes.{pointer_at};
ghost use Rattle.nl_meta.specs.Pages.{has_room, page_of};
ghost use Rattle.nl_meta.specs.Running.{running_over};
ghost use Rattle.nl_meta_running.specs.Reading.{ReadsExplainStop, stop_of};
ghost use Rattle.nl_meta_running.specs.Running.{RunningIsRight, PreservesRunning, running_on};
ghost use Rattle.nl_handler.specs.Changing.{TaggedPointerIsResident, RenamesIn};
ghost use Rattle.nl_handler.specs.Handling.{HandlesStored, HasTagged, HoldsTagged, IsTagged, TagsFile, handled_stop, is_of, page_holding};

use crate::answer::Handled;
use nl_field::{InodeRec, Kind, Pointer, Shape, Tag};
use nl_iface::{Callback, NamedPages};
use nl_indirect::{INDEXES, lookup, page_address, store};
use nl_inode::Nodes;
use nl_meta::Meta;
use nl_meta_running::{Stop, hold};

/// The pointer of a callback's sequence number in the metadata gets a name. `Gone` also where the volume has no node of the tag's number.
pub(crate) fn rename_stored<D: NamedPages>(
    shape: &Shape,
    device: &mut D,
    meta: &mut Meta,
    nodes: &mut Nodes,
    callback: &Callback,
    to: u32,
) -> Handled
    requires formed { D.formed device.old }
    requires runs { RunningIsRight D.Counts device.old meta.old }
    requires pending { Has (D.names device.old).pending callback.now }
    requires to { to ≡ resolve (D.names device.old).pairs callback.now.before }
    requires shape { shape.now ≡ D.shape device.old }
    ensures formed { D.formed device.new }
    ensures runs { RunningIsRight D.Counts device.new meta.new }
    ensures nodes { nodes.new ≡ nodes.old }
    ensures stored { HandlesStored D.Counts device.old meta.old device.new meta.new callback.now.tag callback.now.stamp to result }
    ensures reads { ReadsExplainStop D.Counts device.old device.new (handled_stop result) }
{
    if callback.tag.ino >= shape.nodes {
        return Handled::Gone;
    }
    match find(device, meta, nodes, &callback.tag, callback.stamp) {
        Ok(Some(rec)) => {
            let pointer = Pointer {
                name: to,
                stamp: callback.stamp,
            };
            if rename(meta, nodes, &rec, &callback.tag, pointer) {
                Handled::Renamed
            } else {
                Handled::NoRoom
            }
        }
        Ok(None) => Handled::Gone,
        Err(Stop::Fault) => Handled::Fault,
        Err(Stop::Lost { wanted, found }) => Handled::Lost { wanted, found },
    }
}

/// The record of the file that has a sequence number where a tag says, with the pages that have the record and the pointer resident.
/// None exactly where the metadata does not have it there.
fn find<D: NamedPages>(
    device: &mut D,
    meta: &mut Meta,
    nodes: &Nodes,
    tag: &Tag,
    stamp: u64,
) -> Result<Option<InodeRec>, Stop>
    requires formed { D.formed device.old }
    requires runs { RunningIsRight D.Counts device.old meta.old }
    requires within { tag.now.ino < (D.shape device.old).nodes }
    ensures formed { D.formed device.new }
    ensures kept { PreservesRunning D.Counts device.old meta.old device.new meta.new }
    ensures reads { ReadsExplainStop D.Counts device.old device.new (stop_of result) }
    ensures found { IfOk result (λ o. MatchOption o
        (HoldsTagged (D.shape device.old) (running_on D.Counts device.old meta.old) tag.now stamp → ⊥)
        (λ rec. HasTagged (D.shape device.old) (running_on D.Counts device.old meta.old) tag.now stamp rec
        × TaggedPointerIsResident meta.new tag.now rec × IsTrue (is_stamp stamp))) }
{
    let rec = match file_at(device, meta, nodes, tag) {
        Ok(Some(rec)) => rec,
        Ok(None) => return Ok(None),
        Err(stop) => return Err(stop),
    };
    match hold_range(device, meta, tag, &rec) {
        Ok(()) => {}
        Err(stop) => return Err(stop),
    }
    if has_stamp(meta, tag, &rec, stamp) {
        Ok(Some(rec))
    } else {
        Ok(None)
    }
}

/// The record of the file that a tag names, whose page becomes resident. None exactly where there is no such file, or where the tag's
/// index is none of a file.
fn file_at<D: NamedPages>(
    device: &mut D,
    meta: &mut Meta,
    nodes: &Nodes,
    tag: &Tag,
) -> Result<Option<InodeRec>, Stop>
    requires formed { D.formed device.old }
    requires runs { RunningIsRight D.Counts device.old meta.old }
    requires within { tag.now.ino < (D.shape device.old).nodes }
    ensures formed { D.formed device.new }
    ensures kept { PreservesRunning D.Counts device.old meta.old device.new meta.new }
    ensures reads { ReadsExplainStop D.Counts device.old device.new (stop_of result) }
    ensures file { IfOk result (λ o. MatchOption o
        ((rec : InodeRecOf) → TagsFile (D.shape device.old) (running_on D.Counts device.old meta.old) tag.now rec → ⊥)
        (TagsFile (D.shape device.old) (running_on D.Counts device.old meta.old) tag.now)) }
    ensures there { IfOk result (λ o. IsSome (page_of meta.new (page_of_node tag.now.ino))) }
{
    match hold(device, meta, 67 + tag.ino / 16) {
        Ok(()) => {}
        Err(stop) => return Err(stop),
    }
    let rec = nodes.get(meta, tag.ino);
    if is_tagged(&rec, tag) {
        Ok(Some(rec))
    } else {
        Ok(None)
    }
}

/// Whether a record is a file's, of the generation of a tag whose index is one of a file.
fn is_tagged(rec: &InodeRec, tag: &Tag) -> bool
    ensures { (result ≡ true) ↔ IsTagged tag.now rec.now }
{
    match rec.kind {
        Kind::File => rec.generation == tag.generation && tag.index < INDEXES,
        _ => false,
    }
}

/// The page of the range that has a tag's index is resident, where there is one.
fn hold_range<D: NamedPages>(
    device: &mut D,
    meta: &mut Meta,
    tag: &Tag,
    rec: &InodeRec,
) -> Result<(), Stop>
    requires formed { D.formed device.old }
    requires runs { RunningIsRight D.Counts device.old meta.old }
    requires file { TagsFile (D.shape device.old) (running_on D.Counts device.old meta.old) tag.now rec.now }
    ensures formed { D.formed device.new }
    ensures kept { PreservesRunning D.Counts device.old meta.old device.new meta.new }
    ensures reads { ReadsExplainStop D.Counts device.old device.new (stop_of result) }
    ensures there { IfOk result (λ u. HasRange (page_of meta.new) rec.now tag.now.index) }
{
    let address = page_address(rec, tag.index);
    if address == 0 {
        return Ok(());
    }
    hold(device, meta, address)
}

/// Whether a file has a pointer of this sequence number at a tag's index.
fn has_stamp(meta: &Meta, tag: &Tag, rec: &InodeRec, stamp: u64) -> bool
    requires within { tag.now.index < 4104 }
    requires range { HasRange (page_of meta.now) rec.now tag.now.index }
    ensures { (device : VirtualMap) → result ≡ is_of stamp (pointer_at (running_over device meta.now) rec.now tag.now.index) }
{
    match lookup(rec, meta, tag.index) {
        Some(pointer) => pointer.stamp == stamp,
        None => false,
    }
}

/// The pointer of a file where a tag says gets another name. False, and nothing changed, exactly where the page that has it cannot be
/// made dirty.
fn rename(meta: &mut Meta, nodes: &mut Nodes, rec: &InodeRec, tag: &Tag, to: Pointer) -> bool
    requires at_hand { TaggedPointerIsResident meta.old tag.now rec.now }
    requires within { tag.now.index < 4104 }
    requires spelled { IsTrue (is_stamp to.stamp) }
    ensures room { result ≡ has_room meta.old (page_holding tag.now rec.now) }
    ensures done { result ≡ true → RenamesIn tag.now to rec.now meta.old meta.new }
    ensures refused { result ≡ false → meta.new ≡ meta.old }
    ensures nodes { nodes.new ≡ nodes.old }
{
    let mut changed = *rec;
    let address = page_address(rec, tag.index);
    if address == 0 {
        store(&mut changed, meta, tag.index, Some(to), None);
        return nodes.put(meta, tag.ino, &changed);
    }
    if !meta.has_room(address) {
        return false;
    }
    store(&mut changed, meta, tag.index, Some(to), None);
    true
}
