//! The handling of one callback: the pages in flight, then the pointers that await their free, then the metadata.
ghost use Rattle.std.specs.Prelude.{◌≡◌, ◌<◌, ◌⊎◌, true, map};
ghost use Rattle.nl_field.specs.Live.{resolve};
ghost use Rattle.nl_flight.specs.Flight.{has_stamp, renamed, renamed_pointer};
ghost use Rattle.nl_iface.specs.Names.{Has};
ghost use Rattle.nl_meta_running.specs.Reading.{ReadsExplainStop};
ghost use Rattle.nl_meta_running.specs.Running.{RunningIsRight};
ghost use Rattle.nl_handler.specs.Handling.{HandlesStored, IsElsewhere, handled_stop, list_has};

use crate::answer::Handled;
use crate::metadata::rename_stored;
use nl_field::{Pointer, PointerList, Shape};
use nl_flight::Flight;
use nl_iface::{Callback, NamedPages};
use nl_inode::Nodes;
use nl_meta::Meta;

/// Gives the pointer of a callback's sequence number the name to which its old name leads now. Pages in flight and pointers that await
/// their free come first, and then the metadata: the file of the callback's tag, at the index of the tag. `Gone` exactly where none of
/// them has the sequence number, also where the volume has no node of the tag's number, and `NoRoom` exactly where the metadata has it in
/// a page that cannot be made dirty; `Fault` and `Lost` of a read come in place of the others.
pub fn handle<D: NamedPages>(
    callback: &Callback,
    shape: &Shape,
    device: &mut D,
    meta: &mut Meta,
    nodes: &mut Nodes,
    flight: &mut Flight,
    freeing: &mut PointerList,
) -> Handled
    requires formed { D.formed device.old }
    requires runs { RunningIsRight D.Counts device.old meta.old }
    requires pending { Has (D.names device.old).pending callback.now }
    requires shape { shape.now ≡ D.shape device.old }
    ensures formed { D.formed device.new }
    ensures runs { RunningIsRight D.Counts device.new meta.new }
    ensures flight { flight.new ≡ renamed callback.now.stamp (resolve (D.names device.old).pairs callback.now.before) flight.old }
    ensures freeing { freeing.new ≡ record { items = map (renamed_pointer callback.now.stamp (resolve (D.names device.old).pairs callback.now.before)) freeing.old.items; room = freeing.old.room } }
    ensures nodes { nodes.new ≡ nodes.old }
    ensures elsewhere { IsElsewhere callback.now.stamp flight.old freeing.old.items
        → (result ≡ Handled.Renamed) × (meta.new ≡ meta.old) × (device.new ≡ device.old) }
    ensures stored { (IsElsewhere callback.now.stamp flight.old freeing.old.items → ⊥)
        → HandlesStored D.Counts device.old meta.old device.new meta.new callback.now.tag callback.now.stamp
        (resolve (D.names device.old).pairs callback.now.before) result }
    ensures reads { ReadsExplainStop D.Counts device.old device.new (handled_stop result) }
{
    let to = device.resolve(callback.before);
    let flies = flight.rename(callback.stamp, to);
    let awaits = rename_all(freeing, callback.stamp, to);
    if flies || awaits {
        Handled::Renamed
    } else {
        rename_stored(shape, device, meta, nodes, callback, to)
    }
}

/// Gives each pointer of a sequence number this name. False exactly where none has it.
fn rename_all(list: &mut PointerList, stamp: u64, to: u32) -> bool
    ensures found { result ≡ list_has stamp list.old.items }
    ensures renamed { list.new ≡ record { items = map (renamed_pointer stamp to) list.old.items; room = list.old.room } }
{
    let mut found = false;
    for at in 0..list.len() {
        let pointer = *list.get(at);
        if pointer.stamp == stamp {
            found = true;
            list.set(at, Pointer { name: to, stamp });
        }
    }
    found
}
