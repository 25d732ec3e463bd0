//! A pending callback is handled, and marked with the transaction that did it.
ghost use Rattle.std.specs.Prelude.{◌≡◌, ◌+◌, ◌≤◌, length};
ghost use Rattle.nl_core_callbacks.specs.Blocked.{IsBlocked, drained_stop};
ghost use Rattle.nl_core_callbacks.specs.Handled.{HandlesSome, volume};
ghost use Rattle.nl_iface.specs.Moves.{MarksHandled};
ghost use Rattle.nl_iface.specs.Names.{Has};
ghost use Rattle.nl_meta_running.specs.Reading.{ReadsExplainStop};
ghost use Rattle.nl_meta_running.specs.Running.{RunningIsRight};

use nl_field::{PointerList, Shape};
use nl_flight::Flight;
use nl_handler::laws::{handler_changes_pages, handler_keeps, holders_renamed};
use nl_handler::{Handled, handle};
use nl_iface::{Callback, MovingPages};
use nl_inode::Nodes;
use nl_meta::Meta;

/// What the handling of a callback answers.
#[derive(Clone, Copy, Debug, PartialEq, Eq)]
pub enum Drained {
    /// The callback was handled.
    Done,
    /// A page of the metadata has the callback's pointer, and cannot be made dirty.
    NoRoom,
    /// A read failed.
    Fault,
    /// A page does not hold the sequence number under which its address was written.
    Lost { wanted: u64, found: u64 },
}

/// Handles one pending callback: the pointer of its sequence number gets the name to which its old name leads now, and the callback
/// counts as handled by this transaction, or by the earlier one that it had. The transaction is to come after the one that is frozen: then
/// whoever holds a page holds it as before, and the committed and the frozen pointers stay safe. Else only names of pages change, and at
/// most one page becomes dirty.
///
/// `NoRoom` comes where the metadata has the pointer in a page that cannot be made dirty: a commit makes room. `NoRoom`, `Fault` and `Lost`
/// leave the callback as it was. One whose page nobody holds is passed over, and counts as handled; there is none where each live page has
/// its holder.
pub fn handle_one<D: MovingPages>(
    callback: &Callback,
    shape: &Shape,
    device: &mut D,
    meta: &mut Meta,
    nodes: &mut Nodes,
    flight: &mut Flight,
    freeing: &mut PointerList,
    transaction: u64,
) -> Drained
    requires formed { D.formed device.old }
    requires runs { RunningIsRight D.Counts device.old meta.old }
    requires pending { Has (D.names device.old).pending callback.now }
    requires shape { shape.now ≡ D.shape device.old }
    ensures formed { D.formed device.new }
    ensures runs { RunningIsRight D.Counts device.new meta.new }
    ensures done { result ≡ Drained.Done → MarksHandled callback.now transaction (D.names device.old) (D.names device.new) }
    ensures few { length meta.new.dirty ≤ length meta.old.dirty + 1 }
    ensures same { (result ≡ Drained.Done → ⊥) → (D.names device.new ≡ D.names device.old) × (meta.new.dirty ≡ meta.old.dirty) }
    ensures no_room { result ≡ Drained.NoRoom → IsBlocked D.Counts (volume device.new meta.new flight.new freeing.new.items) callback.now }
    ensures room_made { result ≡ Drained.Done → IsBlocked D.Counts (volume device.old meta.old flight.old freeing.old.items) callback.now
        → ⊥ }
    ensures handles { HandlesSome D.Counts transaction (volume device.old meta.old flight.old freeing.old.items)
        (volume device.new meta.new flight.new freeing.new.items) }
    ensures nodes { nodes.new ≡ nodes.old }
    ensures room { freeing.new.room ≡ freeing.old.room }
    ensures reads { ReadsExplainStop D.Counts device.old device.new (drained_stop result) }
{
    holders_renamed();
    handler_keeps::<D>();
    handler_changes_pages::<D>();
    match handle(callback, shape, device, meta, nodes, flight, freeing) {
        Handled::Renamed | Handled::Gone => {
            let _ = device.handled(callback.number, transaction);
            Drained::Done
        }
        Handled::NoRoom => Drained::NoRoom,
        Handled::Fault => Drained::Fault,
        Handled::Lost { wanted, found } => Drained::Lost { wanted, found },
    }
}
