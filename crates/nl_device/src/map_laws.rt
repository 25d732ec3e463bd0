//! The law that a device has no map of its own: it says of the medium's image what the traits' law says of what is stored.
ghost use Rattle.std.specs.Prelude.{◌≡◌, ℕ, List, Some};
ghost use Rattle.nl_field.specs.declared.pointer.Pointer.{Pointer as PointerOf};
ghost use Rattle.nl_field.specs.declared.pointer.Tag.{Tag as TagOf};
ghost use Rattle.nl_iface.specs.Calls.{LeavesNew, NoWriteFailed, PlacesNewPage, next_named};
ghost use Rattle.nl_iface.specs.Moves.{HasCopied};
ghost use Rattle.nl_iface.specs.Names.{Has, Names};
ghost use Rattle.nl_iface.specs.OwnMap.{InventsName, LeadsAway, MovesSilently};
ghost use Rattle.nl_iface.specs.Stored.{stored_in};
ghost use Rattle.nl_iface.specs.declared.Callback.{Callback as CallbackOf};
ghost use Rattle.nl_device.specs.declared.device.Device.{Device as DeviceOf};

use crate::device::Device;
use nl_field::Named;
use nl_iface::Counts;
use nl_iface::laws::own_maps_are_refused;
use nl_nand::Nand;

/// A device over a medium keeps no map of its own. The name that a write answers is the page of the medium that it programmed: the image
/// holds it there, and no other page of it was programmed. A page that moves posts a callback; and while none is pending, each name leads
/// to the page of its own number.
pub fn devices_keep_no_map<M: Nand>()
    ensures named { (tag : TagOf) (main : List ℕ) (old new : DeviceOf M) (at : PointerOf)
        → LeavesNew ⟦<Device<M> as Counts>⟧ tag main (Named.Placed at) old new
        → (stored_in (M.contents new.media)).named at.name ≡ Some (next_named ⟦<Device<M> as Counts>⟧ tag main old) }
    ensures invented { (tag : TagOf) (main : List ℕ) (gone : ℕ) (before : Names) (old new : DeviceOf M) (at : PointerOf) → M.tells
        → NoWriteFailed ⟦<Device<M> as Counts>⟧ old new
        → PlacesNewPage ⟦<Device<M> as Counts>⟧ tag main gone before old new at
        → InventsName at.name (stored_in (M.contents old.media)) (stored_in (M.contents new.media)) → ⊥ }
    ensures silent { (old new : DeviceOf M) → HasCopied ⟦<Device<M> as Counts>⟧ old new
        → MovesSilently (⟦<Device<M> as Counts>⟧.names old) (⟦<Device<M> as Counts>⟧.names new) → ⊥ }
    ensures led { (d : DeviceOf M) → ⟦<Device<M> as Counts>⟧.formed d
        → ((c : CallbackOf) → Has (⟦<Device<M> as Counts>⟧.names d).pending c → ⊥) → LeadsAway (⟦<Device<M> as Counts>⟧.names d) → ⊥ }
{
    own_maps_are_refused::<Device<M>>();
}
