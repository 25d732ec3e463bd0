// A new volume in a memory, and the core over it.
ghost use Rattle.std.specs.Prelude.{IfOk};
ghost use Rattle.nl_core.specs.Core.{IsCore};
ghost use Rattle.nl_core_new.specs.New.{IsNew};
ghost use Rattle.nl_field.specs.Numbers.{ShapeBounds};
ghost use Rattle.nl_iface.specs.Device.{IsVolumeShape};

use nl_core::Core;
use nl_core_new::open_new;
use nl_field::{Memory, Shape, shape_of};
use nl_iface::Counts;
use nl_testkit_still::Still;
use std::alloc::Global;

/// The core over a new volume of these numbers.
pub fn open(alloc: Global, shape: Shape) -> Result<Core<Still>, Memory>
    requires volume { IsVolumeShape shape }
    requires bounds { ShapeBounds shape }
    ensures core { IfOk result (IsCore ⟦<Still as Counts>⟧) }
    ensures new { IfOk result (IsNew ⟦<Still as Counts>⟧) }
{
    let still = Still::new(alloc, shape)?;
    match open_new(alloc, still, shape) {
        Ok(core) => Ok(core),
        Err(still) => {
            drop(still);
            Err(Memory)
        }
    }
}

/// The core over a new volume of 32 blocks of 32 pages.
pub fn open_least(alloc: Global) -> Result<Core<Still>, Memory>
    ensures core { IfOk result (IsCore ⟦<Still as Counts>⟧) }
    ensures new { IfOk result (IsNew ⟦<Still as Counts>⟧) }
{
    match shape_of(32, 32) {
        Some(shape) => open(alloc, shape),
        None => Err(Memory),
    }
}
