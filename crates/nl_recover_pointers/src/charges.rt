//! The phase of a walk that counts the pages of files against the room of the volume.
ghost use Rattle.std.specs.Prelude.{◌≡◌, nat_lt, length};
ghost use Rattle.nl_meta.specs.Walk.{zero_where};

use crate::HeldList;
use nl_field::Shape;

/// Place 0 where there are more pages of files than the volume has room for.
pub fn charge_fault(shape: &Shape, held: &HeldList) -> Option<u32>
    ensures { result ≡ zero_where (nat_lt shape.now.cap (length held.now)) }
{
    if shape.cap < held.len() {
        Some(0)
    } else {
        None
    }
}
