// The places of virtual addresses.
ghost use Rattle.std.specs.Prelude.{◌≡◌, length, replicate, None, IfOk};

use nl_field::Memory;
use std::alloc::Global;

/// The page of an address, and the write sequence number that it was written under.
#[derive(Clone, Copy, Debug, PartialEq, Eq)]
pub struct Place {
    pub page: u32,
    pub stamp: u64,
}

/// So many addresses that were never written.
pub fn no_places(alloc: Global, count: u32) -> Result<Vec<Option<Place>>, Memory>
    ensures { IfOk result (λ v. v.items ≡ replicate count None) }
{
    let mut places = Vec::with_capacity(alloc, count as usize)?;
    for _ in 0..count {
        places.push(None)?;
    }
    Ok(places)
}
