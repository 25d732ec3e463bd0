//! Where the row of each place stands among the desks of the workers.
ghost use Rattle.std.specs.Prelude.{◌≡◌, ◌+◌, ◌<◌, ◌≤◌, length, vec_len, IfOk, Some, slice_get};
ghost use Rattle.nl_workers.specs.Spots.{OrdinalsFit, AreSpotted};

use crate::station::Station;
use nl_field::Memory;
use std::alloc::Global;

/// Where an answer stands: which worker's it is, and at which place of its desk.
#[derive(Clone, Copy, Drop)]
pub(crate) struct Spot {
    pub(crate) worker: u8,
    pub(crate) at: u32,
}

/// A list of so many spots, which lead nowhere yet. `Memory` where there is no room for it.
pub(crate) fn blank_spots(alloc: Global, count: u32) -> Result<Vec<Spot>, Memory>
    ensures { IfOk result (λ v. vec_len v ≡ count) }
{
    let mut spots = Vec::with_capacity(alloc, count as usize)?;
    for _ in 0..count {
        spots.push_reserved(Spot { worker: 0, at: 0 });
    }
    Ok(spots)
}

pub(crate) fn station_at(stations: &Vec<Station>, worker: u8) -> &Station
    requires { worker < vec_len stations.now }
    ensures { slice_get stations.now.items worker ≡ Some result.now }
{
    &stations[worker as usize]
}

/// Puts the spot of each answer of a worker at the place of its ordinal.
fn place_desk(stations: &Vec<Station>, worker: u8, mut spots: Vec<Spot>) -> Vec<Spot>
    requires there { worker < vec_len stations.now }
    requires ordinals { OrdinalsFit stations.now.items (vec_len spots) }
    requires begun { AreSpotted stations.now.items worker 0 spots.items }
    ensures len { vec_len result ≡ vec_len spots }
    ensures spotted { AreSpotted stations.now.items (worker + 1) 0 result.items }
{
    let desk = &station_at(stations, worker).desk;
    for at in 0..desk.len() {
        let ordinal = desk.get(at).answered.ordinal;
        spots[(ordinal - 1) as usize] = Spot { worker, at };
    }
    spots
}

/// Puts the spot of each answer at the place of its ordinal.
pub(crate) fn place_all(stations: &Vec<Station>, mut spots: Vec<Spot>) -> Vec<Spot>
    requires few { vec_len stations.now ≤ 8 }
    requires ordinals { OrdinalsFit stations.now.items (vec_len spots) }
    ensures len { vec_len result ≡ vec_len spots }
    ensures spotted { AreSpotted stations.now.items (vec_len stations.now) 0 result.items }
{
    for worker in 0..stations.len() as u8 {
        spots = place_desk(stations, worker, spots);
    }
    spots
}
