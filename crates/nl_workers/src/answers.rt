//! The table of answers, in the order of the lines' places, with room for a given number of lines.
ghost use Rattle.std.specs.Prelude.{◌≡◌, ◌==◌, ◌<◌, ◌≤◌, ◌+◌, [], length, IfOk, IfSome, Some, slice_get};
ghost use Rattle.nl_tree.specs.Calls.{IsLine};
ghost use Rattle.nl_workers.specs.Placed.{one_if};
ghost use Rattle.nl_workers.specs.Fresh.{IsFreshStation, AreFresh};
ghost use Rattle.nl_workers.specs.Table.{IsTableFor, lines_to_come, bytes_to_come, read_bytes_of_line};

use crate::desk::{Desk, LineAnswer, room_of};
use crate::placing::{Spot, blank_spots, station_at};
use crate::station::Station;
use nl_field::Memory;
use nl_tree::{Line, Lines, ReplyBuf};
use std::alloc::Global;
use std::marker::Model;

/// One more than the greatest worker.
const WORKERS: u8 = 8;

/// The answers of a script's lines, in the order of their places, and whether a staging or a background task found a page without the
/// wanted stamp. Only `new` takes memory: the bytes that the lines' replies may hold, some 80 bytes for each line, and a buffer for
/// each worker.
#[derive(Drop)]
pub struct AnswerTable {
    pub(crate) alloc: Global,
    pub(crate) stations: Vec<Station>,
    /// Where the answers stand, in the order of their places.
    pub(crate) spots: Vec<Spot>,
    /// Room for the spots: one for each line until the lines are answered.
    pub(crate) spare: Vec<Spot>,
    pub(crate) lost: bool,
}

impl Model for AnswerTable {
    ghost use Rattle.std.specs.Prelude.{length, ◌<◌, ◌^◌};
    ghost use Rattle.nl_workers.specs.Table.{TableState};
    ghost use Rattle.nl_workers.specs.Spots.{rows_at, desks_of, losses_of, AreSpots};

    ghost Value = { TableState };

    ghost view = { λ t. record { rows = rows_at t.stations.items t.spots.items; lost = t.lost; desks = desks_of t.stations.items; lost_by = losses_of t.stations.items; places = length t.spare.items } };

    ghost invariant = { λ t. AreSpots t.stations.items t.spots.items × (length t.spots.items < 2 ^ 32) };
}

impl AnswerTable {
    /// A table for these lines, with no answers.
    pub fn new(alloc: Global, lines: &Lines) -> Result<AnswerTable, Memory>
        ensures { IfOk result (λ t. IsTableFor lines.now t) }
    {
        let stations = stations_for(alloc, lines)?;
        let spare = blank_spots(alloc, lines.len())?;
        Ok(AnswerTable {
            alloc,
            stations,
            spots: Vec::new(alloc),
            spare,
            lost: false,
        })
    }

    /// How many lines are answered.
    pub fn len(&self) -> u32
        ensures { result ≡ length self.now.rows }
    {
        self.spots.len() as u32
    }

    /// The answer at a place, counted from 0.
    pub fn get(&self, at: u32) -> &LineAnswer
        requires { at < length self.now.rows }
        ensures { IfSome (slice_get self.now.rows at) (λ row. (result.now.line ≡ row.line) × (result.now.answered ≡ row.answered)) }
    {
        let spot = &self.spots[at as usize];
        station_at(&self.stations, spot.worker).desk.get(spot.at)
    }

    /// The bytes of the reply at a place, counted from 0.
    pub fn bytes(&self, at: u32) -> &[u8]
        requires { at < length self.now.rows }
        ensures { IfSome (slice_get self.now.rows at) (λ row. result.now ≡ row.bytes) }
    {
        let spot = &self.spots[at as usize];
        station_at(&self.stations, spot.worker).desk.bytes(spot.at)
    }

    /// Whether a staging or a background task found a page without the wanted stamp.
    pub fn lost(&self) -> bool
        ensures { result ≡ self.now.lost }
    {
        self.lost
    }
}

fn stations_for(alloc: Global, lines: &Lines) -> Result<Vec<Station>, Memory>
    ensures { IfOk result (λ v. AreFresh lines.now v.items) }
{
    let mut stations = Vec::with_capacity(alloc, WORKERS as usize)?;
    for worker in 0..WORKERS {
        stations.push_reserved(station_for(alloc, lines, worker)?);
    }
    Ok(stations)
}

fn station_for(alloc: Global, lines: &Lines, worker: u8) -> Result<Station, Memory>
    ensures { IfOk result (λ s. IsFreshStation lines.now worker s) }
{
    let (count, bytes) = room_for(lines, worker);
    Ok(Station {
        desk: Desk::new(alloc, count, bytes)?,
        out: ReplyBuf::new(alloc)?,
        lost: false,
    })
}

/// How many lines a worker has, and how many bytes their replies may hold.
fn room_for(lines: &Lines, worker: u8) -> (u32, usize)
    ensures { (result.0 ≡ lines_to_come worker lines.now) × (result.1 ≡ bytes_to_come worker lines.now) }
{
    let mut count = 0;
    let mut bytes = 0;
    for at in 0..lines.len() {
        let line = lines.get(at);
        count += own_line(line, worker);
        bytes += own_bytes(line, worker);
    }
    (count, bytes)
}

fn own_line(line: &Line, worker: u8) -> u32
    ensures { result ≡ one_if (line.now.worker == worker) }
{
    if line.worker == worker { 1 } else { 0 }
}

#[tactic(auto, using(crate::proofs::Rooms::bounded_few))]
fn own_bytes(line: &Line, worker: u8) -> usize
    requires { IsLine line.now }
    ensures bytes { result ≡ read_bytes_of_line worker line.now }
    ensures few { result ≤ 65536 }
{
    if line.worker == worker {
        room_of(&line.call)
    } else {
        0
    }
}
