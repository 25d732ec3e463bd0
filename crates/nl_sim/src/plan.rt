// What is drawn of a trial: its geometry, its kind of calls, and where its medium stops or fails.
ghost use Rattle.std.specs.Prelude.{◌<◌, ◌≤◌};

use crate::dice::Dice;
use nl_field::{FailList, Memory};
use nl_nand::{Cut, Geometry, Stop};
use std::alloc::Global;

/// The calls that a script has most of.
#[derive(Clone, Copy)]
pub(crate) enum Mix {
    /// The script of a soak.
    Soak,
    /// Directories under directories.
    Deep,
    Renames,
    /// Large writes, until the volume is full.
    Full,
    /// Small writes and syncs.
    Syncs,
    /// All calls alike.
    Even,
}

const MIXES: [Mix; 8] = [
    Mix::Soak,
    Mix::Deep,
    Mix::Renames,
    Mix::Renames,
    Mix::Full,
    Mix::Syncs,
    Mix::Syncs,
    Mix::Even,
];

impl Mix {
    /// Its name in a report.
    pub(crate) fn name(self) -> &'static str {
        match self {
            Mix::Soak => "soak",
            Mix::Deep => "deep",
            Mix::Renames => "renames",
            Mix::Full => "full",
            Mix::Syncs => "syncs",
            Mix::Even => "even",
        }
    }
}

const GEOMETRIES: [Geometry; 3] = [
    Geometry {
        blocks: 32,
        pages: 32,
    },
    Geometry {
        blocks: 33,
        pages: 37,
    },
    Geometry {
        blocks: 64,
        pages: 32,
    },
];

/// The reads, and the programs and erases, of a new medium that fail: their numbers from 1, and 0 for none.
#[derive(Clone, Copy)]
pub(crate) struct Failing {
    pub(crate) reads: [u64; 2],
    pub(crate) writes: [u64; 2],
}

/// No call fails.
pub(crate) const NO_FAILURE: Failing = Failing {
    reads: [0, 0],
    writes: [0, 0],
};

/// A trial: scripts run one after the other on one volume, and what befalls the one that is run now.
#[derive(Clone, Copy)]
pub(crate) struct Plan {
    pub(crate) geometry: Geometry,
    pub(crate) mix: Mix,
    pub(crate) workers: u8,
    /// How many scripts there are.
    pub(crate) scripts: u32,
    /// Which of them is run, from 1.
    pub(crate) script: u32,
    /// Where the medium stops, counted from the opening.
    pub(crate) stop: Option<Stop>,
    pub(crate) failing: Failing,
}

/// The programs of a making, which reads no page.
pub(crate) const MAKING: u64 = 2;

// A geometry by its position, and the first where there is none.
fn geometry_at(at: usize) -> Geometry {
    GEOMETRIES.get(at).copied().unwrap_or(GEOMETRIES[0])
}

fn mix_at(at: usize) -> Mix {
    MIXES.get(at).copied().unwrap_or(Mix::Even)
}

fn drawn_cut(dice: &mut Dice) -> Cut {
    match dice.below(5) {
        0 => Cut::Before,
        1 => Cut::After,
        2 => Cut::Spoilt,
        _ => Cut::Mixed(u64::from(dice.word())),
    }
}

// The greatest number of an operation that stops or fails: within the first commit, or anywhere in a short script, or in a long one.
fn drawn_reach(dice: &mut Dice) -> u32
    ensures { 0 < result }
{
    match dice.below(4) {
        0 => 8,
        1 => 40,
        2 => 160,
        _ => 600,
    }
}

/// Where the medium stops, in three of four runs.
pub(crate) fn drawn_stop(dice: &mut Dice) -> Option<Stop> {
    if dice.is_one_in(4) {
        return None;
    }
    let reach = drawn_reach(dice);
    let operation = 1 + u64::from(dice.below(reach));
    Some(Stop {
        operation,
        cut: drawn_cut(dice),
    })
}

// Two numbers behind the first ones, or one.
fn drawn_numbers(dice: &mut Dice, first: u64) -> [u64; 2]
    requires { first < 1000000 }
{
    let reach = drawn_reach(dice);
    let number = first + 1 + u64::from(dice.below(reach));
    if dice.is_one_in(2) {
        return [number, 0];
    }
    [number, number + 1 + u64::from(dice.below(reach))]
}

// How many reads an opening makes at least. Once in eight draws it is 0, so that one of these fails.
fn drawn_opening(dice: &mut Dice, geometry: Geometry) -> u64
    ensures { result < 1000000 }
{
    let pages = u64::from(geometry.blocks).saturating_mul(u64::from(geometry.pages));
    if dice.is_one_in(8) {
        0
    } else {
        pages.min(999_999)
    }
}

// Which calls fail, of each kind in one of five trials.
fn drawn_failing(dice: &mut Dice, geometry: Geometry) -> Failing {
    let first = drawn_opening(dice, geometry);
    let reads = drawn_numbers(dice, first);
    let writes = drawn_numbers(dice, MAKING);
    match dice.below(5) {
        0 => Failing {
            reads,
            ..NO_FAILURE
        },
        1 => Failing {
            writes,
            ..NO_FAILURE
        },
        _ => NO_FAILURE,
    }
}

/// The trial of these draws, before its first script.
pub(crate) fn drawn_plan(dice: &mut Dice) -> Plan {
    let geometry = geometry_at(dice.place(GEOMETRIES.len()));
    let mix = mix_at(dice.place(MIXES.len()));
    let workers = drawn_workers(dice);
    let scripts = 1 + dice.below(3);
    let stop = drawn_stop(dice);
    let failing = drawn_failing(dice, geometry);
    Plan {
        geometry,
        mix,
        workers,
        scripts,
        script: 1,
        stop,
        failing,
    }
}

// One worker in half of the trials.
fn drawn_workers(dice: &mut Dice) -> u8
    ensures { (0 < result) × (result ≤ 8) }
{
    match dice.below(6) {
        0 => 2,
        1 => 3,
        2 => 8,
        _ => 1,
    }
}

/// The stop of a new medium that is to come in its first run, behind its making.
pub(crate) fn behind_making(stop: Option<Stop>) -> Option<Stop> {
    match stop {
        Some(Stop { operation, cut }) => Some(Stop {
            operation: operation.saturating_add(MAKING),
            cut,
        }),
        None => None,
    }
}

/// The calls of these numbers fail: the first where it is not 0, and then the second where it is greater.
pub(crate) fn fail_list(alloc: Global, numbers: [u64; 2]) -> Result<FailList, Memory> {
    let [first, second] = numbers;
    let mut list = FailList::new(alloc);
    if first == 0 {
        return Ok(list);
    }
    list.push(first)?;
    if first < second {
        list.push(second)?;
    }
    Ok(list)
}
