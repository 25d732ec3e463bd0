// A volume is opened, goes through a table of calls, and is read back.
use crate::image::{Layout, Plan, image};
use crate::reading::{Work, Wrong, first_wrong};
use crate::rig::{Rig, Seen, Step};
use nl_core::Core;
use nl_core_open::{Opened, open};
use nl_device::Device;
use nl_field::{FailList, Memory};
use nl_iface::Counts;
use nl_nand::{MemNand, Stop};
use std::alloc::Global;
use std::mem;
use std::process::Abort;

/// What differs from what is wanted: the answer of a row, or what is read back.
#[derive(Clone, Copy)]
pub enum Differs {
    Row(usize, Seen),
    Holds(Wrong),
}

/// What is done with a volume that was opened, and what it is to hold then.
#[derive(Clone, Copy)]
pub struct Visit<'a> {
    pub rows: &'a [(Step, Seen)],
    pub holds: Option<Holds>,
}

/// After how many calls the metadata runs, and how many pages are in flight.
#[derive(Clone, Copy)]
pub struct Holds {
    pub calls: u64,
    pub in_flight: u32,
}

/// A visit by these rows, after which the metadata runs after so many calls, and nothing is in flight.
pub fn tree(rows: &[(Step, Seen)], calls: u64) -> Visit<'_> {
    let holds = Holds {
        calls,
        in_flight: 0,
    };
    Visit {
        rows,
        holds: Some(holds),
    }
}

/// A plan in which no call fails, and the medium may stop.
pub fn sound(alloc: Global, stop: Option<Stop>) -> Plan {
    Plan {
        reads: FailList::new(alloc),
        writes: FailList::new(alloc),
        stop,
    }
}

/// A plan in which the read and the write of these numbers fail, where they are not zero.
pub fn failing(alloc: Global, read: u64, write: u64) -> Result<Plan, Memory> {
    Ok(Plan {
        reads: only(alloc, read)?,
        writes: only(alloc, write)?,
        stop: None,
    })
}

fn only(alloc: Global, number: u64) -> Result<FailList, Memory> {
    let mut list = FailList::new(alloc);
    if 0 < number {
        list.push(number)?;
    }
    Ok(list)
}

fn opened(alloc: Global, media: MemNand) -> Result<Rig, Memory> {
    match open(alloc, media) {
        Opened::Ready(core, _) => Ok(Rig { core }),
        other => {
            drop(other);
            Err(Memory)
        }
    }
}

fn looks(core: &mut Core<Device<MemNand>>, holds: Option<Holds>, work: &mut Work) -> Option<Differs>
    requires { ⟦<Device<MemNand> as Counts>⟧.formed core.old.device }
{
    match holds {
        Some(holds) => match first_wrong(core, holds.calls, holds.in_flight, work) {
            Some(wrong) => Some(Differs::Holds(wrong)),
            None => None,
        },
        None => None,
    }
}

fn medium_of(core: Core<Device<MemNand>>) -> MemNand {
    let Core {
        device,
        shape: _,
        journal: _,
        meta: _,
        nodes: _,
        flight: _,
        freeing: _,
        leaving: _,
        count: _,
        committed: _,
        frozen: _,
        moment: _,
        stopped: _,
    } = core;
    device.into_media()
}

/// A medium that was never formed.
fn blank(alloc: Global) -> MemNand {
    MemNand::new(alloc, FailList::new(alloc), FailList::new(alloc), None)
}

/// What differs in a visit of the volume of a medium. Where it cannot be opened the medium is lost.
fn visited(
    alloc: Global,
    media: &mut MemNand,
    visit: Visit<'_>,
    work: &mut Work,
) -> Result<Option<Differs>, Memory> {
    let before = mem::replace(media, blank(alloc));
    let mut rig = opened(alloc, before)?;
    let row = rig.differs(visit.rows, &mut work.page);
    let Rig { mut core } = rig;
    let holds = looks(&mut core, visit.holds, work);
    *media = medium_of(core);
    match row {
        Some((at, seen)) => Ok(Some(Differs::Row(at, seen))),
        None => Ok(holds),
    }
}

/// The medium is as after a crash, and stops nowhere.
fn restart(alloc: Global, media: &mut MemNand) {
    let before = mem::replace(media, blank(alloc));
    *media = before.restart(None);
}

/// Rounds until no page is dead: the 480 live pages fill 15 of 24 blocks.
const CLEANED: [(Step, Seen); 4] = [
    (Step::Quiet(30), Seen::Did),
    (Step::Pairs, Seen::Number(0)),
    (Step::FreeBlocks, Seen::Number(9)),
    (Step::Clean, Seen::Nothing),
];

/// The first of two.
fn either(first: Option<Differs>, second: Option<Differs>) -> Option<Differs> {
    match first {
        Some(differs) => Some(differs),
        None => second,
    }
}

/// What differs in a volume that is opened again: it has answered so many calls, and holds what it held, also once no page is dead any
/// more.
fn reopened(
    alloc: Global,
    media: &mut MemNand,
    calls: u64,
    work: &mut Work,
) -> Result<Option<Differs>, Memory> {
    let counted = [(Step::Count, Seen::Number(calls))];
    let first = visited(alloc, media, tree(&counted, calls), work)?;
    let second = visited(alloc, media, tree(&CLEANED, calls), work)?;
    Ok(either(first, second))
}

/// What differs in a visit of the volume of that layout, and then, where the number of its calls is told, once it is opened again.
pub fn differing(
    alloc: Global,
    layout: &Layout,
    plan: Plan,
    visit: Visit<'_>,
    calls: Option<u64>,
) -> Result<Option<Differs>, Memory> {
    let mut work = Work::new(alloc)?;
    let found = differing_in(alloc, layout, plan, visit, calls, &mut work);
    drop(work);
    found
}

fn differing_in(
    alloc: Global,
    layout: &Layout,
    plan: Plan,
    visit: Visit<'_>,
    calls: Option<u64>,
    work: &mut Work,
) -> Result<Option<Differs>, Memory> {
    let mut media = image(alloc, layout, plan)?;
    let found = differing_on(alloc, &mut media, visit, calls, work);
    drop(media);
    found
}

fn differing_on(
    alloc: Global,
    media: &mut MemNand,
    visit: Visit<'_>,
    calls: Option<u64>,
    work: &mut Work,
) -> Result<Option<Differs>, Memory> {
    let first = visited(alloc, media, visit, work)?;
    match calls {
        Some(calls) => {
            restart(alloc, media);
            Ok(either(first, reopened(alloc, media, calls, work)?))
        }
        None => Ok(first),
    }
}

/// Whether an opening of the medium fails.
pub fn is_fault(alloc: Global, media: MemNand) -> bool {
    match open(alloc, media) {
        Opened::Fault(media) => {
            drop(media);
            true
        }
        other => {
            drop(other);
            false
        }
    }
}

/// Asserts that nothing differs, and that there was memory.
pub fn assert_none_differs<T: Copy>(rt: &impl Abort, found: Result<Option<T>, Memory>) {
    assert!(rt; matches!(found, Ok(None)));
}
