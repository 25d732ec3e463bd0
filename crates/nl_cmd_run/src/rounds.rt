ghost use Rattle.std.specs.Prelude.{◌≡◌, ◌||◌, ◌+◌, [], true, length, IfErr, IfOk};
ghost use Rattle.nl_device.specs.Medium.{medium_of};
ghost use Rattle.nl_core_open.specs.Opening.{OnlyReadsMedium};
ghost use Rattle.nl_spec_image.specs.Stands.{ConsistentAs};
ghost use Rattle.nl_tree.specs.Calls.{AreLines};
ghost use Rattle.nl_tree.specs.Tree.{Tree};
ghost use Rattle.nl_workers.specs.Heard.{EachHeardAround};
ghost use Rattle.nl_workers.specs.Rounds.{IsFirstSeat};
ghost use Rattle.nl_workers.specs.Table.{IsTableFor};
ghost use Rattle.nl_spec_headline.specs.Course.{Course};
ghost use Rattle.nl_spec_headline.specs.Streams.{medium_seen, stops_within};
ghost use Rattle.nl_volume.specs.Opened.{IsReason, medium_in};
ghost use Rattle.nl_cmd_course.specs.Rounds.{LinesRan};
ghost use Rattle.nl_cmd_run.specs.Closing.{TellsClosing};

use crate::charging::charges_of;
use nl_cmd_course::{Charges, Tables};
use nl_device::Device;
use nl_iface::Counts;
use nl_nand::Nand;
use nl_tree::Lines;
use nl_turns::{Kept, TurnSeat, Turns};
use nl_volume::{NotOpened, Told, Volume, open};
use nl_workers::{Gate, run_rounds};
use std::alloc::{AllocFailed, Global};
use std::marker::Brand;
use std::sync::Wait;
use std::thread::Threads;

/// All seats of the lock: eight workers, the cleaner and the handler.
const SEATS: u32 = 10;

/// What lines leave that were run: the medium, the count with which the volume opened, whether a page was lost, whether closing found the
/// write sequence numbers used up, and what the tree took of the volume in the end.
#[derive(Drop)]
pub struct Ran<M: Nand> {
    pub media: M,
    pub count: u64,
    pub lost: bool,
    pub worn: bool,
    pub charges: Charges,
}

/// Opens the volume of a medium, runs the lines on it in turns of a lock, and closes it. The sentences of the headline hold of the course
/// that the answers in the table are of, of which there is one for each line. The gate was told of each line before its turns and after
/// its effect. A page is told as lost exactly where a turn that stages or does a background task met one, or closing did. Or no volume was
/// opened, or memory was wanting for the lock: then the medium was only read.
pub fn run_lines<Rt: Threads + Wait + Sync, M: Nand + Send, G: Gate + Sync>(
    rt: &Rt,
    alloc: Global,
    media: M,
    lines: &Lines,
    tables: &mut Tables,
    gate: &G,
) -> Result<Ran<M>, NotOpened<M>>
    requires table { IsTableFor lines.now tables.old.answers }
    ensures ran { IfOk result (λ r. (course : Course) × (r.count ≡ course.count) × LinesRan M.tells lines.now
        (stops_within M.Nand media r.media) (medium_seen M.Nand media) (medium_seen M.Nand r.media)
        tables.new.answers.rows r.lost r.worn r.charges course) }
    ensures rows { IfOk result (λ r. length tables.new.answers.rows ≡ length lines.now) }
    ensures heard { IfOk result (λ r. EachHeardAround (G.heard gate.now) lines.now) }
    ensures lost { IfOk result (λ r. tables.new.answers.lost ≡ true → r.lost ≡ true) }
    ensures closing { IfOk result (λ r. TellsClosing ⟦<Device<M> as Counts>⟧ M.Nand lines.now r) }
    ensures lists { (tables.new.order ≡ tables.old.order) × (tables.new.syncs ≡ tables.old.syncs) }
    ensures why { IfErr result (λ why. IsReason M.tells M.contents M.read_faults media why) }
    ensures left { IfErr result (λ why. OnlyReadsMedium M.tells M.contents M.clock M.write_faults M.left media (medium_in why)) }
{
    let _lines = lines.as_slice();
    let volume = match open(alloc, media) {
        Ok(volume) => volume,
        Err(why) => return Err(why),
    };
    match run_opened(rt, alloc, volume, lines, tables, gate) {
        Ok(ran) => Ok(ran),
        Err(volume) => Err(NotOpened::Memory(volume.into_media())),
    }
}

// Runs the lines in turns of a lock over a volume that opened on its medium, and closes it. The volume comes back for want of memory.
fn run_opened<Rt: Threads + Wait + Sync, M: Nand + Send, G: Gate + Sync>(
    rt: &Rt,
    alloc: Global,
    volume: Volume<M>,
    lines: &Lines,
    tables: &mut Tables,
    gate: &G,
) -> Result<Ran<M>, Volume<M>>
    requires opened { ⟦<Volume<M> as Told>⟧.opened_on (M.contents (medium_of volume.core.device)) volume }
    requires stands { (tree : Tree) → (M.tells → ConsistentAs (M.contents (medium_of volume.core.device)) volume.core.count tree)
        → ⟦<Volume<M> as Kept>⟧.stands volume (⟦<Volume<M> as Told>⟧.opening volume tree lines.now) [] volume }
    requires table { IsTableFor lines.now tables.old.answers }
    ensures ran { IfOk result (λ r. (course : Course) × (r.count ≡ course.count) × LinesRan M.tells lines.now
        (stops_within M.Nand (medium_of volume.core.device) r.media) (medium_seen M.Nand (medium_of volume.core.device))
        (medium_seen M.Nand r.media)
        tables.new.answers.rows r.lost r.worn r.charges course) }
    ensures lost { IfOk result (λ r. tables.new.answers.lost ≡ true → r.lost ≡ true) }
    ensures closing { IfOk result (λ r. TellsClosing ⟦<Device<M> as Counts>⟧ M.Nand lines.now r) }
    ensures lists { (tables.new.order ≡ tables.old.order) × (tables.new.syncs ≡ tables.old.syncs) }
    ensures memory { IfErr result (λ v. v ≡ volume) }
    ensures heard { IfOk result (λ r. EachHeardAround (G.heard gate.now) lines.now) }
{
    let _lines = lines.as_slice();
    let count = volume.calls();
    let (turns, mut seat) = match open_lock(alloc, volume, lines) {
        Ok(made) => made,
        Err(volume) => return Err(volume),
    };
    run_rounds(
        rt,
        &turns,
        &mut seat,
        lines,
        &mut tables.kit,
        &mut tables.answers,
        gate,
    );
    let boxed = turns.close(seat);
    let volume = Box::into_inner(boxed);
    let charges = charges_of(&volume.report());
    let closed = volume.close();
    let _clock = closed.media.clock();
    let _faults = closed.media.write_faults();
    Ok(Ran {
        media: closed.media,
        count,
        lost: any_lost(closed.lost, tables.answers.lost()),
        worn: closed.worn,
        charges,
    })
}

// Whether closing lost a page, or a turn did.
fn any_lost(at_closing: bool, in_turns: bool) -> bool
    ensures { result ≡ at_closing || in_turns }
{
    at_closing || in_turns
}

// The lock over a volume, which stands for the lines from the tree of its image, and its first seat. The volume comes back for want of
// memory. It is boxed: a turn then moves a pointer, and not the volume.
fn open_lock<M: Nand>(
    alloc: Global,
    volume: Volume<M>,
    lines: &Lines,
) -> Result<(Turns<Box<Volume<M>>>, TurnSeat), Volume<M>>
    requires opened { ⟦<Volume<M> as Told>⟧.opened_on (M.contents (medium_of volume.core.device)) volume }
    requires stands { (tree : Tree) → (M.tells → ConsistentAs (M.contents (medium_of volume.core.device)) volume.core.count tree)
        → ⟦<Volume<M> as Kept>⟧.stands volume (⟦<Volume<M> as Told>⟧.opening volume tree lines.now) [] volume }
    ensures opening { IfOk result (λ r. (tree : Tree) × (M.tells → ConsistentAs (M.contents (medium_of volume.core.device)) volume.core.count tree)
        × (r.1.opening ≡ ⟦<Volume<M> as Told>⟧.opening volume tree lines.now)) }
    ensures first { IfOk result (λ r. IsFirstSeat lines.now r.1) }
    ensures lock { IfOk result (λ r. (r.1.lock ≡ r.0.name) × (r.1.places + 1 ≡ r.0.seats) × (r.0.origin.value ≡ volume)) }
    ensures memory { IfErr result (λ v. v ≡ volume) }
{
    let boxed = match Box::new(alloc, volume) {
        Ok(boxed) => boxed,
        Err(AllocFailed { value }) => return Err(value),
    };
    match Turns::new::<Brand>(alloc, boxed, lines, SEATS) {
        Ok(made) => Ok(made),
        Err(boxed) => Err(Box::into_inner(boxed)),
    }
}
