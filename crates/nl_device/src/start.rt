// Starts a device: a scan of the medium, and the tables that it gives.
ghost use Rattle.std.specs.Prelude.{◌*◌, ◌≡◌, ◌+◌, ◌<◌, ◌≤◌, ℕ, [], None, Some, option_map, true, IfOk, IsTrue};
ghost use Rattle.std.specs.List.{list_all};
ghost use Rattle.nl_field.specs.CrashStates.{Rose};
ghost use Rattle.nl_field.specs.Numbers.{is_legal, shape_for};
ghost use Rattle.nl_field.specs.Virtual.{newest};
ghost use Rattle.nl_iface.specs.Stored.{Value, value_on};
ghost use Rattle.nl_nand.specs.Nand.{MediumOnlyRead};
ghost use Rattle.nl_scan.specs.Tables.{FitsMedium, IsTableOf, greatest_stamp};
ghost use Rattle.nl_device.specs.Kept.{kept_of_scan};
ghost use Rattle.nl_device.specs.Medium.{medium_of};
ghost use Rattle.nl_device.specs.Opening.{FitsShape, IsOpenedPhysical, IsOpenedVirtual, SaysErased};
ghost use Rattle.nl_device.specs.Retain.{CanRetain, kept_of};
ghost use Rattle.nl_device.specs.Started.{HasVirtualSpare, IfStartFault, IfStartMemory, IfStarted, IsStarted};

use crate::device::Device;
use crate::kept::Kept;
use crate::opening::segments::{Opened, open};
use nl_callbacks::Pending;
use nl_field::{Memory, PageBuf, Shape, shape_of};
use nl_iface::Counts;
use nl_nand::{Geometry, Nand};
use nl_pseg::PSeg;
use nl_scan::{ScanTables, Scanned, scan};
use nl_vseg::VSeg;
use std::alloc::Global;

/// What a start answers: the device with the tables of its scan, or the medium where a read failed or memory was refused.
#[derive(Drop)]
pub enum Started<M: Nand> {
    Ready(Device<M>, ScanTables),
    Fault(M),
    Memory(M),
}

fn legal_shape(geometry: Geometry) -> Shape
    requires { IsTrue (is_legal geometry.blocks geometry.pages) }
    ensures { result ≡ shape_for geometry.blocks geometry.pages }
{
    match shape_of(geometry.blocks, geometry.pages) {
        Some(shape) => shape,
        None => unreachable!(),
    }
}

/// What a device has beside its medium after a scan.
#[derive(Drop)]
struct Parts {
    vseg: VSeg,
    pseg: PSeg,
    pending: Pending,
    kept: Kept,
    buf: PageBuf,
}

// What a device keeps of a scan.
fn kept_after(alloc: Global, shape: &Shape, tables: &ScanTables) -> Result<Kept, Memory>
    requires legal { IsTrue (is_legal shape.now.blocks shape.now.pages) }
    requires numbers { shape.now ≡ shape_for shape.now.blocks shape.now.pages }
    requires fits { FitsShape shape.now tables.now }
    ensures { IfOk result (λ k. k ≡ kept_of_scan shape.now tables.now.seen) }
{
    Kept::of(alloc, tables, shape)
}

fn after_scan(alloc: Global, shape: &Shape, tables: &ScanTables) -> Result<Parts, Memory>
    requires legal { IsTrue (is_legal shape.now.blocks shape.now.pages) }
    requires numbers { shape.now ≡ shape_for shape.now.blocks shape.now.pages }
    requires fits { FitsShape shape.now tables.now }
    ensures virtuals { IfOk result (λ p. IsOpenedVirtual shape.now tables.now p.vseg) }
    ensures physicals { IfOk result (λ p. IsOpenedPhysical shape.now tables.now p.pseg) }
    ensures pending { IfOk result (λ p. p.pending ≡ record { callbacks = []; posted = 0; room = 4 * shape.now.pages }) }
    ensures kept { IfOk result (λ p. p.kept ≡ kept_of_scan shape.now tables.now.seen) }
{
    let pending = Pending::new(alloc, 4 * shape.pages)?;
    let kept = kept_after(alloc, shape, tables)?;
    let buf = PageBuf::new(alloc)?;
    let Opened { vseg, pseg } = open(alloc, shape, tables)?;
    Ok(Parts {
        vseg,
        pseg,
        pending,
        kept,
        buf,
    })
}

impl<M: Nand> Device<M> {
    /// Reads each page of a formed medium once, and loads for each virtual address the least of its readable pages with the
    /// greatest write sequence number, outside the spare block of the virtual segment where there is one. Where each page that was
    /// seen agrees with those below it, no write counts as failed. No page of the physical segment is live, and no callback is
    /// pending.
    pub fn start(alloc: Global, media: M) -> Started<M>
        requires formed { IsTrue (is_legal (M.geometry media).blocks (M.geometry media).pages) }
        ensures formed { IfStarted result (λ d t. ⟦<Device<M> as Counts>⟧.formed d) }
        ensures started { IfStarted result
            (λ d t. IsStarted (M.geometry media) t (⟦<Device<M> as Counts>⟧.shape d) (⟦<Device<M> as Counts>⟧.names d)
            (⟦<Device<M> as Counts>⟧.next_stamp d)) }
        ensures clean { IfStarted result
            (λ d t. let shape = ⟦<Device<M> as Counts>⟧.shape d in ((block : ℕ) → shape.vblocks ≤ block → block < shape.blocks
            → SaysErased t block) → ⟦<Device<M> as Counts>⟧.clean d) }
        ensures map { M.tells → IfStarted result
            (λ d t. (v : ℕ) → v < (⟦<Device<M> as Counts>⟧.shape d).vaddrs
            → ⟦<Device<M> as Counts>⟧.map d v ≡ option_map value_on (newest (M.contents media) v)) }
        ensures agreed { M.tells → IfStarted result
            (λ d t. list_all (λ s. s.agrees) t.seen ≡ true → (v : ℕ) (x : Value) → v < (⟦<Device<M> as Counts>⟧.shape d).vaddrs
            → ⟦<Device<M> as Counts>⟧.failed d v x → ⊥) }
        ensures spare { IfStarted result
            (λ d t. HasVirtualSpare M.tells (M.contents media) (⟦<Device<M> as Counts>⟧.shape d) t.seen
            → ⟦<Device<M> as Counts>⟧.keeps_spare d) }
        ensures tables { M.tells → IfStarted result (λ d t. IsTableOf (M.contents media) t) }
        ensures fits { IfStarted result (λ d t. FitsMedium (M.geometry media) t) }
        ensures counts { IfStarted result
            (λ d t. (⟦<Device<M> as Counts>⟧.clock d ≡ M.clock media)
            × (⟦<Device<M> as Counts>⟧.read_faults d ≡ M.read_faults media)
            × (⟦<Device<M> as Counts>⟧.write_faults d ≡ M.write_faults media)) }
        ensures kept { IfStarted result (λ d t. MediumOnlyRead M.geometry M.contents M.clock M.write_faults M.left media (medium_of d)) }
        ensures scanned { IfStarted result (λ d t. kept_of d ≡ kept_of_scan (⟦<Device<M> as Counts>⟧.shape d) t.seen) }
        ensures nothing { IfStarted result (λ d t. CanRetain (kept_of d) []) }
        ensures fault { IfStartFault result
            (λ m. Rose (M.read_faults media) (M.read_faults m) × MediumOnlyRead M.geometry M.contents M.clock M.write_faults M.left media m) }
        ensures memory { IfStartMemory result
            (λ m. (M.read_faults m ≡ M.read_faults media) × MediumOnlyRead M.geometry M.contents M.clock M.write_faults M.left media m) }
    {
        let mut media = media;
        let shape = legal_shape(media.geometry());
        match scan(alloc, &mut media) {
            Scanned::Tables(tables) => match after_scan(alloc, &shape, &tables) {
                Ok(
                    Parts {
                        vseg,
                        pseg,
                        pending,
                        kept,
                        buf,
                    },
                ) => {
                    let next = tables.next_stamp();
                    Started::Ready(
                        Device {
                            media,
                            shape,
                            vseg,
                            pseg,
                            pending,
                            next,
                            kept,
                            buf,
                        },
                        tables,
                    )
                }
                Err(Memory) => Started::Memory(media),
            },
            Scanned::Fault => Started::Fault(media),
            Scanned::Memory => Started::Memory(media),
        }
    }
}
