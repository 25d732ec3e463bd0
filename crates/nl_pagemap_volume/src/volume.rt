//! The volume: it is made on a medium that holds nothing, does calls, and gives its medium back.
ghost use Rattle.std.specs.Prelude.{◌≡◌, ◌+◌, ◌<◌, ◌&&◌, IfOk, is_none};
ghost use Rattle.nl_calls.specs.Answering.{is_sync_call, is_synced};
ghost use Rattle.nl_field.specs.CrashStates.{saturated, top};
ghost use Rattle.nl_field.specs.Numbers.{ShapeBounds};
ghost use Rattle.nl_iface.specs.Device.{IsVolumeShape};
ghost use Rattle.nl_nand.specs.Nand.{IsBlank};
ghost use Rattle.nl_pagemap.specs.Cleaning.{medium_of};
ghost use Rattle.nl_pagemap_volume.specs.Serving.{StampsPaid};
ghost use Rattle.nl_pagemap_volume.specs.Volume.{
  IsNewVolume,
  LeavesNoneAwaiting,
  Shows,
  Stands,
  StopsWriting,
  TellsCount,
  awaiting,
  calls_of,
  counts_in,
  device_of,
  outcome_on,
  refusing_in,
  shape_in,
};
ghost use Rattle.nl_tree.specs.Calls.{IsBounded};
ghost use Rattle.nl_tree.specs.Causes.{FaultIsDue, NeverFall, fault_in};
ghost use Rattle.nl_tree.specs.Charges.{data_charge};
ghost use Rattle.nl_tree.specs.Replay.{Answers};
ghost use Rattle.nl_tree.specs.Tree.{Tree};

use crate::answering::answer;
use crate::freeing::free_due;
use nl_calls::Answer;
use nl_core::Core;
use nl_core_new::open_new;
use nl_field::{Memory, PageBuf, Shape};
use nl_iface::Counts;
use nl_nand::Nand;
use nl_pagemap::Pagemap;
use nl_tree::{Call, Reply, ReplyBuf};
use nl_volume_list::laws::files_are_charged;
use std::alloc::Global;

/// One file system on a page-mapped device, in memory and on one thread.
#[derive(Drop)]
pub struct MapVolume<M: Nand> {
    pub(crate) core: Core<Pagemap<M>>,
    /// How many pages files have.
    pub(crate) files: u32,
    /// The page that a call works on.
    pub(crate) page: PageBuf,
}

impl<M: Nand> MapVolume<M> {
    /// A volume on a medium whose pages are all erased. It shows the tree with only the root. The medium comes back for want of memory,
    /// where a read or a write of it failed, or where what is read again is no such volume.
    pub fn make(alloc: Global, media: M, shape: Shape) -> Result<MapVolume<M>, M>
        requires volume { IsVolumeShape shape }
        requires bounds { ShapeBounds shape }
        requires geometry { M.geometry media ≡ record { blocks = shape.blocks; pages = shape.pages } }
        requires blank { M.tells → IsBlank (M.contents media) }
        requires counts { M.write_faults media < top }
        ensures stands { IfOk result (Stands ⟦<Pagemap<M> as Counts>⟧) }
        ensures new { IfOk result (IsNewVolume ⟦<Pagemap<M> as Counts>⟧ shape) }
    {
        match PageBuf::new(alloc) {
            Ok(page) => make_with(alloc, media, shape, page),
            Err(Memory) => Err(media),
        }
    }

    /// One call, with the bytes that belong to its reply in the buffer. On each tree that the volume shows, reply and bytes are those of the
    /// step, and it shows the tree after that step from then on; or the reply is a fault, which leaves the tree. A fault refuses a call that
    /// changes something on a volume that is read-only or whose write sequence numbers are used up; else it has its cause within the call.
    /// Exactly a sync without a fault has numbers, and the first tells how many calls came before it.
    ///
    /// Blocks of the device are cleaned before, so that the call finds room. Where no fault comes of all this, no page awaits its free
    /// afterwards. The volume is read-only from the first failed program or erase on.
    pub fn step(&mut self, worker: u8, call: &Call, out: &mut ReplyBuf) -> Reply
        requires stands { Stands ⟦<Pagemap<M> as Counts>⟧ self.old }
        requires known { worker < 8 }
        requires bounded { IsBounded call.now }
        ensures stands { Stands ⟦<Pagemap<M> as Counts>⟧ self.new }
        ensures answers { M.tells → (tree : Tree) → Shows ⟦<Pagemap<M> as Counts>⟧ self.old tree
            → Answers (outcome_on ⟦<Pagemap<M> as Counts>⟧ self.old tree call.now result) result out.new }
        ensures goes_on { M.tells → (tree : Tree) → Shows ⟦<Pagemap<M> as Counts>⟧ self.old tree
            → Shows ⟦<Pagemap<M> as Counts>⟧ self.new (outcome_on ⟦<Pagemap<M> as Counts>⟧ self.old tree call.now result).tree }
        ensures cause { FaultIsDue M.tells (refusing_in ⟦<Pagemap<M> as Counts>⟧ self.old) (counts_in ⟦<Pagemap<M> as Counts>⟧ self.old)
            (counts_in ⟦<Pagemap<M> as Counts>⟧ self.new) call.now result }
        ensures synced { is_synced result ≡ (is_sync_call call.now && is_none (fault_in result)) }
        ensures upto { TellsCount (calls_of self.old) result }
        ensures calls { calls_of self.new ≡ saturated (calls_of self.old + 1) }
        ensures freed { LeavesNoneAwaiting ⟦<Pagemap<M> as Counts>⟧ self.old self.new result }
        ensures counts { NeverFall (counts_in ⟦<Pagemap<M> as Counts>⟧ self.old) (counts_in ⟦<Pagemap<M> as Counts>⟧ self.new) }
        ensures same_shape { shape_in ⟦<Pagemap<M> as Counts>⟧ self.new ≡ shape_in ⟦<Pagemap<M> as Counts>⟧ self.old }
        ensures stops { StopsWriting ⟦<Pagemap<M> as Counts>⟧ self.old self.new }
        ensures stamps { StampsPaid ⟦<Pagemap<M> as Counts>⟧ (device_of self.old) (device_of self.new) }
    {
        let Answer { reply, files } = answer(
            &mut self.core,
            worker,
            call,
            self.files,
            out,
            &mut self.page,
        );
        self.files = files;
        free_due(&mut self.core, &reply);
        reply
    }

    /// How many numbers are in use on the device: one for each page that the files of its tree take, and one for each that awaits its free.
    pub fn entries(&self) -> u32
        requires stands { Stands ⟦<Pagemap<M> as Counts>⟧ self.now }
        ensures live { result ≡ (⟦<Pagemap<M> as Counts>⟧.names (device_of self.now)).space.live }
        ensures charged { M.tells → (tree : Tree) → Shows ⟦<Pagemap<M> as Counts>⟧ self.now tree
            → result ≡ data_charge tree + awaiting self.now }
    {
        files_are_charged::<Pagemap<M>>();
        self.core.device.entries()
    }

    /// How many calls it has answered.
    pub fn calls(&self) -> u64
        ensures { result ≡ calls_of self.now }
    {
        self.core.count
    }

    /// Gives the medium back.
    pub fn into_media(self) -> M
        ensures { result ≡ medium_of (device_of self) }
    {
        let MapVolume { core, page, .. } = self;
        drop(page);
        core.device.into_media()
    }
}

// The same with a page.
fn make_with<M: Nand>(
    alloc: Global,
    media: M,
    shape: Shape,
    page: PageBuf,
) -> Result<MapVolume<M>, M>
    requires volume { IsVolumeShape shape }
    requires bounds { ShapeBounds shape }
    requires geometry { M.geometry media ≡ record { blocks = shape.blocks; pages = shape.pages } }
    requires blank { M.tells → IsBlank (M.contents media) }
    requires counts { M.write_faults media < top }
    ensures stands { IfOk result (Stands ⟦<Pagemap<M> as Counts>⟧) }
    ensures new { IfOk result (IsNewVolume ⟦<Pagemap<M> as Counts>⟧ shape) }
{
    match Pagemap::make(alloc, media, shape) {
        Ok(device) => match open_new(alloc, device, shape) {
            Ok(core) => Ok(MapVolume {
                core,
                files: 0,
                page,
            }),
            Err(device) => Err(device.into_media()),
        },
        Err(media) => Err(media),
    }
}
