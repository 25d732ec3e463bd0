ghost use Rattle.std.specs.Prelude.{◌≡◌, ◌≢◌, ◌⊎◌, ◌↔◌, ◌+◌, ◌≤◌, ◌^◌, List, true, false, IsTrue};
ghost use Rattle.nl_core.specs.Core.{begun_of};
ghost use Rattle.nl_device.specs.Medium.{medium_of};
ghost use Rattle.nl_field.specs.CrashStates.{Rose};
ghost use Rattle.nl_spec_image.specs.Crash.{CrashesSafely};
ghost use Rattle.nl_spec_image.specs.Stands.{ConsistentAs};
ghost use Rattle.nl_tree.specs.Causes.{FaultRose, NeverFall};
ghost use Rattle.nl_turns.specs.History.{Opening, effects, opening_counts, tree_after};
ghost use Rattle.nl_turns.specs.Served.{StandsForSome};
ghost use Rattle.nl_turns.specs.declared.entry.Entry.{Entry as TurnEntry};
ghost use Rattle.nl_calls_steps.specs.Calls.{counts_of};
ghost use Rattle.nl_volume.specs.Closing.{CommitsLast, ClosesCommitted, IsYoungAtEnd, LosesLastCommit, counts_on};
ghost use Rattle.nl_volume_stage.specs.Standing.{run_of};
ghost use Rattle.nl_volume.specs.declared.volume.Volume.{Volume as VolumeOf};

use crate::volume::Volume;
use nl_device::Device;
use nl_iface::Counts;
use nl_nand::Nand;
use nl_spec_commits::laws::device_stands;
use nl_turns::Kept;
use nl_volume_stage::{commit_last, is_fault, is_lost};

/// What closing a volume leaves: its medium; whether an operation of the medium failed in the last commit, or a page was lost; and whether
/// the write sequence numbers were used up.
#[derive(Drop)]
pub struct Closed<M: Nand> {
    pub media: M,
    pub fault: bool,
    pub lost: bool,
    pub worn: bool,
}

impl<M: Nand> Volume<M> {
    /// Commits once, unless the volume is read-only or worn, and gives the medium back. What a stop left at any moment since the opening
    /// was left before it, or is sound as the tree after a prefix of the calls that holds each sync up to that moment. Where a volume that
    /// can be written to is closed with no fault and no page lost, all calls are committed; where no write failed in it either, the medium
    /// ends sound as the tree after all calls. So it does where no operation failed since the opening and the volume is not worn. Where
    /// the write sequence numbers were used up as the volume was opened, that is told. A page is told as lost where the commit met one that
    /// did not hold the write sequence number that was wanted, and only there.
    pub fn close(self) -> Closed<M>
        requires { StandsForSome ⟦<Volume<M> as Kept>⟧.stands self }
        ensures stops { (v : VolumeOf M) (o : Opening) (h : List TurnEntry) → ⟦<Volume<M> as Kept>⟧.stands v o h self
            → IsYoungAtEnd M.tells o h (begun_of v.core) (M.clock result.media)
            → CrashesSafely ConsistentAs (λ m c. M.left (medium_of v.core.device) m c) (λ m c. M.left result.media m c) o.clock
            (M.clock result.media) (run_of o h) }
        ensures ends { (v : VolumeOf M) (o : Opening) (h : List TurnEntry) → ⟦<Volume<M> as Kept>⟧.stands v o h self
            → IsYoungAtEnd M.tells o h (begun_of v.core) (M.clock result.media)
            → ClosesCommitted self.core result
            → (Rose (⟦<Device<M> as Counts>⟧.write_faults self.core.device) (M.write_faults result.media) → ⊥)
            → ConsistentAs (M.contents result.media) (o.count + effects h) (tree_after o h) }
        ensures ends_well { (v : VolumeOf M) (o : Opening) (h : List TurnEntry) → ⟦<Volume<M> as Kept>⟧.stands v o h self
            → IsYoungAtEnd M.tells o h (begun_of v.core) (M.clock result.media)
            → (FaultRose (opening_counts o) (counts_on M.clock M.read_faults M.write_faults result.media) → ⊥) → result.worn ≡ false
            → ConsistentAs (M.contents result.media) (o.count + effects h) (tree_after o h) }
        ensures used_up { (v : VolumeOf M) (o : Opening) (h : List TurnEntry) → ⟦<Volume<M> as Kept>⟧.stands v o h self
            → 2 ^ 62 ≤ o.next_stamp → result.worn ≡ true }
        ensures commits { ClosesCommitted self.core result → CommitsLast ⟦<Device<M> as Counts>⟧ self.core result.media }
        ensures left { (self.core.stopped ≢ 0) ⊎ (result.worn ≡ true) → result.media ≡ medium_of self.core.device }
        ensures counts { NeverFall (counts_of ⟦<Device<M> as Counts>⟧ self.core.device)
            (counts_on M.clock M.read_faults M.write_faults result.media) }
        ensures fault { result.fault ≡ true → FaultRose (counts_of ⟦<Device<M> as Counts>⟧ self.core.device)
            (counts_on M.clock M.read_faults M.write_faults result.media) }
        ensures lost { M.tells → result.lost ≡ false }
        ensures meets { result.lost ≡ true → LosesLastCommit ⟦<Device<M> as Counts>⟧ self.core result }
        ensures worn { IsTrue result.worn ↔ 2 ^ 62 ≤ ⟦<Device<M> as Counts>⟧.next_stamp self.core.device }
    {
        let mut volume = self;
        let worn = volume.worn();
        let last = commit_last(&mut volume.core, worn);
        device_stands(&volume.core.device);
        Closed {
            media: volume.into_media(),
            fault: is_fault(last),
            lost: is_lost(last),
            worn,
        }
    }
}
