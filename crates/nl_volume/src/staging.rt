// The staging of one page or one unit of a line ahead of its effect.
ghost use Rattle.std.specs.Prelude.{◌≡◌, ◌≢◌, ◌⊎◌, ◌↔◌, ◌≤◌, ◌<◌, ◌^◌, ℕ, ◌++◌, ◌∷◌, []};
ghost use Rattle.nl_tree.specs.Causes.{FaultRose, LostHasCause, NeverFall, fault_sum};
ghost use Rattle.nl_core.specs.LastCommit.{KeepsCommit, LeavesMedium};
ghost use Rattle.nl_turns.specs.Served.{FromEachWithLine, KeepsStagedFaults, StagesLess, StandsForSomeWithLine, StaysReadOnly, is_fault, is_staged, stage_entry};
ghost use Rattle.nl_calls_steps.specs.Calls.{OtherLinesStay, counts_of};
ghost use Rattle.nl_volume_stage.specs.Serving.{refusing_of, some_number, to_stage_of};
ghost use Rattle.nl_volume_stage.specs.StagedPages.{IsTagOfCall, LeavesInFlight, StaysWritable};
ghost use Rattle.nl_volume_stage.specs.Staging.{TellsRest};
ghost use Rattle.nl_tree.specs.declared.call.Call.TheVariants.{Sync};

use crate::volume::Volume;
use nl_device::Device;
use nl_iface::Counts;
use nl_nand::Nand;
use nl_tree::{Call, Stage};
use nl_turns::Kept;
use nl_volume_stage::stage_line;

impl<M: Nand> Volume<M> {
    /// Stages one whole page of a line ahead of its effect: it is programmed, and in flight from now on. Of a sync it does one unit: it
    /// freezes the changed metadata pages and writes the header, or writes an image or the commit page, or copies a page home. `Stopped`
    /// comes exactly where the volume is read-only or worn. `Whole` comes where no whole page of the line is left: its path leads to no
    /// file, or it has no further page that lies wholly in its range, or its range ends behind the greatest size; and of a sync exactly
    /// where no unit is left: its goal, which its first staging fixes as all calls so far, is committed. Where none is left, `Fault` and
    /// `Lost` come only from reading what the path leads to. Pages in flight of another line of the worker are freed first, with its goal,
    /// and lines of other workers stay. The page is one of the file to which the path leads now, of the generation that the file has.
    /// `Staged`, `Whole` and `Lost` come only where no write failed. `Stopped` and `Whole` leave the medium and the last commit as they are,
    /// and but for a sync nothing is committed where the device has room for a page.
    pub fn stage(&mut self, worker: u8, line: u32, call: &Call) -> Stage
        requires { StandsForSomeWithLine ⟦<Volume<M> as Kept>⟧.stands self.old worker line call.now }
        ensures stands { FromEachWithLine ⟦<Volume<M> as Kept>⟧.stands self.old worker line call.now
            (λ v o h. ⟦<Volume<M> as Kept>⟧.stands v o (h ++ stage_entry line result ∷ []) self.new) }
        ensures left { TellsRest ⟦<Device<M> as Counts>⟧ worker line call.now self.old.core self.new.core result }
        ensures stopped { result ≡ Stage.Stopped ↔ (self.old.core.stopped ≢ 0)
            ⊎ (2 ^ 62 ≤ ⟦<Device<M> as Counts>⟧.next_stamp self.old.core.device) }
        ensures counts { NeverFall (counts_of ⟦<Device<M> as Counts>⟧ self.old.core.device)
            (counts_of ⟦<Device<M> as Counts>⟧ self.new.core.device) }
        ensures less { StagesLess (to_stage_of self.old.core) (to_stage_of self.new.core) worker line (is_staged result) }
        ensures read_only { StaysReadOnly (counts_of ⟦<Device<M> as Counts>⟧ self.old.core.device)
            (counts_of ⟦<Device<M> as Counts>⟧ self.new.core.device) (some_number self.old.core.stopped)
            (some_number self.new.core.stopped) }
        ensures staged { KeepsStagedFaults (refusing_of ⟦<Device<M> as Counts>⟧ self.old.core)
            (refusing_of ⟦<Device<M> as Counts>⟧ self.new.core) worker line (is_fault result)
            (fault_sum (counts_of ⟦<Device<M> as Counts>⟧ self.new.core.device)) }
        ensures fault { result ≡ Stage.Fault
            → FaultRose (counts_of ⟦<Device<M> as Counts>⟧ self.old.core.device) (counts_of ⟦<Device<M> as Counts>⟧ self.new.core.device) }
        ensures lost { (wanted : ℕ) (found : ℕ) → result ≡ Stage.Lost wanted found → LostHasCause M.tells wanted found }
        ensures kept { (result ≡ Stage.Stopped) ⊎ (result ≡ Stage.Whole)
            → LeavesMedium ⟦<Device<M> as Counts>⟧ self.old.core self.new.core }
        ensures commit { call.now ≢ Sync → 0 < (⟦<Device<M> as Counts>⟧.names self.old.core.device).space.room
            → KeepsCommit self.old.core self.new.core }
        ensures wear { (self.new.least ≡ self.old.least) × (self.new.greatest ≡ self.old.greatest) }
        ensures in_flight { LeavesInFlight ⟦<Device<M> as Counts>⟧ worker line call.now
            (IsTagOfCall ⟦<Device<M> as Counts>⟧ self.old.core call.now) self.old.core self.new.core result }
        ensures others { OtherLinesStay worker self.old.core.flight self.new.core.flight }
        ensures unfailed { result ≢ Stage.Fault → result ≢ Stage.Stopped
            → StaysWritable ⟦<Device<M> as Counts>⟧ self.old.core self.new.core }
    {
        stage_line(&mut self.core, worker, line, call, &mut self.page)
    }
}
