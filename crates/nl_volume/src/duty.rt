// A background task on a volume.
ghost use Rattle.std.specs.Prelude.{◌≡◌, ℕ, List, ◌++◌, ◌∷◌, []};
ghost use Rattle.nl_tree.specs.Causes.{FaultRose, LostHasCause, NeverFall};
ghost use Rattle.nl_core.specs.Duties.{RunsBackgroundTask};
ghost use Rattle.nl_turns.specs.History.{Opening};
ghost use Rattle.nl_turns.specs.Served.{NoMoreToStage, StandsForSome, StaysReadOnly, duty_entry};
ghost use Rattle.nl_turns.specs.declared.entry.Entry.{Entry as TurnEntry};
ghost use Rattle.nl_calls_steps.specs.Calls.{counts_of};
ghost use Rattle.nl_volume_stage.specs.Serving.{refusing_of, some_number, to_stage_of};
ghost use Rattle.nl_volume.specs.Moving.{moving};
ghost use Rattle.nl_volume.specs.declared.volume.Volume.{Volume as VolumeOf};

use crate::volume::Volume;
use nl_core::laws::pages_stay_as_many;
use nl_device::Device;
use nl_iface::{Counts, MovingPages};
use nl_nand::Nand;
use nl_spec_commits::laws::device_stands;
use nl_tree::{Duty, DutyAnswer};
use nl_turns::Kept;
use nl_volume_stage::counts;

impl<M: Nand> Volume<M> {
    /// Does one background task. The tree and the count of calls stay. `Nothing` comes exactly where the volume is read-only or worn, or
    /// the task has nothing to do.
    pub fn duty(&mut self, which: Duty) -> DutyAnswer
        requires { StandsForSome ⟦<Volume<M> as Kept>⟧.stands self.old }
        ensures stands { (v : VolumeOf M) (o : Opening) (h : List TurnEntry) → ⟦<Volume<M> as Kept>⟧.stands v o h self.old
            → ⟦<Volume<M> as Kept>⟧.stands v o (h ++ duty_entry result ∷ []) self.new }
        ensures does { RunsBackgroundTask ⟦<Device<M> as Counts>⟧
            (moving ⟦<Device<M> as MovingPages>⟧.victim ⟦<Device<M> as MovingPages>⟧.most_dead ⟦<Device<M> as MovingPages>⟧.coldest ⟦<Device<M> as MovingPages>⟧.blank)
            which self.old.core self.new.core result }
        ensures counts { NeverFall (counts_of ⟦<Device<M> as Counts>⟧ self.old.core.device)
            (counts_of ⟦<Device<M> as Counts>⟧ self.new.core.device) }
        ensures less { NoMoreToStage (to_stage_of self.old.core) (to_stage_of self.new.core) }
        ensures read_only { StaysReadOnly (counts_of ⟦<Device<M> as Counts>⟧ self.old.core.device)
            (counts_of ⟦<Device<M> as Counts>⟧ self.new.core.device) (some_number self.old.core.stopped)
            (some_number self.new.core.stopped) }
        ensures staged { (w : ℕ) (l : ℕ) → (refusing_of ⟦<Device<M> as Counts>⟧ self.new.core w l).staged
            ≡ (refusing_of ⟦<Device<M> as Counts>⟧ self.old.core w l).staged }
        ensures fault { result ≡ DutyAnswer.Fault
            → FaultRose (counts_of ⟦<Device<M> as Counts>⟧ self.old.core.device) (counts_of ⟦<Device<M> as Counts>⟧ self.new.core.device) }
        ensures lost { (wanted : ℕ) (found : ℕ) → result ≡ DutyAnswer.Lost wanted found → LostHasCause M.tells wanted found }
        ensures wear { (self.new.least ≡ self.old.least) × (self.new.greatest ≡ self.old.greatest) }
    {
        pages_stay_as_many();
        device_stands(&self.core.device);
        let answer = self.core.duty(which);
        counts(&self.core);
        answer
    }
}
