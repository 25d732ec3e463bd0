// A volume as that with which workers take turns.
use crate::volume::Volume;
use nl_device::Device;
use nl_iface::Counts;
use nl_nand::Nand;
use nl_tree::{Answered, Call, Duty, DutyAnswer, ReplyBuf, Stage};
use nl_turns::Served;

impl<M: Nand> Served for Volume<M> {
    ghost use Rattle.std.specs.Prelude.{refl};
    ghost use Rattle.nl_calls_steps.specs.Calls.{counts_of};
    ghost use Rattle.nl_volume_stage.specs.Serving.{refusing_of, some_number, to_stage_of};

    ghost tells = { M.tells };

    ghost counts = { λ v. counts_of ⟦<Device<M> as Counts>⟧ v.core.device };

    ghost refusing = { λ v worker line. refusing_of ⟦<Device<M> as Counts>⟧ v.core worker line };

    ghost read_only = { λ v. some_number v.core.stopped };

    ghost to_stage = { λ v. to_stage_of v.core };

    ghost posted = { λ v. (⟦<Device<M> as Counts>⟧.names v.core.device).posted };

    ghost free_blocks = { λ v. (⟦<Device<M> as Counts>⟧.names v.core.device).space.free };

    fn stage(&mut self, worker: u8, line: u32, call: &Call) -> Stage {
        Volume::stage(self, worker, line, call)
    }

    fn effect(&mut self, worker: u8, line: u32, call: &Call, out: &mut ReplyBuf) -> Answered {
        Volume::effect(self, worker, line, call, out)
    }

    fn duty(&mut self, which: Duty) -> DutyAnswer {
        Volume::duty(self, which)
    }

    fn posted(&self) -> u64 {
        Volume::posted(self)
    }

    fn free_blocks(&self) -> u32 {
        Volume::free_blocks(self)
    }

    ghost since = { λ v w o h s. s.0.serves.since };

    ghost one_number = { λ v worker line. refl };
}
