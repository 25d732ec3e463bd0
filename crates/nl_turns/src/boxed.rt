//! A box behind the lock: a turn then moves a pointer, and not the value.
use crate::kept::Kept;
use crate::served::Served;
use nl_tree::{Answered, Call, Duty, DutyAnswer, ReplyBuf, Stage};

impl<V: Kept> Kept for Box<V> {
    ghost stands = { λ origin o h b. V.stands origin.value o h b.value };
}

impl<V: Served> Served for Box<V> {
    ghost tells = { V.tells };

    ghost counts = { λ b. V.counts b.value };

    ghost refusing = { λ b worker line. V.refusing b.value worker line };

    ghost read_only = { λ b. V.read_only b.value };

    ghost to_stage = { λ b worker line. V.to_stage b.value worker line };

    ghost posted = { λ b. V.posted b.value };

    ghost free_blocks = { λ b. V.free_blocks b.value };

    fn stage(&mut self, worker: u8, line: u32, call: &Call) -> Stage {
        self.as_mut().stage(worker, line, call)
    }

    fn effect(&mut self, worker: u8, line: u32, call: &Call, out: &mut ReplyBuf) -> Answered {
        self.as_mut().effect(worker, line, call, out)
    }

    fn duty(&mut self, which: Duty) -> DutyAnswer {
        self.as_mut().duty(which)
    }

    fn posted(&self) -> u64 {
        self.as_ref().posted()
    }

    fn free_blocks(&self) -> u32 {
        self.as_ref().free_blocks()
    }

    ghost since = { λ v w o h s. V.since v.value w.value o h s };

    ghost one_number = { λ v worker line. V.one_number v.value worker line };
}
