//! What the cleaner and the handler share while an epoch runs.
ghost use Rattle.std.specs.Prelude.{◌≡◌, IfOk};
ghost use Rattle.nl_workers.specs.Kit.{KitState};

use crate::outbox::Outbox;
use crate::stop::StopFlag;
use nl_callbacks::{NoticePass, Notices};
use nl_field::Memory;
use std::alloc::Global;
use std::marker::Model;

/// How many numbers of callbacks may wait for the handler.
const NOTICES: u32 = 256;

/// The two ends of the queue of notices.
#[derive(Drop)]
pub(crate) struct Passes {
    pub(crate) outbox: Outbox,
    pub(crate) taker: NoticePass,
}

/// What the cleaner and the handler share: a queue of the numbers of callbacks, and the flag that ends their loops. It serves one
/// opening of a volume. Contracts see for how many numbers the queue has room.
#[derive(Drop)]
pub struct DutyKit {
    pub(crate) notices: Notices,
    pub(crate) stop: StopFlag,
    pub(crate) passes: Option<Passes>,
}

impl Model for DutyKit {
    ghost use Rattle.nl_callbacks.specs.Notices.{room_of};
    ghost use Rattle.nl_workers.specs.Kit.{KitState, IsKit};

    ghost Value = { KitState };

    ghost view = { λ k. record { room = room_of k.notices } };

    ghost invariant = { λ k. IsKit k.notices k.passes };
}

impl DutyKit {
    /// A queue with room for 256 numbers, none sent, and the flag lowered.
    pub fn new(alloc: Global) -> Result<DutyKit, Memory>
        ensures { IfOk result (λ k. k.room ≡ 256) }
    {
        let (notices, sender, taker) = Notices::new(alloc, NOTICES)?;
        let outbox = Outbox {
            pass: sender,
            last: 0,
        };
        Ok(DutyKit {
            notices,
            stop: StopFlag::new(),
            passes: Some(Passes { outbox, taker }),
        })
    }
}
