//! The flag that ends the loops of background tasks, and their bell.
use crossbeam_utils::CachePadded;
use std::sync::Wait;
use std::sync::atomic::{AtomicBool, AtomicU64, Ordering};
use std::time::Duration;

/// The flag that ends the loops of background tasks, and the bell that wakes them: it is rung as the flag is raised, and where there is
/// something new for the handler.
#[derive(Drop)]
pub(crate) struct StopFlag {
    raised: CachePadded<AtomicBool>,
    /// How often the bell was rung, modulo 2^64.
    rings: CachePadded<AtomicU64>,
}

impl StopFlag {
    /// A flag that is lowered.
    pub(crate) fn new() -> StopFlag {
        StopFlag {
            raised: CachePadded::new(AtomicBool::new(false)),
            rings: CachePadded::new(AtomicU64::new(0)),
        }
    }

    /// Raises the flag, so that the loops end.
    pub(crate) fn raise(&self) {
        self.raised.store(true, Ordering::SeqCst);
        self.ring();
    }

    /// Lowers the flag, so that loops go on.
    pub(crate) fn lower(&self) {
        self.raised.store(false, Ordering::SeqCst);
    }

    /// Whether the flag is raised.
    pub(crate) fn is_raised(&self) -> bool {
        self.raised.load(Ordering::SeqCst)
    }

    /// Rings the bell.
    pub(crate) fn ring(&self) {
        self.rings.fetch_add(1, Ordering::SeqCst);
        self.rings.wake_all();
    }

    /// How often the bell was rung, in the last 32 bits. A loop asks before it looks for what there is to do.
    pub(crate) fn rings(&self) -> u32 {
        (self.rings.load(Ordering::SeqCst) & 0xffff_ffff) as u32
    }

    /// Sleeps until the bell is rung once more than that.
    pub(crate) fn sleep<R: Wait>(&self, rt: &R, rings: u32) {
        self.rings.park(rt, rings);
    }

    /// The same, for no longer than so many microseconds.
    pub(crate) fn nap<R: Wait>(&self, rt: &R, rings: u32, micros: u32) {
        self.rings
            .park_timeout(rt, rings, Duration::from_micros(u64::from(micros)));
    }
}
