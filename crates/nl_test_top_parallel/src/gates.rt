// Gates that hold workers.
use nl_top::{Gate, GatePlace};
use std::sync::atomic::{AtomicU32, Ordering};
use std::thread;

/// How often a gate looks before it lets a worker go on.
const LOOKS: u32 = 20_000_000;

// Looks until the count is there, at most so many times, and says whether it was.
fn is_reached(count: &AtomicU32) -> bool {
    for _ in 0..LOOKS {
        if count.load(Ordering::SeqCst) > 0 {
            return true;
        }
        thread::yield_now();
    }
    false
}

/// Worker 1 is held before its line 5 until worker 0 has staged its line 4, and worker 0 is held there until worker 1 has done its line 9.
#[derive(Drop)]
pub struct Holding {
    staged: AtomicU32,
    done: AtomicU32,
    held: AtomicU32,
}

impl Holding {
    /// A gate at which no worker was yet.
    pub fn new() -> Holding {
        Holding {
            staged: AtomicU32::new(0),
            done: AtomicU32::new(0),
            held: AtomicU32::new(0),
        }
    }

    /// How many of the two workers were held until what they waited for was done.
    pub fn held(&self) -> u32 {
        self.held.load(Ordering::SeqCst)
    }
}

impl Gate for Holding {
    ghost heard = { λ gate worker line place. Unit {0} };

    fn at(&self, worker: u8, line: u32, place: GatePlace) {
        if worker == 1 && line == 9 && place == GatePlace::After {
            self.done.fetch_add(1, Ordering::SeqCst);
        }
        if worker == 1 && line == 5 && place == GatePlace::Before && is_reached(&self.staged) {
            self.held.fetch_add(1, Ordering::SeqCst);
        }
        if worker == 0 && line == 4 && place == GatePlace::Staged {
            self.staged.fetch_add(1, Ordering::SeqCst);
            if is_reached(&self.done) {
                self.held.fetch_add(1, Ordering::SeqCst);
            }
        }
    }
}

/// Worker 0 is held before its line 10 until the cleaner and the handler have done something.
#[derive(Drop)]
pub struct Chores {
    cleaned: AtomicU32,
    handled: AtomicU32,
    held: AtomicU32,
}

impl Chores {
    /// A gate at which nothing was done yet.
    pub fn new() -> Chores {
        Chores {
            cleaned: AtomicU32::new(0),
            handled: AtomicU32::new(0),
            held: AtomicU32::new(0),
        }
    }

    /// Whether worker 0 was held until the cleaner and the handler had done something.
    pub fn held(&self) -> bool {
        self.held.load(Ordering::SeqCst) > 0
    }
}

impl Gate for Chores {
    ghost heard = { λ gate worker line place. Unit {0} };

    fn at(&self, worker: u8, line: u32, place: GatePlace) {
        if worker == 8 && place == GatePlace::After {
            self.cleaned.fetch_add(1, Ordering::SeqCst);
        }
        if worker == 9 && place == GatePlace::After {
            self.handled.fetch_add(1, Ordering::SeqCst);
        }
        if worker == 0 && line == 10 && place == GatePlace::Before {
            if is_reached(&self.cleaned) && is_reached(&self.handled) {
                self.held.fetch_add(1, Ordering::SeqCst);
            }
        }
    }
}

/// Worker 1 is held before its line 5 until worker 0 has staged its line 4, a sync, and worker 0 is held there until worker 1 has done its
/// line 5.
#[derive(Drop)]
pub struct Syncing {
    staged: AtomicU32,
    done: AtomicU32,
    held: AtomicU32,
}

impl Syncing {
    /// A gate at which no worker was yet.
    pub fn new() -> Syncing {
        Syncing {
            staged: AtomicU32::new(0),
            done: AtomicU32::new(0),
            held: AtomicU32::new(0),
        }
    }

    /// How many of the two workers were held until what they waited for was done.
    pub fn held(&self) -> u32 {
        self.held.load(Ordering::SeqCst)
    }
}

impl Gate for Syncing {
    ghost heard = { λ gate worker line place. Unit {0} };

    fn at(&self, worker: u8, line: u32, place: GatePlace) {
        if worker == 1 && line == 5 && place == GatePlace::After {
            self.done.fetch_add(1, Ordering::SeqCst);
        }
        if worker == 1 && line == 5 && place == GatePlace::Before && is_reached(&self.staged) {
            self.held.fetch_add(1, Ordering::SeqCst);
        }
        if worker == 0 && line == 4 && place == GatePlace::Staged {
            self.staged.fetch_add(1, Ordering::SeqCst);
            if is_reached(&self.done) {
                self.held.fetch_add(1, Ordering::SeqCst);
            }
        }
    }
}
