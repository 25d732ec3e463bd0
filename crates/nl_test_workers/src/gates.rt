use nl_workers::{Gate, GatePlace};
use std::sync::atomic::{AtomicBool, AtomicU32, Ordering};
use std::thread;

/// How often a gate looks before it lets a worker go on.
const LOOKS: u32 = 20_000_000;

/// Looks until the count is reached, at most so many times, and says whether it was.
fn is_reached(count: &AtomicU32, wanted: u32) -> bool {
    for _ in 0..LOOKS {
        if count.load(Ordering::SeqCst) >= wanted {
            return true;
        }
        thread::yield_now();
    }
    false
}

/// Workers 0 and 1 wait for each other before their lines.
#[derive(Drop)]
pub struct Meeting {
    here: AtomicU32,
    met: AtomicU32,
}

impl Meeting {
    /// A gate at which no worker was yet.
    pub fn new() -> Meeting {
        Meeting {
            here: AtomicU32::new(0),
            met: AtomicU32::new(0),
        }
    }

    /// How many of the two workers saw the other.
    pub fn met(&self) -> u32 {
        self.met.load(Ordering::SeqCst)
    }
}

impl Gate for Meeting {
    ghost heard = { λ gate worker line place. Unit {0} };

    fn at(&self, worker: u8, _line: u32, place: GatePlace) {
        if worker < 2 && place == GatePlace::Before {
            self.here.fetch_add(1, Ordering::SeqCst);
            if is_reached(&self.here, 2) {
                self.met.fetch_add(1, Ordering::SeqCst);
            }
        }
    }
}

/// Worker 0 is held where its line is staged, until worker 1 has finished so many lines.
#[derive(Drop)]
pub struct Overtaking {
    wanted: u32,
    finished: AtomicU32,
    overtaken: AtomicBool,
}

impl Overtaking {
    /// A gate at which no worker was yet, for so many lines of worker 1.
    pub fn new(wanted: u32) -> Overtaking {
        Overtaking {
            wanted,
            finished: AtomicU32::new(0),
            overtaken: AtomicBool::new(false),
        }
    }

    /// Whether worker 1 finished its lines while worker 0 was held.
    pub fn is_overtaken(&self) -> bool {
        self.overtaken.load(Ordering::SeqCst)
    }
}

impl Gate for Overtaking {
    ghost heard = { λ gate worker line place. Unit {0} };

    fn at(&self, worker: u8, line: u32, place: GatePlace) {
        if worker == 1 && place == GatePlace::After {
            self.finished.fetch_add(1, Ordering::SeqCst);
        }
        if worker == 0 && line == 1 && place == GatePlace::Staged {
            let reached = is_reached(&self.finished, self.wanted);
            self.overtaken.store(reached, Ordering::SeqCst);
        }
    }
}

/// Worker 0 is held before its line, until the cleaner and the handler have both done something.
#[derive(Drop)]
pub struct Chores {
    cleaned: AtomicU32,
    handled: AtomicU32,
    both: AtomicBool,
}

impl Chores {
    /// A gate at which nothing was done yet.
    pub fn new() -> Chores {
        Chores {
            cleaned: AtomicU32::new(0),
            handled: AtomicU32::new(0),
            both: AtomicBool::new(false),
        }
    }

    /// Whether the cleaner and the handler both did something while worker 0 was held.
    pub fn are_done(&self) -> bool {
        self.both.load(Ordering::SeqCst)
    }
}

impl Gate for Chores {
    ghost heard = { λ gate worker line place. Unit {0} };

    fn at(&self, worker: u8, _line: u32, place: GatePlace) {
        if worker == 8 && place == GatePlace::After {
            self.cleaned.fetch_add(1, Ordering::SeqCst);
        }
        if worker == 9 && place == GatePlace::After {
            self.handled.fetch_add(1, Ordering::SeqCst);
        }
        if worker == 0 && place == GatePlace::Before {
            let both = is_reached(&self.cleaned, 1) && is_reached(&self.handled, 1);
            self.both.store(both, Ordering::SeqCst);
        }
    }
}

/// Counts what it is told of worker 0, whose lines are 1, 9, 17 and so on: of each line first that it begins, then that it has staged, and
/// then that its effect is done.
#[derive(Drop)]
pub struct Counting {
    told: AtomicU32,
    wrong: AtomicU32,
}

impl Counting {
    /// A gate that was told nothing yet.
    pub fn new() -> Counting {
        Counting {
            told: AtomicU32::new(0),
            wrong: AtomicU32::new(0),
        }
    }

    /// How many steps of worker 0 it was told of.
    pub fn told(&self) -> u32 {
        self.told.load(Ordering::SeqCst)
    }

    /// How many of them were not the step that was due.
    pub fn wrong(&self) -> u32 {
        self.wrong.load(Ordering::SeqCst)
    }
}

impl Gate for Counting {
    ghost heard = { λ gate worker line place. Unit {0} };

    fn at(&self, worker: u8, line: u32, place: GatePlace) {
        if worker == 0 {
            let told = self.told.fetch_add(1, Ordering::SeqCst);
            let due = match told % 3 {
                0 => GatePlace::Before,
                1 => GatePlace::Staged,
                _ => GatePlace::After,
            };
            if place != due || line / 8 != told / 3 {
                self.wrong.fetch_add(1, Ordering::SeqCst);
            }
        }
    }
}
