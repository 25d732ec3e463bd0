//! Where those sleep who wait for a turn.
use std::sync::Wait;
use std::sync::atomic::{AtomicU64, Ordering};
use std::{array, thread};

/// How many bells there are: more than seats, so that no two who wait have the same.
const BELLS: usize = 16;

/// A ticket is near where at most so many turns are to be passed before its own.
const NEAR: u64 = 2;

/// How many times a seat that is near lets others run before it sleeps.
const YIELDS: u32 = 100;

/// A bell is set: its sleeper wants to be woken.
const SET: u64 = 1;

/// Bells, one for each ticket by its last four bits. A seat whose turn is far off sleeps at the bell of its ticket, and whoever passes a turn
/// rings the bells of the tickets that are near then: so a seat is awake as its turn comes, and the others take no processor.
#[derive(Drop)]
pub(crate) struct Bells {
    bells: [AtomicU64; BELLS],
}

impl Bells {
    /// Bells that are not set.
    pub(crate) fn new() -> Bells {
        Bells {
            bells: array::from_fn(|_| AtomicU64::new(0)),
        }
    }

    fn of(&self, ticket: u64) -> &AtomicU64 {
        &self.bells[ticket as usize % BELLS]
    }

    /// Waits behind a look that found so many turns passed, and answers how often the seat has let others run by now. A seat that is to sleep
    /// sets its bell, and looks once more: a turn that is passed behind that look rings the bell, which ends the sleep or keeps it from beginning.
    pub(crate) fn wait<R: Wait>(&self, rt: &R, ticket: u64, passed: u64, yields: u32) -> u32 {
        let bell = self.of(ticket);
        if ticket.wrapping_sub(passed) <= NEAR && yields < YIELDS {
            thread::yield_now();
            return yields + 1;
        }
        if bell.load(Ordering::SeqCst) == SET {
            bell.park(rt, SET as u32);
        } else {
            bell.store(SET, Ordering::SeqCst);
        }
        yields
    }

    /// Wakes those whose tickets are near, as so many turns are passed.
    pub(crate) fn ring(&self, passed: u64) {
        for turns in 0..=NEAR {
            let bell = self.of(passed.wrapping_add(turns));
            if bell.load(Ordering::SeqCst) == SET {
                bell.store(0, Ordering::SeqCst);
                bell.wake_all();
            }
        }
    }
}
