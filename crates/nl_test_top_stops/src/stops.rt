// The run that saves a note is stopped, and what is left is opened, its run stopped again, and opened once more.
use nl_field::Memory;
use nl_nand::Stop;
use nl_testkit_program::note::{NOTE, OTHER, committed_after, finished, holds};
use nl_testkit_program::play::FORMAT;
use nl_testkit_program::program::Rig;
use std::sync::Wait;
use std::thread::Threads;

/// What a run told that was stopped: its status, what the last sync has made durable, and whether the text of a volume after so many calls
/// was begun.
#[derive(Clone, Copy)]
pub struct Stopped {
    pub status: u8,
    pub synced: u64,
    pub opened: bool,
}

// Whether this begins with the text of a volume after so many calls.
fn is_opened<Rt: Threads + Wait + Sync>(
    rig: &mut Rig<'_, Rt>,
    text: &[u8],
    opened: u64,
) -> Result<bool, Memory> {
    let begun = format!(in rig.alloc; "opened {opened}\n")?;
    let is = text.starts_with(begun.as_bytes());
    drop(begun);
    Ok(is)
}

/// Runs a script on a volume after so many calls until the stop.
pub fn run_until<Rt: Threads + Wait + Sync>(
    rig: &mut Rig<'_, Rt>,
    script: &str,
    opened: u64,
    stop: Stop,
) -> Result<Stopped, Memory> {
    rig.restart(Some(stop));
    let told = rig.tell("run", script)?;
    rig.restart(None);
    let status = told.status;
    let synced = told.synced();
    let is = is_opened(rig, told.text(), opened);
    drop(told);
    Ok(Stopped {
        status,
        synced,
        opened: is?,
    })
}

// A saving on a new volume that is stopped there.
fn save_until<Rt: Threads + Wait + Sync>(
    rig: &mut Rig<'_, Rt>,
    stop: Stop,
) -> Result<Stopped, Memory> {
    let formatted = rig.play(&[FORMAT])?;
    let stopped = run_until(rig, NOTE, 0, stop)?;
    Ok(Stopped {
        opened: formatted && stopped.opened,
        ..stopped
    })
}

/// Whether a saving is right that is stopped there.
pub fn stop_right<Rt: Threads + Wait + Sync>(
    rig: &mut Rig<'_, Rt>,
    stop: Stop,
) -> Result<bool, Memory> {
    let count = committed_after(finished(stop.operation, stop.cut));
    let stopped = save_until(rig, stop)?;
    if stopped.status != 5 || !stopped.opened || count < stopped.synced {
        return rig.note("a stopped run");
    }
    holds(rig, count, count, false)
}

// How a run of the other file was ended that was begun after so many calls: what its volume holds now, where that is due.
fn other_left<Rt: Threads + Wait + Sync>(
    rig: &mut Rig<'_, Rt>,
    count: u64,
    stopped: Stopped,
) -> Result<Option<u64>, Memory> {
    let synced = count.saturating_add(2);
    let closed = count.saturating_add(4);
    let Some(found) = rig.counted()? else {
        return Ok(None);
    };
    let known = found == count || found == synced || found == closed;
    let whole = stopped.status == 5 || stopped.status == 0 && found == closed;
    if known && whole && stopped.opened && stopped.synced <= found {
        Ok(Some(found))
    } else {
        Ok(None)
    }
}

/// Whether a volume is right that was left by one stop, and whose next run is stopped there: the other file is there with its sync or not
/// at all. With it comes whether that run met its stop.
pub fn again_right<Rt: Threads + Wait + Sync>(
    rig: &mut Rig<'_, Rt>,
    first: Stop,
    second: Stop,
) -> Result<(bool, bool), Memory> {
    let count = committed_after(finished(first.operation, first.cut));
    save_until(rig, first)?;
    let stopped = run_until(rig, OTHER, count, second)?;
    let right = match other_left(rig, count, stopped)? {
        Some(found) => holds(rig, found, count, count < found)?,
        None => rig.note("a stopped run")?,
    };
    Ok((right, stopped.status == 5))
}
