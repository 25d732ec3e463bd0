// A trial: scripts on one volume, each with its stop or its failing calls, and a look at all that it leaves.
use crate::dice::Dice;
use crate::drawer::Drawer;
use crate::history::History;
use crate::judge::{Ended, Faults, judge};
use crate::look::{Look, look_at_all};
use crate::order::may_be_left;
use crate::plan::{NO_FAILURE, Plan, behind_making, drawn_plan, drawn_stop, fail_list};
use crate::wrong::Wrong;
use nl_field::{Memory, shape_of};
use nl_nand::{Cut, Geometry, MemNand, Stop};
use nl_script::{ScriptRefusal, script_of};
use nl_testkit_program::program::Rig;
use nl_tree::Lines;
use std::alloc::Global;
use std::fmt::Write;
use std::sync::Wait;
use std::thread::Threads;

/// What trials met: scripts that were run, those in which a call of the medium failed, and calls that a stop or a failure lost.
#[derive(Clone, Copy)]
pub(crate) struct Tally {
    pub(crate) scripts: u64,
    pub(crate) failed: u64,
    pub(crate) lost: u64,
}

impl Tally {
    // Counts a script that was run, and the calls that its medium lost.
    fn add(&mut self, rose: bool, lost: u64) {
        self.scripts = self.scripts.saturating_add(1);
        if rose {
            self.failed = self.failed.saturating_add(1);
        }
        self.lost = self.lost.saturating_add(lost);
    }
}

fn lines_of(alloc: Global, script: &str) -> Result<Lines, Wrong> {
    match script_of(alloc, script.as_bytes()) {
        Ok(lines) => Ok(lines),
        Err(ScriptRefusal::Memory) => Err(Wrong::Memory),
        Err(_) => Err(Wrong::Differs("a script that is none")),
    }
}

// Makes the volume.
fn make<Rt: Threads + Wait + Sync>(rig: &mut Rig<'_, Rt>, geometry: Geometry) -> Result<(), Wrong> {
    let blocks = geometry.blocks;
    let pages = geometry.pages;
    let Some(shape) = shape_of(blocks, pages) else {
        return Err(Wrong::Differs("no geometry of a volume"));
    };
    let cap = shape.cap;
    let nodes = shape.nodes;
    let meta = shape.meta;
    let words = format!(in rig.alloc; "format {blocks} {pages}")?;
    let text = format!(in rig.alloc;
        "formatted blocks {blocks} pages {pages} data {cap} nodes {nodes} meta {meta}\n"
    )?;
    let told = rig.tell(words.as_str(), "")?;
    if told.is(0, text.as_str()) {
        Ok(())
    } else {
        Err(Wrong::Differs("a making"))
    }
}

// Runs a script on the volume, and judges what it tells.
fn run<Rt: Threads + Wait + Sync>(
    rig: &mut Rig<'_, Rt>,
    history: &mut History,
    script: &str,
) -> Result<Ended, Wrong> {
    let lines = lines_of(rig.alloc, script)?;
    let judged = run_lines(rig, history, script, &lines);
    history.keep(lines)?;
    judged
}

// The same for the lines of the script.
fn run_lines<Rt: Threads + Wait + Sync>(
    rig: &mut Rig<'_, Rt>,
    history: &mut History,
    script: &str,
    lines: &Lines,
) -> Result<Ended, Wrong> {
    let before = Faults::of(&rig.media);
    let told = rig.tell("run", script)?;
    let after = Faults::of(&rig.media);
    let judged = judge(history, lines, &told, before, after);
    drop(told);
    judged
}

// The count of calls with which a check tells the volume sound, and None where it does not.
fn counted<Rt: Threads + Wait + Sync>(rig: &mut Rig<'_, Rt>) -> Result<Option<u64>, Memory> {
    let told = rig.tell("check", "")?;
    let count = if told.status == 0 {
        sound_count(told.text())
    } else {
        None
    };
    drop(told);
    Ok(count)
}

fn sound_count(text: &[u8]) -> Option<u64> {
    let text = str::from_utf8(text).ok()?;
    text.strip_prefix("sound ")?
        .strip_suffix("\n")?
        .parse()
        .ok()
}

// Notes with how many calls a volume opens, and how many are due.
fn note_left(history: &mut History, ended: Ended, count: u64) -> Result<(), Memory> {
    let durable = ended.durable;
    let made = history.count();
    let note = format!(in history.alloc; "{count} calls are left, {durable} durable, {made} made")?;
    history.note(note.as_str())
}

// Restarts the medium, and finds with how many calls the volume opens: with a prefix that has each durable one, and with all where no call
// of the medium failed. The history is cut to them.
fn reopen<Rt: Threads + Wait + Sync>(
    rig: &mut Rig<'_, Rt>,
    history: &mut History,
    ended: Ended,
    tally: &mut Tally,
) -> Result<(), Wrong> {
    rig.restart(None);
    let Some(count) = counted(rig)? else {
        return Err(Wrong::Differs("a medium that is not sound"));
    };
    let least = if ended.rose {
        ended.durable
    } else {
        history.count()
    };
    if !may_be_left(least, count, history.count()) {
        note_left(history, ended, count)?;
        return Err(Wrong::Differs("the calls that are left"));
    }
    tally.add(ended.rose, history.count().saturating_sub(count));
    history.cut(count)
}

// Whether the text of all paths is that of the plain tree.
fn is_tree<Rt: Threads + Wait + Sync>(rig: &mut Rig<'_, Rt>, tree: &str) -> Result<bool, Memory> {
    let told = rig.tell("tree", "")?;
    let is = told.is(0, tree);
    drop(told);
    Ok(is)
}

// Compares all paths of the volume, and the bytes of its files, with the plain tree.
fn look<Rt: Threads + Wait + Sync>(
    rig: &mut Rig<'_, Rt>,
    history: &mut History,
    dice: &mut Dice,
) -> Result<(), Wrong> {
    let all = look_at_all(history, dice)?;
    let seen = is_seen(rig, history, &all);
    drop(all);
    seen
}

// Compares what is left with what a look at the plain tree has found.
fn is_seen<Rt: Threads + Wait + Sync>(
    rig: &mut Rig<'_, Rt>,
    history: &mut History,
    all: &Look,
) -> Result<(), Wrong> {
    if !is_tree(rig, all.tree.as_str())? {
        history.note(all.tree.as_str())?;
        return Err(Wrong::Differs("the paths that are left"));
    }
    let ended = run(rig, history, all.script.as_str())?;
    if ended.rose {
        return Err(Wrong::Differs("a medium that fails by itself"));
    }
    Ok(())
}

// Runs one script, whose medium is ready, and looks at what it leaves.
fn run_one<Rt: Threads + Wait + Sync>(
    rig: &mut Rig<'_, Rt>,
    history: &mut History,
    drawer: &mut Drawer,
    plan: &Plan,
    tally: &mut Tally,
) -> Result<(), Wrong> {
    let script = drawer.script(plan)?;
    let ended = run(rig, history, script.as_str());
    drop(script);
    reopen(rig, history, ended?, tally)?;
    look(rig, history, &mut drawer.dice)
}

// Runs all scripts. The first is that of a new medium.
fn run_all<Rt: Threads + Wait + Sync>(
    rig: &mut Rig<'_, Rt>,
    history: &mut History,
    drawer: &mut Drawer,
    plan: &mut Plan,
    tally: &mut Tally,
) -> Result<(), Wrong> {
    make(rig, plan.geometry)?;
    run_one(rig, history, drawer, plan, tally)?;
    for script in 1..plan.scripts {
        plan.script = script.saturating_add(1);
        plan.stop = drawn_stop(&mut drawer.dice);
        plan.failing = NO_FAILURE;
        rig.restart(plan.stop);
        run_one(rig, history, drawer, plan, tally)?;
    }
    rig.restart(None);
    if counted(rig)? == Some(history.count()) {
        Ok(())
    } else {
        Err(Wrong::Differs("the calls behind the last look"))
    }
}

fn push_stop(text: &mut String, stop: Option<Stop>) -> Result<(), Memory> {
    let Some(Stop { operation, cut }) = stop else {
        return text.push_str(", no stop");
    };
    match cut {
        Cut::Before => write!(text, ", stop before {operation}"),
        Cut::After => write!(text, ", stop after {operation}"),
        Cut::Spoilt => write!(text, ", stop spoils {operation}"),
        Cut::Mixed(digits) => write!(text, ", stop mixes {operation} by {digits}"),
    }
}

fn push_failing(text: &mut String, name: &str, numbers: [u64; 2]) -> Result<(), Memory> {
    let [first, second] = numbers;
    if first == 0 {
        return Ok(());
    }
    write!(text, ", {name} {first} and {second} fail")
}

fn push_plan(text: &mut String, seed: u64, plan: &Plan) -> Result<(), Memory> {
    let blocks = plan.geometry.blocks;
    let pages = plan.geometry.pages;
    let workers = plan.workers;
    let script = plan.script;
    let mix = plan.mix.name();
    write!(
        text,
        "seed {seed}: {blocks} by {pages}, {mix}, {workers} workers, script {script}"
    )?;
    push_stop(text, plan.stop)?;
    push_failing(text, "reads", plan.failing.reads)?;
    push_failing(text, "writes", plan.failing.writes)
}

// The line that is printed of a trial in which something differs.
fn report(
    alloc: Global,
    seed: u64,
    plan: &Plan,
    what: &str,
    history: &History,
) -> Result<String, Memory> {
    let note = history.noted();
    let mut text = String::new(alloc);
    push_plan(&mut text, seed, plan)?;
    write!(text, ": {what} ({note})")?;
    Ok(text)
}

// A medium that was never formed, with the failing calls and the first stop of a plan.
fn planned_medium(alloc: Global, plan: &Plan) -> Result<MemNand, Memory> {
    let reads = fail_list(alloc, plan.failing.reads)?;
    let writes = fail_list(alloc, plan.failing.writes)?;
    Ok(MemNand::new(alloc, reads, writes, behind_making(plan.stop)))
}

// Runs all scripts of a plan on a new medium.
fn run_plan<Rt: Threads + Wait + Sync>(
    rt: &Rt,
    history: &mut History,
    drawer: &mut Drawer,
    plan: &mut Plan,
    tally: &mut Tally,
) -> Result<(), Wrong> {
    let media = planned_medium(history.alloc, plan)?;
    let mut rig = Rig::on(rt, history.alloc, media);
    let right = run_all(&mut rig, history, drawer, plan, tally);
    drop(rig);
    right
}

// What differs in a trial that ended so, as a line.
fn line_of(
    history: &History,
    seed: u64,
    plan: &Plan,
    right: Result<(), Wrong>,
) -> Result<Option<String>, Memory> {
    match right {
        Ok(()) => Ok(None),
        Err(Wrong::Memory) => Err(Memory),
        Err(Wrong::Differs(what)) => Ok(Some(report(history.alloc, seed, plan, what, history)?)),
    }
}

// What differs in the trial of a plan, and None where nothing does.
fn tried<Rt: Threads + Wait + Sync>(
    rt: &Rt,
    alloc: Global,
    seed: u64,
    drawer: &mut Drawer,
    plan: &mut Plan,
    tally: &mut Tally,
) -> Result<Option<String>, Memory> {
    let Ok(mut history) = History::new(alloc, plan.geometry) else {
        return Err(Memory);
    };
    let right = run_plan(rt, &mut history, drawer, plan, tally);
    let line = line_of(&history, seed, plan, right);
    drop(history);
    line
}

/// What differs in the trial of a seed, as a line, and None where nothing does.
pub(crate) fn difference<Rt: Threads + Wait + Sync>(
    rt: &Rt,
    alloc: Global,
    seed: u64,
    tally: &mut Tally,
) -> Result<Option<String>, Memory> {
    let mut dice = Dice::new(seed);
    let mut plan = drawn_plan(&mut dice);
    let mut drawer = Drawer::new(alloc, dice)?;
    let line = tried(rt, alloc, seed, &mut drawer, &mut plan, tally);
    drop(drawer);
    line
}
