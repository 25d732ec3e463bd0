// Workers that run beside each other on a medium that stops.
use crate::asserting::assert_none_wrong;
use nl_field::Memory;
use nl_nand::{Cut, Stop};
use nl_testkit_program::play::{FORMAT, answered};
use nl_testkit_program::program::{Rig, Told};
use nl_top::OrderList;
use std::alloc::Global;
use std::sync::Wait;
use std::thread::Threads;

// Each of three workers writes its own file.
const BESIDE: &str = "0 create /f0
1 create /f1
2 create /f2
0 write /f0 0 01
1 write /f1 0 01
2 write /f2 0 01
0 sync
1 write /f1 0 02
2 sync
0 write /f0 0 02
1 sync
2 write /f2 0 02
";

// How many of the lines of a worker that change its file are among the first answered ones. A fault reply changes nothing.
fn changes(order: &OrderList, calls: u64, lines: [u32; 3]) -> usize {
    let mut count = 0usize;
    for at in 0..order.len() {
        let ordered = order.get(at);
        if u64::from(at) < calls && ordered.fault.is_none() && lines.contains(&ordered.line) {
            count = count.saturating_add(1);
        }
    }
    count
}

fn read_after(changes: usize) -> &'static str {
    match changes {
        0 => "ENOENT",
        1 => "ok -",
        2 => "ok 01",
        _ => "ok 02",
    }
}

// Whether the files are told as wanted on a volume after so many calls, where each has so many of its changes.
fn files_right<Rt: Threads + Wait + Sync>(
    rig: &mut Rig<'_, Rt>,
    count: u64,
    changes: [usize; 3],
) -> Result<bool, Memory> {
    let [zero, one, two] = changes;
    let answers = [read_after(zero), read_after(one), read_after(two)];
    let text = answered(rig.alloc, count, 0, &answers)?;
    let script = "0 read /f0 0 9\n0 read /f1 0 9\n0 read /f2 0 9\n";
    let right = rig.play(&[("run", script, 0, text.as_str())]);
    drop(text);
    right
}

// Whether what such a run left is right: its volume is to open after a prefix of the answered lines that has each synced one.
fn left_right<Rt: Threads + Wait + Sync>(
    rig: &mut Rig<'_, Rt>,
    told: &Told,
) -> Result<bool, Memory> {
    let Some(count) = rig.counted()? else {
        return rig.note("not sound");
    };
    let met = told.status == 5;
    if count < told.synced() || 12 < count || told.order.len() != 12 || !met && count != 12 {
        return rig.note("another count");
    }
    let changes = [
        changes(&told.order, count, [1, 4, 10]),
        changes(&told.order, count, [2, 5, 8]),
        changes(&told.order, count, [3, 6, 12]),
    ];
    files_right(rig, count, changes)
}

// Whether a run of the three workers is right that was stopped there. With it comes whether the run met its stop.
fn prefix_right<Rt: Threads + Wait + Sync>(
    rig: &mut Rig<'_, Rt>,
    stop: Stop,
) -> Result<(bool, bool), Memory> {
    let formatted = rig.play(&[FORMAT])?;
    rig.restart(Some(stop));
    let told = rig.tell("run", BESIDE)?;
    rig.restart(None);
    let met = told.status == 5;
    let right = left_right(rig, &told);
    drop(told);
    Ok((formatted && right?, met))
}

/// More programs than the run of the three workers makes.
const LONGEST: u64 = 60;

// Whether these runs are right that are stopped with this cut: the programs go on until one that the run does not make.
fn each_right<Rt: Threads + Wait + Sync>(rig: &mut Rig<'_, Rt>, cut: Cut) -> Result<bool, Memory> {
    for operation in 1..LONGEST {
        let (right, met) = prefix_right(rig, Stop { operation, cut })?;
        if !right {
            return rig.note_run(operation);
        }
        if !met {
            return Ok(true);
        }
    }
    rig.note("more programs")
}

fn each<Rt: Threads + Wait + Sync>(rt: &Rt, alloc: Global, cut: Cut) -> Result<String, Memory> {
    let mut rig = Rig::new(rt, alloc);
    let right = each_right(&mut rig, cut);
    rig.ended(right)
}

#[test]
fn workers_are_stopped_before(rt: HostRuntime) {
    assert_none_wrong(&rt, each(&rt, rt.alloc(), Cut::Before));
}

#[test]
fn workers_are_stopped_and_spoil_a_page(rt: HostRuntime) {
    assert_none_wrong(&rt, each(&rt, rt.alloc(), Cut::Spoilt));
}
