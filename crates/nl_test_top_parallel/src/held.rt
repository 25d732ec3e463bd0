// Workers that a gate holds.
use crate::asserting::assert_none_wrong;
use crate::gates::{Chores, Holding, Syncing};
use nl_field::Memory;
use nl_testkit_program::built::{Built, full};
use nl_testkit_program::play::Step;
use nl_testkit_program::program::{Given, Rig};
use nl_top::Gate;
use std::alloc::Global;
use std::sync::Wait;
use std::thread::Threads;

// Whether a run under a gate is told as wanted.
fn run_right<Rt: Threads + Wait + Sync, G: Gate + Sync>(
    rig: &mut Rig<'_, Rt>,
    step: &Step<'_>,
    gate: &G,
) -> Result<bool, Memory> {
    let (words, script, _, _) = *step;
    let given = Given {
        words,
        script,
        read: 0,
        write: 0,
    };
    let told = rig.tell_with(&given, gate)?;
    let right = rig.is_told(&told, step);
    drop(told);
    right
}

// Whether the second of these steps is told as wanted under a gate, on a new volume after the first and before the last.
fn held_right<Rt: Threads + Wait + Sync, G: Gate + Sync>(
    rig: &mut Rig<'_, Rt>,
    steps: &[Step<'_>; 3],
    gate: &G,
) -> Result<bool, Memory> {
    Ok(rig.play_new(&steps[..1])? && run_right(rig, &steps[1], gate)? && rig.play(&steps[2..])?)
}

fn held<Rt: Threads + Wait + Sync, G: Gate + Sync>(
    rt: &Rt,
    alloc: Global,
    steps: &[Step<'_>; 3],
    gate: &G,
) -> Result<String, Memory> {
    let mut rig = Rig::new(rt, alloc);
    let right = held_right(&mut rig, steps, gate);
    rig.ended(right)
}

// Worker 0 has staged its line 4 while the block of its pages is cleaned.
const STAGED: [Step<'static>; 3] = [
    ("check", "", 0, "sound 0\n"),
    (
        "run",
        "1 create /a
1 create /b
barrier
0 fill /a 0 65536 61
1 fill /b 0 65536 62
1 fill /b 0 65536 63
1 sync
1 clean
1 sync
barrier
0 read /a 0 2
",
        0,
        "opened 0
1 @1 ok
2 @2 ok
5 @3 ok 65536
6 @4 ok 65536
7 @5 ok 4
8 @6 ok
9 @7 ok 6
4 @8 ok 65536
11 @9 ok 6161
",
    ),
    ("run", "0 read /a 65535 9\n", 0, "opened 9\n1 @10 ok 61\n"),
];

#[test]
fn staged_pages_are_moved(rt: HostRuntime) {
    let gate = Holding::new();
    assert_none_wrong(&rt, held(&rt, rt.alloc(), &STAGED, &gate));
    assert!(rt; gate.held() == 2);
}

// Worker 0 has staged all units of its sync while the write of worker 1 goes through. The sync has the calls before it began.
const SYNCED: [Step<'static>; 3] = [
    ("check", "", 0, "sound 0\n"),
    (
        "run",
        "1 create /a
1 create /b
barrier
0 sync
1 write /a 0 61
barrier
0 sync
",
        0,
        "opened 0
1 @1 ok
2 @2 ok
5 @3 ok 1
4 @4 ok 2
7 @5 ok 4
",
    ),
    (
        "run",
        "0 read /a 0 9\n0 read /b 0 9\n",
        0,
        "opened 5\n1 @6 ok 61\n2 @7 ok -\n",
    ),
];

#[test]
fn a_write_goes_through_beside_a_sync(rt: HostRuntime) {
    let gate = Syncing::new();
    assert_none_wrong(&rt, held(&rt, rt.alloc(), &SYNCED, &gate));
    assert!(rt; gate.held() == 2);
}

// Every second piece of the first 224 pages is written over.
fn refill(alloc: Global, built: &mut Built) -> Result<(), Memory> {
    for piece in 0..7u64 {
        let from = piece.saturating_mul(131072);
        let call = format!(in alloc; "fill /a {from} 65536 62")?;
        let added = built.add(call.as_str(), "ok 65536");
        drop(call);
        added?;
    }
    built.add("sync", "ok 40")?;
    built.barrier()?;
    built.add("read /a 0 1", "ok 62")
}

fn refilled(alloc: Global) -> Result<Built, Memory> {
    let mut built = Built::new(alloc, 33)?;
    refill(alloc, &mut built)?;
    Ok(built)
}

// Behind the sync 5 blocks are Free, and seven have 16 dead pages each.
fn chores<Rt: Threads + Wait + Sync>(
    rt: &Rt,
    alloc: Global,
    gate: &Chores,
) -> Result<String, Memory> {
    let full = full(alloc)?;
    let refilled = refilled(alloc)?;
    let steps: [Step<'_>; 3] = [
        full.step(),
        refilled.step(),
        (
            "run",
            "0 read /a 65535 2\n0 stat /a\n",
            0,
            "opened 42\n1 @43 ok 6261\n2 @44 ok file 1966080 480\n",
        ),
    ];
    held(rt, alloc, &steps, gate)
}

#[test]
fn the_cleaner_and_the_handler_act(rt: HostRuntime) {
    let gate = Chores::new();
    assert_none_wrong(&rt, chores(&rt, rt.alloc(), &gate));
    assert!(rt; gate.held());
}
