// Tests of workers that run a script under gates.
use crate::gates::{Chores, Counting, Meeting, Overtaking};
use crate::run::run_script;
use crate::script::sync_script;
use nl_tree::{FaultReply, Reply};
use nl_workers::NoGate;
use std::test::*;

#[test]
fn two_workers_meet_before_their_first_lines(rt: HostRuntime) -> Result<(), Fail> {
    let lines = sync_script(rt.alloc(), 2)?;
    let gate = Meeting::new();
    let answers = run_script(&rt, rt.alloc(), &lines, &gate).ok_or("memory")?;
    assert_eq!(rt; gate.met(), 2);
    assert_eq!(rt; answers.len(), 2);
    Ok(())
}

#[test]
fn a_worker_that_has_staged_is_overtaken_by_five_lines(rt: HostRuntime) -> Result<(), Fail> {
    let lines = sync_script(rt.alloc(), 34)?;
    let gate = Overtaking::new(5);
    let answers = run_script(&rt, rt.alloc(), &lines, &gate).ok_or("memory")?;
    assert!(rt; gate.is_overtaken());
    assert_eq!(rt; answers.len(), 34);
    Ok(())
}

#[test]
fn a_gate_is_told_once_of_each_step_of_a_worker(rt: HostRuntime) -> Result<(), Fail> {
    let lines = sync_script(rt.alloc(), 34)?;
    let gate = Counting::new();
    let answers = run_script(&rt, rt.alloc(), &lines, &gate).ok_or("memory")?;
    assert_eq!(rt; (answers.len(), gate.told(), gate.wrong()), (34, 15, 0));
    Ok(())
}

#[test]
fn the_cleaner_and_the_handler_act_beside_a_held_worker(rt: HostRuntime) -> Result<(), Fail> {
    let lines = sync_script(rt.alloc(), 1)?;
    let gate = Chores::new();
    let answers = run_script(&rt, rt.alloc(), &lines, &gate).ok_or("memory")?;
    assert!(rt; gate.are_done());
    assert_eq!(rt; answers.len(), 1);
    Ok(())
}

#[test]
fn the_answer_of_one_line(rt: HostRuntime) -> Result<(), Fail> {
    let lines = sync_script(rt.alloc(), 1)?;
    let answers = run_script(&rt, rt.alloc(), &lines, &NoGate).ok_or("memory")?;
    assert_eq!(rt; answers.len(), 1);
    if 0 < answers.len() {
        let answer = answers.get(0);
        assert_eq!(rt;
            (answer.line, answer.answered.place, answer.answered.ordinal),
            (1, 1, 1)
        );
        assert_eq!(rt; answer.answered.reply, Reply::Fault(FaultReply::Eio(1)));
        assert_eq!(rt; answers.bytes(0).len(), 0);
    }
    assert!(rt; !answers.lost());
    Ok(())
}
