// The cleaning of a block, task by task.
use crate::rig::{Seen, Step};
use crate::rounds::{BUILT, DEAD};
use crate::visit::{assert_none_differs, differing, sound, tree};
use nl_tree::Duty;

// The block with 14 dead pages has 18 live ones. A callback that was handled stays pending until a commit.
const TASKS: [(Step, Seen); 24] = [
    (Step::Duty(Duty::Erase), Seen::Nothing),
    (Step::Duty(Duty::Commit), Seen::Nothing),
    (Step::Duty(Duty::Handle(1)), Seen::Nothing),
    (Step::Duty(Duty::Copy), Seen::Did),
    (Step::Duty(Duty::Erase), Seen::Nothing),
    (Step::Duties(Duty::Copy, 20), Seen::Number(17)),
    (Step::Duty(Duty::Erase), Seen::Did),
    (Step::Duty(Duty::Erase), Seen::Nothing),
    (Step::FreeBlocks, Seen::Number(7)),
    (Step::Pairs, Seen::Number(18)),
    (Step::Handles(18), Seen::Number(18)),
    (Step::Duty(Duty::Handle(19)), Seen::Nothing),
    (Step::Handles(18), Seen::Number(18)),
    (Step::Pairs, Seen::Number(18)),
    (Step::Duty(Duty::Commit), Seen::Did),
    (Step::Pairs, Seen::Number(0)),
    (Step::FreeBlocks, Seen::Number(8)),
    (Step::Handles(18), Seen::Number(0)),
    (Step::Duty(Duty::Commit), Seen::Nothing),
    (Step::Clock, Seen::Number(BUILT + 29)),
    (Step::Call, Seen::Did),
    (Step::Duty(Duty::Commit), Seen::Did),
    (Step::Committed, Seen::Number(8)),
    (Step::Duty(Duty::Level), Seen::Nothing),
];

#[test]
fn task_by_task(rt: HostRuntime) {
    let alloc = rt.alloc();
    let found = differing(alloc, &DEAD, sound(alloc, None), tree(&TASKS, 8), Some(8));
    assert_none_differs(&rt, found);
}
