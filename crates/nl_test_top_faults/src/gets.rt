// A read of the medium fails while the bytes of a file are printed.
use crate::reads::{HELLO, OPENING, failing};
use nl_field::Memory;
use nl_testkit_program::program::{Rig, Told};
use std::alloc::Global;
use std::sync::Wait;
use std::test::Fail;
use std::thread::Threads;

/// What a `get` tells, from the failure of the opening on to that of no read. The one read behind the opening is that of the file.
const ANSWERS: [(u8, &str); 3] = [(5, "medium fault\n"), (5, ""), (0, "hello")];

// Which of these was told.
fn answer_of(told: &Told) -> Option<usize> {
    for (at, answer) in ANSWERS.iter().enumerate() {
        let (status, text) = *answer;
        if told.is(status, text) && told.refused.is_none() {
            return Some(at);
        }
    }
    None
}

// Which of these a `get` of a saved file tells.
fn told_at<Rt: Threads + Wait + Sync>(rig: &mut Rig<'_, Rt>) -> Result<Option<usize>, Memory> {
    if !rig.play(&HELLO)? {
        return Ok(None);
    }
    let told = rig.tell("get /a", "")?;
    let answer = answer_of(&told);
    drop(told);
    Ok(answer)
}

fn got_at<Rt: Threads + Wait + Sync>(
    rt: &Rt,
    alloc: Global,
    read: u64,
) -> Result<Option<usize>, Memory> {
    let mut rig = Rig::on(rt, alloc, failing(alloc, read)?);
    let answer = told_at(&mut rig);
    drop(rig);
    answer
}

/// The run makes an opening and one read, and the `get` begins with a read of each page. More reads than it makes then.
const LONGEST: u64 = 40;

// How many of the calls tell each of the answers, where a read fails each time that is one later, until none fails.
fn tally<Rt: Threads + Wait + Sync>(rt: &Rt, alloc: Global) -> Result<[u32; 3], Memory> {
    let mut counts = [0u32; 3];
    for further in 0..LONGEST {
        let read = OPENING + 1 + 1024 + further;
        let Some(at) = got_at(rt, alloc, read)? else {
            return Ok([0; 3]);
        };
        if let Some(count) = counts.get_mut(at) {
            *count = count.saturating_add(1);
        }
        if at == 2 {
            return Ok(counts);
        }
    }
    Ok(counts)
}

#[test]
fn the_read_of_a_file_that_is_printed_fails(rt: HostRuntime) -> Result<(), Fail> {
    let [openings, cut, none] = tally(&rt, rt.alloc())?;
    assert!(rt; 1 < openings);
    assert_eq!(rt; [cut, none], [1, 1]);
    Ok(())
}
