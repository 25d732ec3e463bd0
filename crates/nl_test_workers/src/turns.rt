// Tests of threads that take turns with a volume, and of the two turns of a line.
use crate::closing::close_with;
use crate::counting::count_effects;
use crate::failing::FailingVolume;
use crate::line::run_line;
use crate::script::sync_script;
use nl_tree::{Answered, FaultReply, Reply, ReplyBuf};
use nl_turns::Turns;
use std::marker::Brand;
use std::test::*;

#[test]
fn two_threads_with_a_thousand_turns_each(rt: HostRuntime) -> Result<(), Fail> {
    let lines = sync_script(rt.alloc(), 2)?;
    let count = count_effects(&rt, rt.alloc(), &lines, 2, 1000).ok_or("memory")?;
    assert_eq!(rt; count, 2000);
    Ok(())
}

#[test]
fn nine_threads_with_two_hundred_turns_each(rt: HostRuntime) -> Result<(), Fail> {
    let lines = sync_script(rt.alloc(), 9)?;
    let count = count_effects(&rt, rt.alloc(), &lines, 9, 200).ok_or("memory")?;
    assert_eq!(rt; count, 1800);
    Ok(())
}

#[test]
fn a_line_is_staged_and_then_answered(rt: HostRuntime) -> Result<(), Fail> {
    let lines = sync_script(rt.alloc(), 1)?;
    let mut out = ReplyBuf::new(rt.alloc())?;
    let Ok((turns, mut seat)) = Turns::new::<Brand>(rt.alloc(), FailingVolume::new(), &lines, 2)
    else {
        return Err("memory".into());
    };
    let Some(own) = turns.split(&mut seat) else {
        unreachable!()
    };
    assert!(rt; turns.split(&mut seat).is_none());
    let (own, answered) = run_line(&rt, &turns, own, lines.get(0), &mut out);
    let failed = Reply::Fault(FaultReply::Eio(1));
    assert_eq!(rt;
        answered,
        Answered {
            place: 1,
            ordinal: 1,
            reply: failed
        }
    );
    let volume = close_with(turns, seat, own);
    assert_eq!(rt; (volume.calls, volume.faults), (1, 1));
    Ok(())
}
