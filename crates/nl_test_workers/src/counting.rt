ghost use Rattle.std.specs.Prelude.{◌≡◌, ◌≤◌, ◌<◌, ◌*◌, ◌+◌, [], List, IfSome, vec_len};
ghost use Rattle.nl_test_workers.specs.Script.{IsScript};

use crate::failing::FailingVolume;
use crate::rounds::round;
use nl_tree::{Lines, ReplyBuf};
use nl_turns::Turns;
use std::alloc::Global;
use std::marker::Brand;
use std::sync::Wait;
use std::thread::Threads;

/// So many threads do so many effects each, each thread of a line of its own, and the volume counts them all. It is `None` for want
/// of memory.
pub fn count_effects<R: Threads + Wait + Sync>(
    rt: &R,
    alloc: Global,
    lines: &Lines,
    workers: u8,
    times: u32,
) -> Option<u64>
    requires few { workers ≤ 9 }
    requires lines { IsScript lines.now workers }
    ensures { IfSome result (λ n. n ≡ workers * times) }
{
    let outs = buffers(alloc, workers)?;
    let Ok((turns, seat)) = Turns::new::<Brand>(
        alloc,
        FailingVolume::new(),
        lines,
        u32::from(workers) + 1,
    ) else {
        return None;
    };
    let seat = round(rt, &turns, seat, lines, outs, times);
    Some(turns.close(seat).calls)
}

fn buffers(alloc: Global, count: u8) -> Option<Vec<ReplyBuf>>
    ensures { IfSome result (λ v. vec_len v ≡ count) }
{
    let mut outs = Vec::new(alloc);
    for _ in 0..count {
        outs.push(ReplyBuf::new(alloc).ok()?).ok()?;
    }
    Some(outs)
}
