// When a call of a device takes a stamp, and which stamp is the next one then.
ghost use Rattle.std.specs.Prelude.{◌≡◌, ◌↔◌, ◌⊎◌, ◌+◌, ◌<◌, ◌^◌, IsTrue, cond};
ghost use Rattle.nl_field.specs.CrashStates.{Rose};
ghost use Rattle.nl_device.specs.Stamps.{is_tried};
ghost use Rattle.nl_pseg.specs.Answers.{is_placed};

use nl_field::{Named, VirtualWrite};

/// The next stamp after one that was taken, or not.
pub fn stamp_after(next: u64, taken: bool) -> u64
    requires { next < 2 ^ 63 }
    ensures { result ≡ next + cond taken 1 0 }
{
    if taken { next + 1 } else { next }
}

/// Whether a count of failures rose, or stands at its end.
fn rose(before: u64, now: u64) -> bool
    ensures { IsTrue result ↔ Rose before now }
{
    before < now || now == u64::MAX
}

/// Whether a write by a virtual address may have programmed its page.
pub fn takes_stamp(answer: &VirtualWrite, before: u64, now: u64) -> bool
    ensures { IsTrue result ↔ ((answer.now ≡ VirtualWrite.Done) ⊎ Rose before now) }
{
    match *answer {
        VirtualWrite::Done => true,
        VirtualWrite::Lost { .. } | VirtualWrite::Fault => rose(before, now),
    }
}

/// Whether a write under a new name may have programmed its page.
pub fn is_tried(answer: &Named) -> bool
    ensures { result ≡ is_tried answer.now }
{
    match *answer {
        Named::Placed(_) | Named::Fault => true,
        Named::NotLive | Named::NoPage => false,
    }
}

/// Whether a page was placed.
pub fn is_placed(answer: &Named) -> bool
    ensures { result ≡ is_placed answer.now }
{
    match *answer {
        Named::Placed(_) => true,
        Named::Fault | Named::NotLive | Named::NoPage => false,
    }
}
