//! The lines of one epoch, as a range of positions.
ghost use Rattle.std.specs.Prelude.{◌≡◌, ◌<◌, ◌≤◌, ◌≢◌, true, length, slice_get, Some};
ghost use Rattle.nl_tree.specs.Calls.{AreLines};
ghost use Rattle.nl_tree.specs.declared.call.Line.{Line as LineState};
ghost use Rattle.nl_workers.specs.Worked.{IsEpoch};

use nl_tree::Lines;

/// The positions of the lines of one epoch.
#[derive(Clone, Copy, Drop)]
pub(crate) struct Span {
    pub(crate) from: u32,
    pub(crate) to: u32,
}

/// The first position behind this one whose line is of another epoch, or the count of lines.
pub(crate) fn end_of_epoch(lines: &Lines, from: u32) -> u32
    requires { from < length lines.now }
    ensures rises { from < result }
    ensures epoch { IsEpoch lines.now from result }
    ensures whole { (a : LineState) (b : LineState) → slice_get lines.now from ≡ Some a → slice_get lines.now result ≡ Some b
        → b.round ≢ a.round }
{
    let round = lines.get(from).round;
    for at in from..lines.len() {
        if lines.get(at).round != round {
            return at;
        }
    }
    lines.len()
}

/// Whether a worker needs a thread: it has lines in the epoch, and one of the workers below it has some too.
pub(crate) fn needs_thread(lines: &Lines, span: Span, worker: u8) -> bool
    requires { span.to ≤ length lines.now }
    ensures some { result ≡ true → 0 < worker }
{
    let mut own = false;
    let mut below = false;
    for at in span.from..span.to {
        let line = lines.get(at);
        own = own || line.worker == worker;
        below = below || line.worker < worker;
        if own && below {
            return 0 < worker;
        }
    }
    false
}
