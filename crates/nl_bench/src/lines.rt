// Runs the lines of a script on the plain tree.
ghost use Rattle.std.specs.Prelude.{◌≡◌, ◌≤◌, ◌+◌, length, IfOk, OnOk, OnErr};
ghost use Rattle.nl_field.specs.CrashStates.{Rose};
ghost use Rattle.nl_io.specs.Streams.{WritesStream};
ghost use Rattle.nl_print.specs.Texts.{answer_line};
ghost use Rattle.nl_script.specs.Script.{max_calls};
ghost use Rattle.nl_tree.specs.Calls.{IsLine};
ghost use Rattle.nl_bench.specs.Played.{answered_by, lines_text, state_after};

use nl_field::Memory;
use nl_io::{Sink, SinkAnswer};
use nl_print::answer_line;
use nl_tree::{Line, Lines, ReplyBuf};
use nl_tree_model::Plain;

// Runs one line, and prints its answer in its place.
fn run_line<K: Sink>(
    plain: &mut Plain,
    place: u64,
    line: &Line,
    out: &mut ReplyBuf,
    sink: &mut K,
) -> Result<SinkAnswer, Memory>
    requires line { IsLine line.now }
    requires place { place ≡ plain.old.calls + 1 }
    ensures text { IfOk result (λ answer. WritesStream (K.taken sink.old) (K.taken sink.new) answer
        (answer_line place (answered_by plain.old line.now))) }
    ensures after { OnOk result (plain.new ≡ state_after plain.old line.now) }
    ensures never_falls { K.faults sink.old ≤ K.faults sink.new }
    ensures cause { IfOk result (λ answer. answer ≡ SinkAnswer.Failed → Rose (K.faults sink.old) (K.faults sink.new)) }
    ensures untouched { OnErr result (sink.new ≡ sink.old) }
{
    let reply = plain.step(&line.call, out)?;
    Ok(answer_line(sink, line.line, place, &reply, out.bytes()))
}

/// Runs lines in their order, and prints the answer of each as soon as it is run. No more are run after an answer that the sink did not
/// take, and none after want of memory: then a beginning of the text was taken.
pub(crate) fn run_lines<K: Sink>(
    plain: &mut Plain,
    lines: &Lines,
    out: &mut ReplyBuf,
    sink: &mut K,
) -> Result<SinkAnswer, Memory>
    requires few { length lines.now ≤ max_calls }
    requires new { plain.old.calls ≡ 0 }
    ensures text { IfOk result (λ answer. WritesStream (K.taken sink.old) (K.taken sink.new) answer (lines_text plain.old lines.now)) }
    ensures never_falls { K.faults sink.old ≤ K.faults sink.new }
    ensures cause { IfOk result (λ answer. answer ≡ SinkAnswer.Failed → Rose (K.faults sink.old) (K.faults sink.new)) }
    ensures memory { OnErr result (WritesStream (K.taken sink.old) (K.taken sink.new) SinkAnswer.Failed (lines_text plain.old lines.now)) }
{
    'lines: for at in 0..lines.len() {
        match run_line(plain, u64::from(at) + 1, lines.get(at), out, sink)? {
            SinkAnswer::Took => {}
            SinkAnswer::Failed => return Ok(SinkAnswer::Failed),
        }
    }
    Ok(SinkAnswer::Took)
}
