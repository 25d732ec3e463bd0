// Plays a script on a new plain tree.
ghost use Rattle.std.specs.Prelude.{◌≡◌, ◌<◌, ◌≤◌, length, IfOk, OnErr};
ghost use Rattle.nl_field.specs.CrashStates.{Rose};
ghost use Rattle.nl_io.specs.Streams.{WritesStream};
ghost use Rattle.nl_script.specs.Script.{max_calls};
ghost use Rattle.nl_bench.specs.Played.{Ends, played_text};

use crate::ended::Ended;
use crate::lines::run_lines;
use nl_field::{Memory, Shape};
use nl_io::{Sink, SinkAnswer};
use nl_print::{number_line, refused_line};
use nl_script::{ScriptRefusal, script_of};
use nl_tree::{Lines, ReplyBuf};
use nl_tree_model::Plain;
use std::alloc::Global;

// Runs the lines of a script on a new tree, and prints their answers behind the line of its opening.
fn play_lines<K: Sink>(
    alloc: Global,
    shape: Shape,
    lines: &Lines,
    sink: &mut K,
) -> Result<SinkAnswer, Memory>
    requires nodes { 0 < shape.nodes }
    requires few { length lines.now ≤ max_calls }
    ensures text { IfOk result (λ answer. WritesStream (K.taken sink.old) (K.taken sink.new) answer (played_text shape lines.now)) }
    ensures cause { IfOk result (λ answer. answer ≡ SinkAnswer.Failed → Rose (K.faults sink.old) (K.faults sink.new)) }
    ensures memory { OnErr result (WritesStream (K.taken sink.old) (K.taken sink.new) SinkAnswer.Failed (played_text shape lines.now)) }
{
    let mut plain = Plain::new(alloc, shape)?;
    let mut out = ReplyBuf::new(alloc)?;
    match number_line(sink, b"opened", 0) {
        SinkAnswer::Took => run_lines(&mut plain, lines, &mut out, sink),
        SinkAnswer::Failed => Ok(SinkAnswer::Failed),
    }
}

/// Plays a script on a new tree with the room of a volume of this shape: the sink takes what `run` prints of it on a new volume, or why it
/// is refused. Where it ends with `NotPrinted` or `Memory`, the sink took a beginning of that.
pub(crate) fn play<K: Sink>(alloc: Global, shape: Shape, bytes: &[u8], sink: &mut K) -> Ended
    requires nodes { 0 < shape.nodes }
    ensures ended { Ends shape bytes.now (K.taken sink.old) (K.taken sink.new) result }
    ensures cause { result ≡ Ended.NotPrinted → Rose (K.faults sink.old) (K.faults sink.new) }
{
    match script_of(alloc, bytes) {
        Ok(lines) => match play_lines(alloc, shape, &lines, sink) {
            Ok(SinkAnswer::Took) => Ended::Done,
            Ok(SinkAnswer::Failed) => Ended::NotPrinted,
            Err(Memory) => Ended::Memory,
        },
        Err(ScriptRefusal::Refused { line, column, why }) => {
            match refused_line(sink, line, column, why.word()) {
                SinkAnswer::Took => Ended::Refused,
                SinkAnswer::Failed => Ended::NotPrinted,
            }
        }
        Err(ScriptRefusal::Memory) => Ended::Memory,
    }
}
