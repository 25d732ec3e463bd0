// Prints the answers of a script.
ghost use Rattle.std.specs.Prelude.{◌≡◌, ◌<◌, ◌≤◌, ◌++◌, IfSome, flat_map, length, slice_get};
ghost use Rattle.nl_field.specs.CrashStates.{Rose};
ghost use Rattle.nl_io.specs.Streams.{WritesStream};
ghost use Rattle.nl_cmd_answers.specs.Gathering.{WritesFront};
ghost use Rattle.nl_cmd_answers.specs.Rows.{row_line, rows_text};

use crate::gathered::Gathered;
use nl_io::{Sink, SinkAnswer};
use nl_print::{answer_line, number_line};
use nl_workers::AnswerTable;

/// Prints with which count a volume opened, and a line for each answer, in the order of their places. After a failure of the sink no more
/// is printed.
pub fn print_answers<K: Sink>(sink: &mut K, count: u64, answers: &AnswerTable) -> SinkAnswer
    ensures text { WritesStream (K.taken sink.old) (K.taken sink.new) result (rows_text count answers.now.rows) }
    ensures never_falls { K.faults sink.old ≤ K.faults sink.new }
    ensures cause { result ≡ SinkAnswer.Failed → Rose (K.faults sink.old) (K.faults sink.new) }
{
    match number_line(sink, b"opened", count) {
        SinkAnswer::Took => print_rows(sink, answers),
        SinkAnswer::Failed => SinkAnswer::Failed,
    }
}

// Prints a line for each answer.
fn print_rows<K: Sink>(sink: &mut K, answers: &AnswerTable) -> SinkAnswer
    ensures text { WritesStream (K.taken sink.old) (K.taken sink.new) result (flat_map row_line answers.now.rows) }
    ensures never_falls { K.faults sink.old ≤ K.faults sink.new }
    ensures cause { result ≡ SinkAnswer.Failed → Rose (K.faults sink.old) (K.faults sink.new) }
{
    let mut waiting = Gathered::new();
    'rows: for at in 0..answers.len() {
        match print_next(sink, &mut waiting, answers, at) {
            SinkAnswer::Took => {}
            SinkAnswer::Failed => return SinkAnswer::Failed,
        }
    }
    waiting.hand_on(sink)
}

// Prints the answer at a place, counted from 0, behind the text that waits. It waits with that where there is room, and else all that waits
// is written, and the line behind it.
fn print_next<K: Sink>(
    sink: &mut K,
    waiting: &mut Gathered,
    answers: &AnswerTable,
    at: u32,
) -> SinkAnswer
    requires { at < length answers.now.rows }
    ensures took { result ≡ SinkAnswer.Took → IfSome (slice_get answers.now.rows at) (λ row.
        WritesFront (K.taken sink.old) (K.taken sink.new) (waiting.old.text ++ row_line row) waiting.new.text) }
    ensures failed { result ≡ SinkAnswer.Failed → IfSome (slice_get answers.now.rows at) (λ row.
        WritesStream (K.taken sink.old) (K.taken sink.new) SinkAnswer.Failed (waiting.old.text ++ row_line row)) }
    ensures never_falls { K.faults sink.old ≤ K.faults sink.new }
    ensures cause { result ≡ SinkAnswer.Failed → Rose (K.faults sink.old) (K.faults sink.new) }
{
    let len = waiting.len();
    match print_row(waiting, answers, at) {
        SinkAnswer::Took => return SinkAnswer::Took,
        SinkAnswer::Failed => waiting.cut(len),
    }
    match waiting.hand_on(sink) {
        SinkAnswer::Took => print_row(sink, answers, at),
        SinkAnswer::Failed => SinkAnswer::Failed,
    }
}

// Prints the answer at a place, counted from 0.
fn print_row<K: Sink>(sink: &mut K, answers: &AnswerTable, at: u32) -> SinkAnswer
    requires { at < length answers.now.rows }
    ensures text { IfSome (slice_get answers.now.rows at) (λ row. WritesStream (K.taken sink.old) (K.taken sink.new) result (row_line row)) }
    ensures never_falls { K.faults sink.old ≤ K.faults sink.new }
    ensures cause { result ≡ SinkAnswer.Failed → Rose (K.faults sink.old) (K.faults sink.new) }
{
    let answer = answers.get(at);
    let bytes = answers.bytes(at);
    answer_line(
        sink,
        answer.line,
        answer.answered.place,
        &answer.answered.reply,
        bytes,
    )
}
