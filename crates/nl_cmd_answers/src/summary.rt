// Prints the summary of a soak.
ghost use Rattle.std.specs.Prelude.{◌≡◌, ◌≤◌, cond, length, map};
ghost use Rattle.nl_field.specs.CrashStates.{Rose, saturated};
ghost use Rattle.nl_io.specs.Streams.{WritesStream};
ghost use Rattle.nl_cmd_answers.specs.Rows.{is_ok, ok_in, read_by, read_in, said, summary_text, written_by, written_in};

use nl_io::{Sink, SinkAnswer};
use nl_print::soak_lines;
use nl_tree::Reply;
use nl_workers::AnswerTable;

/// Counts of answers: those that are neither a refusal nor a fault, and the bytes that were written and read, at most 2^64 - 1.
#[derive(Clone, Copy, Debug, PartialEq, Eq)]
pub(crate) struct Tally {
    pub ok: u32,
    pub written: u64,
    pub read: u64,
}

/// Prints how many lines were answered and how many of them ok, how many bytes were written and read, and the charges of the last tree:
/// its pages of files, its nodes, and its pages of metadata.
pub fn print_summary<K: Sink>(
    sink: &mut K,
    answers: &AnswerTable,
    pages: u64,
    nodes: u32,
    meta: u32,
) -> SinkAnswer
    ensures text { WritesStream (K.taken sink.old) (K.taken sink.new) result (summary_text (map said answers.now.rows) pages nodes meta) }
    ensures never_falls { K.faults sink.old ≤ K.faults sink.new }
    ensures cause { result ≡ SinkAnswer.Failed → Rose (K.faults sink.old) (K.faults sink.new) }
{
    let tally = tally_of(answers);
    soak_lines(
        sink,
        u64::from(answers.len()),
        u64::from(tally.ok),
        tally.written,
        tally.read,
        pages,
        nodes,
        meta,
    )
}

// Counts the answers.
fn tally_of(answers: &AnswerTable) -> Tally
    ensures ok { result.ok ≡ ok_in (map said answers.now.rows) }
    ensures few { result.ok ≤ length answers.now.rows }
    ensures written { result.written ≡ saturated (written_in (map said answers.now.rows)) }
    ensures read { result.read ≡ saturated (read_in (map said answers.now.rows)) }
{
    let mut tally = Tally {
        ok: 0,
        written: 0,
        read: 0,
    };
    'rows: for at in 0..answers.len() {
        let reply = &answers.get(at).answered.reply;
        let bytes = answers.bytes(at);
        tally.ok += one_if(is_ok(reply));
        tally.written = tally.written.saturating_add(written_by(reply));
        tally.read = tally.read.saturating_add(read_by(reply, bytes));
    }
    tally
}

fn one_if(yes: bool) -> u32
    ensures { result ≡ cond yes 1 0 }
{
    if yes { 1 } else { 0 }
}

fn is_ok(reply: &Reply) -> bool
    ensures { result ≡ is_ok reply.now }
{
    !matches!(reply, Reply::No(_) | Reply::Fault(_))
}

fn written_by(reply: &Reply) -> u64
    ensures { result ≡ written_by reply.now }
{
    match reply {
        Reply::Count(count) => *count,
        _ => 0,
    }
}

fn read_by(reply: &Reply, bytes: &[u8]) -> u64
    ensures { result ≡ read_by reply.now bytes.now }
{
    match reply {
        Reply::Content => bytes.len() as u64,
        _ => 0,
    }
}
