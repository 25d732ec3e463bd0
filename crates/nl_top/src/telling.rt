// What is told of lines that were run: the lists, the text and the status.
ghost use Rattle.std.specs.Prelude.{◌≡◌, ◌≤◌, ◌||◌, None};
ghost use Rattle.nl_field.specs.CrashStates.{Rose};
ghost use Rattle.nl_spec_headline.specs.Status.{DoneStatus, RunFailed};
ghost use Rattle.nl_spec_headline.specs.Streams.{Prints, sink_seen};
ghost use Rattle.nl_io.specs.Streams.{WritesStream};
ghost use Rattle.nl_cmd_course.specs.Rounds.{AreRoomyFor, order_of_rows, syncs_of_rows};
ghost use Rattle.nl_top.specs.Telling.{told_text};

use nl_cmd_answers::{print_answers, print_summary};
use nl_cmd_course::{Charges, Tables, list_answers};
use nl_cmd_run::Ran;
use nl_cmd_words::{Done, Faults, has_failed, status_of};
use nl_io::{Sink, SinkAnswer};
use nl_nand::Nand;
use nl_workers::AnswerTable;

// What is printed of lines that were run.
#[derive(Clone, Copy, Debug, PartialEq, Eq)]
pub(crate) enum Told {
    // With which count the volume opened, and each answer.
    Answers,
    // Counts of the answers, and the charges of the last tree.
    Summary,
}

// Lists the answers of lines that were run, and prints what is to be told of them.
pub(crate) fn tell<K: Sink, M: Nand>(
    ran: Ran<M>,
    tables: Tables,
    before: Faults,
    told: Told,
    sink: &mut K,
) -> Done<M>
    requires tables { AreRoomyFor tables.answers.rows tables.order tables.syncs }
    ensures refused { result.refused ≡ None }
    ensures media { result.media ≡ ran.media }
    ensures order { result.order.items ≡ order_of_rows tables.answers.rows }
    ensures syncs { result.syncs.items ≡ syncs_of_rows tables.answers.rows }
    ensures prints { Prints (sink_seen K.Sink sink.old) (sink_seen K.Sink sink.new)
        (told_text told ran.count ran.charges tables.answers.rows) }
    ensures status { DoneStatus result.status (RunFailed result.order.items
        (record { clock = M.clock ran.media; read_faults = before.reads; write_faults = before.writes })
        (record { clock = M.clock ran.media; read_faults = M.read_faults ran.media; write_faults = M.write_faults ran.media })
        ran.lost ran.worn)
        (sink_seen K.Sink sink.old) (sink_seen K.Sink sink.new) (told_text told ran.count ran.charges tables.answers.rows) }
{
    let Tables {
        answers,
        kit: _,
        mut order,
        mut syncs,
    } = tables;
    list_answers(&answers, &mut order, &mut syncs);
    let Ran {
        media,
        count,
        lost,
        worn,
        charges,
    } = ran;
    let answer = print(sink, told, count, charges, &answers);
    let failed = any_of(has_failed(&media, before), order.has_fault(), lost, worn);
    Done {
        status: status_of(failed, answer),
        refused: None,
        media,
        syncs,
        order,
    }
}

// Prints the answers, or their summary.
fn print<K: Sink>(
    sink: &mut K,
    told: Told,
    count: u64,
    charges: Charges,
    answers: &AnswerTable,
) -> SinkAnswer
    ensures text { WritesStream (K.taken sink.old) (K.taken sink.new) result (told_text told count charges answers.now.rows) }
    ensures never_falls { K.faults sink.old ≤ K.faults sink.new }
    ensures cause { result ≡ SinkAnswer.Failed → Rose (K.faults sink.old) (K.faults sink.new) }
{
    match told {
        Told::Answers => print_answers(sink, count, answers),
        Told::Summary => {
            print_summary(sink, answers, charges.pages, charges.nodes, charges.meta)
        }
    }
}

// Whether the medium failed, an answer is a fault reply, a page was lost, or the volume is worn.
fn any_of(failed: bool, fault: bool, lost: bool, worn: bool) -> bool
    ensures { result ≡ failed || (fault || (lost || worn)) }
{
    failed || fault || lost || worn
}
