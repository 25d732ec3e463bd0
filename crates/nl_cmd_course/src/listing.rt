ghost use Rattle.std.specs.Prelude.{◌≡◌, ◌≤◌, ◌+◌, ◌++◌, ◌∷◌, [], length, option_to_list};
ghost use Rattle.nl_tree.specs.Causes.{fault_in};
ghost use Rattle.nl_cmd_course.specs.Rounds.{HasOneMore, IsEmptyWithRoomFor, order_of_rows, synced_row, syncs_of_rows};

use nl_spec_headline::{OrderList, Ordered, SyncList, Synced};
use nl_tree::{FaultReply, Reply};
use nl_workers::AnswerTable;

/// Lists the answered lines, and the syncs among them that were answered ok, in the order of their places.
pub fn list_answers(answers: &AnswerTable, order: &mut OrderList, syncs: &mut SyncList)
    requires order { IsEmptyWithRoomFor (length answers.now.rows) order.old }
    requires syncs { IsEmptyWithRoomFor (length answers.now.rows) syncs.old }
    ensures order { order.new.items ≡ order_of_rows answers.now.rows }
    ensures syncs { syncs.new.items ≡ syncs_of_rows answers.now.rows }
{
    'rows: for at in 0..answers.len() {
        let answer = answers.get(at);
        list_row(answer.line, &answer.answered.reply, order, syncs);
    }
}

// Lists one more.
fn list_row(line: u32, reply: &Reply, order: &mut OrderList, syncs: &mut SyncList)
    requires order { HasOneMore order.old }
    requires syncs { HasOneMore syncs.old }
    ensures order { order.new.items ≡ order.old.items ++ record { line = line; fault = fault_in reply.now } ∷ [] }
    ensures order_room { order.old.room ≤ order.new.room + 1 }
    ensures syncs { syncs.new.items ≡ syncs.old.items ++ option_to_list (synced_row line reply.now) }
    ensures syncs_room { syncs.old.room ≤ syncs.new.room + 1 }
{
    let _ = order.push(Ordered {
        line,
        fault: fault_of(reply),
    });
    if let Reply::Synced { upto, moment } = *reply {
        let _ = syncs.push(Synced { line, upto, moment });
    }
}

// The fault reply that a reply is, if it is one.
fn fault_of(reply: &Reply) -> Option<FaultReply>
    ensures { result ≡ fault_in reply.now }
{
    match reply {
        Reply::Fault(fault) => Some(*fault),
        _ => None,
    }
}
