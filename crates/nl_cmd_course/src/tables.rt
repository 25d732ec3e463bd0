ghost use Rattle.std.specs.Prelude.{IfOk};
ghost use Rattle.nl_cmd_course.specs.Rounds.{AreTablesFor};

use nl_field::Memory;
use nl_spec_headline::{OrderList, SyncList};
use nl_tree::Lines;
use nl_workers::{AnswerTable, DutyKit};
use std::alloc::Global;

/// What a run keeps beside the volume. All memory of a run but that of the volume and the lock is taken here.
#[derive(Drop)]
pub struct Tables {
    pub answers: AnswerTable,
    pub kit: DutyKit,
    pub order: OrderList,
    pub syncs: SyncList,
}

/// Tables with room for these lines.
pub fn tables_for(alloc: Global, lines: &Lines) -> Result<Tables, Memory>
    ensures { IfOk result (λ t. AreTablesFor lines.now t.answers t.order t.syncs) }
{
    let mut order = OrderList::new(alloc);
    order.reserve(lines.len())?;
    let mut syncs = SyncList::new(alloc);
    syncs.reserve(lines.len())?;
    Ok(Tables {
        answers: AnswerTable::new(alloc, lines)?,
        kit: DutyKit::new(alloc)?,
        order,
        syncs,
    })
}
