ghost use Rattle.std.specs.Prelude.{◌≡◌, IfOk};
ghost use Rattle.nl_test_workers.specs.Script.{IsScript};

use nl_field::Memory;
use nl_tree::{Call, Line, Lines};
use std::alloc::Global;

/// So many lines, numbered from 1, each a sync, in one epoch. Their workers take turns.
pub fn sync_script(alloc: Global, count: u8) -> Result<Lines, Memory>
    ensures { IfOk result (λ l. IsScript l count) }
{
    let mut lines = Lines::new(alloc);
    for at in 0..count {
        lines.push(Line {
            line: u32::from(at) + 1,
            round: 0,
            worker: at % 8,
            call: Call::Sync,
        })?;
    }
    Ok(lines)
}
