// Whether there is room for the pages of a call that writes, and a file made ready for them.
ghost use Rattle.std.specs.Prelude.{◌<◌, ◌≤◌, ◌+◌, IfOk};
ghost use Rattle.nl_field.specs.Numbers.{max_bytes};
ghost use Rattle.nl_meta_running.specs.Reading.{stop_of};
ghost use Rattle.nl_core.specs.Core.{IsCore};
ghost use Rattle.nl_calls_steps.specs.Answers.{EndsEarly};
ghost use Rattle.nl_calls_steps.specs.Finding.{IsSomeFile};
ghost use Rattle.nl_calls_steps.specs.Steps.{ReadsOn};
ghost use Rattle.nl_calls_write.specs.Fitting.{IsFitting};

use crate::answer::Fits;
use nl_calls_bytes::{count_pointers, count_ranges, has_free};
use nl_calls_steps::{open_node, prepare_file};
use nl_core::Core;
use nl_files::FileAnswer;
use nl_iface::MovingPages;
use nl_meta_running::Stop;
use nl_spec_commits::laws::device_stands;
use nl_tree::{Refusal, Space};

const PAGE: u64 = 4096;

/// Makes a file ready for pages at the indexes in which so many bytes from an offset on lie, where there is room for them, with as many
/// pages as the files have.
pub(crate) fn fits<D: MovingPages>(
    core: &mut Core<D>,
    ino: u32,
    from: u64,
    len: u64,
    files: u32,
) -> Result<Fits, Stop>
    requires core { IsCore D.Counts core.old }
    requires file { IsSomeFile D.Counts core.old ino }
    requires some { 0 < len }
    requires few { len ≤ max_bytes }
    requires within { from + len ≤ 16809984 }
    ensures core { IsCore D.Counts core.new }
    ensures same { ReadsOn D.Counts core.old core.new }
    ensures fits { IfOk result (IsFitting D.Counts core.new ino from len files) }
    ensures early { EndsEarly D.Counts core.old core.new (stop_of result) }
{
    device_stands(&core.device);
    let rec = open_node(core, ino)?;
    let first = (from / PAGE) as u32;
    let count = ((from + len - 1) / PAGE + 1 - from / PAGE) as u32;
    match prepare_file(core, &rec, first, first + (count - 1)) {
        FileAnswer::Done => {}
        FileAnswer::Fault => return Err(Stop::Fault),
        FileAnswer::Lost { wanted, found } => return Err(Stop::Lost { wanted, found }),
    }
    let ranges = count_ranges(&rec, first, count);
    let pages = count_pointers(&rec, &core.meta, first, count);
    if !has_free(&mut core.nodes, ranges) {
        return Ok(Fits::No(Refusal::Enospc(Space::Meta)));
    }
    if u64::from(files) + u64::from(pages) > u64::from(core.shape.cap) {
        return Ok(Fits::No(Refusal::Enospc(Space::Pages)));
    }
    Ok(Fits::Fits(rec))
}
