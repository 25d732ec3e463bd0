// The read of the page of an index of a file.
ghost use Rattle.std.specs.Prelude.{◌≡◌, ◌<◌, length, OnOk};
ghost use Rattle.nl_field.specs.Bytes.{zeros};
ghost use Rattle.nl_meta_running.specs.Reading.{stop_of};
ghost use Rattle.nl_core.specs.Core.{IsCore};
ghost use Rattle.nl_calls_steps.specs.Answers.{EndsEarly};
ghost use Rattle.nl_calls_steps.specs.Finding.{IsSomeFile};
ghost use Rattle.nl_calls_files.specs.Fits.{IsFileOf};
ghost use Rattle.nl_calls_steps.specs.Paging.{ArePageBytes};
ghost use Rattle.nl_calls_steps.specs.Steps.{ReadsOn};

use crate::reading::{open_node, read_file};
use nl_core::Core;
use nl_field::{InodeRec, PageBuf};
use nl_files::FileAnswer;
use nl_iface::MovingPages;
use nl_meta_running::Stop;
use nl_spec_commits::laws::device_stands;

const PAGE: u64 = 4096;

/// Reads the page of an index of a file over zeros.
pub fn read_page<D: MovingPages>(
    core: &mut Core<D>,
    ino: u32,
    index: u32,
    out: &mut [u8],
    page: &mut PageBuf,
) -> Result<(), Stop>
    requires core { IsCore D.Counts core.old }
    requires file { IsSomeFile D.Counts core.old ino }
    requires within { index < 4104 }
    requires zero { out.old ≡ zeros 4096 }
    requires whole { length out.old ≡ 4096 }
    ensures core { IsCore D.Counts core.new }
    ensures same { ReadsOn D.Counts core.old core.new }
    ensures page { OnOk result (ArePageBytes D.Counts core.old ino index out.new) }
    ensures early { EndsEarly D.Counts core.old core.new (stop_of result) }
{
    device_stands(&core.device);
    match open_node(core, ino) {
        Ok(rec) => {
            device_stands(&core.device);
            read_head(core, ino, &rec, index, out, page)
        }
        Err(stop) => Err(stop),
    }
}

// Reads the page of an index of a file with this record over zeros.
fn read_head<D: MovingPages>(
    core: &mut Core<D>,
    ino: u32,
    rec: &InodeRec,
    index: u32,
    out: &mut [u8],
    page: &mut PageBuf,
) -> Result<(), Stop>
    requires core { IsCore D.Counts core.old }
    requires file { IsFileOf D.Counts core.old.device core.old.meta ino rec.now }
    requires within { index < 4104 }
    requires zero { out.old ≡ zeros 4096 }
    requires whole { length out.old ≡ 4096 }
    ensures core { IsCore D.Counts core.new }
    ensures same { ReadsOn D.Counts core.old core.new }
    ensures page { OnOk result (ArePageBytes D.Counts core.old ino index out.new) }
    ensures early { EndsEarly D.Counts core.old core.new (stop_of result) }
{
    let start = PAGE * u64::from(index);
    let left = rec.size.saturating_sub(start);
    let held = if left < PAGE { left } else { PAGE };
    let at = if held == 0 { 0 } else { start };
    match read_file(core, ino, rec, at, &mut out[..held as usize], page) {
        FileAnswer::Done => Ok(()),
        FileAnswer::Fault => Err(Stop::Fault),
        FileAnswer::Lost { wanted, found } => Err(Stop::Lost { wanted, found }),
    }
}
