// The step of a call that cuts or lengthens a file.
ghost use Rattle.std.specs.Prelude.{◌≡◌, ◌/◌, ◌<◌, ◌≤◌, option_map, slice_get};
ghost use Rattle.nl_flight.specs.Flight.{of_worker};
ghost use Rattle.nl_iface.specs.Calls.{ReadsCounted};
ghost use Rattle.nl_files.specs.Answers.{IsLostFile, IsPageStamp, LosesFile};
ghost use Rattle.nl_core.specs.Core.{IsCore};
ghost use Rattle.nl_calls_steps.specs.Installing.{FilePointerIsResident};
ghost use Rattle.nl_calls_files.specs.Taking.{HasRoomToTake};
ghost use Rattle.nl_calls_steps.specs.Truncating.{CutsFileTo, HasPartial, RefusesCut};

use crate::ending::end_line;
use nl_calls_files::cut_back;
use nl_core::Core;
use nl_field::{InodeRec, Pointer};
use nl_files::{FileAnswer, gather};
use nl_flight::Flight;
use nl_iface::MovingPages;
use nl_spec_commits::laws::device_stands;

const PAGE: u64 = 4096;

/// Cuts or lengthens a file to a size of at most 16,809,984 bytes. Where the file has bytes behind it in the page in which it ends, the
/// worker has that page in flight without them, and it becomes the file's. Then the worker has no line, and what the file had wholly
/// behind the size awaits its free. Pages of pointers are read first; where that fails, the answer is `Fault` or `Lost`, and all else is as
/// it was.
pub fn cut_file<D: MovingPages>(
    core: &mut Core<D>,
    worker: u8,
    ino: u32,
    rec: &mut InodeRec,
    size: u64,
) -> FileAnswer
    requires core { IsCore D.Counts core.old }
    requires known { worker < 8 }
    requires hand { FilePointerIsResident D.Counts core.old ino (size / 4096) rec.old }
    requires partial { HasPartial D.Counts core.old worker ino size rec.old }
    requires room { HasRoomToTake core.old.meta rec.old ino (size / 4096) }
    requires size { size ≤ 16809984 }
    ensures core { IsCore D.Counts core.new }
    ensures cut { result ≡ FileAnswer.Done → CutsFileTo D.Counts worker ino size rec.old rec.new core.old core.new }
    ensures refused { (result ≡ FileAnswer.Done → ⊥) → RefusesCut D.Counts rec.old rec.new core.old core.new }
    ensures faults { ReadsCounted D.Counts (result ≡ FileAnswer.Fault) core.old.device core.new.device }
    ensures lost { LosesFile (IsPageStamp (D.stamps core.old.device) rec.old) result }
    ensures told { D.tells → IsLostFile result → ⊥ }
{
    device_stands(&core.device);
    match gather(
        &mut core.device,
        &mut core.meta,
        rec,
        size.div_ceil(PAGE) as u32,
        &mut core.freeing,
    ) {
        FileAnswer::Done => {}
        other => {
            device_stands(&core.device);
            return other;
        }
    }
    device_stands(&core.device);
    let partial = first_pointer(&core.flight, worker);
    cut_back(
        &mut core.meta,
        &mut core.nodes,
        rec,
        ino,
        size,
        partial,
        &mut core.freeing,
    );
    end_line(core, worker);
    FileAnswer::Done
}

// The pointer of the worker's first page in flight.
fn first_pointer(flight: &Flight, worker: u8) -> Option<Pointer>
    requires { worker < 8 }
    ensures { result ≡ option_map (λ page. page.at) (slice_get (of_worker flight.now worker).pages 0) }
{
    match flight.get(worker, 0) {
        Some((_, at, _)) => Some(at),
        None => None,
    }
}
