ghost use Rattle.std.specs.Prelude.{◌≡◌, ◌+◌, ◌<◌, ◌≤◌, length};
ghost use Rattle.nl_flight.specs.Flight.{IsFlight, of_worker};
ghost use Rattle.nl_iface.specs.Calls.{StoresPages};
ghost use Rattle.nl_core.specs.Core.{IsCore};
ghost use Rattle.nl_calls_steps.specs.Installing.{HasRoomToInstall, InstallsPage, FilePointerIsResident, IsPageOfFile, page_in, with_landed};

use nl_calls_files::take_page;
use nl_core::Core;
use nl_field::InodeRec;
use nl_iface::MovingPages;
use nl_spec_commits::laws::device_stands;

/// Gives a file the page in flight at a place of a worker's line, and a size. The pages of the line before that place are the file's by
/// now: without them in flight, and afterwards without this one too, each live page is held once. What the file had at the index awaits its
/// free.
pub fn install_page<D: MovingPages>(
    core: &mut Core<D>,
    worker: u8,
    place: u32,
    ino: u32,
    rec: &mut InodeRec,
    size: u64,
)
    requires core { IsCore D.Counts (with_landed core.old worker place) }
    requires lines { IsFlight core.old.flight }
    requires known { worker < 8 }
    requires some { place < length (of_worker core.old.flight worker).pages }
    requires hand { FilePointerIsResident D.Counts core.old ino (page_in core.old worker place).index rec.old }
    requires page { IsPageOfFile D.Counts core.old ino rec.old (page_in core.old worker place) }
    requires room { HasRoomToInstall D.Counts core.old ino rec.old (page_in core.old worker place) }
    requires size { size ≤ 16809984 }
    ensures core { IsCore D.Counts (with_landed core.new worker (place + 1)) }
    ensures installs { InstallsPage D.Counts ino size (page_in core.old worker place) rec.old rec.new core.old core.new }
{
    device_stands(&core.device);
    let Some((index, at, _)) = core.flight.get(worker, place) else {
        unreachable!()
    };
    take_page(
        &mut core.meta,
        &mut core.nodes,
        rec,
        ino,
        index,
        at,
        size,
        &mut core.freeing,
    );
}
