ghost use Rattle.std.specs.Prelude.{◌≡◌, ◌<◌, ◌≤◌, length};
ghost use Rattle.nl_core.specs.Core.{IsCore};
ghost use Rattle.nl_calls_steps.specs.Lines.{HasRoomForLine, InstallsLine, IsLineOfFile, worker_pages};

use crate::ending::end_line;
use crate::installing::install_page;
use nl_core::Core;
use nl_field::InodeRec;
use nl_iface::MovingPages;
use nl_spec_commits::laws::device_stands;

/// Gives a file all pages in flight of a worker's line, one after the other, and a size of at most 16,809,984 bytes that is none below the
/// one that it had. Then the worker has no line. What the file had at those indexes awaits its free.
pub fn install_line<D: MovingPages>(
    core: &mut Core<D>,
    worker: u8,
    ino: u32,
    rec: &mut InodeRec,
    size: u64,
)
    requires core { IsCore D.Counts core.old }
    requires known { worker < 8 }
    requires some { 0 < length (worker_pages core.old worker) }
    requires line { IsLineOfFile D.Counts core.old worker ino size rec.old }
    requires room { HasRoomForLine D.Counts core.old rec.old (worker_pages core.old worker) }
    requires longer { rec.old.size ≤ size }
    requires size { size ≤ 16809984 }
    ensures core { IsCore D.Counts core.new }
    ensures installs { InstallsLine D.Counts worker ino size rec.old rec.new core.old core.new }
{
    device_stands(&core.device);
    let mut place = 0;
    'pages: while let Some(_) = core.flight.get(worker, place) {
        install_page(core, worker, place, ino, rec, size);
        place += 1;
    }
    end_line(core, worker);
}
