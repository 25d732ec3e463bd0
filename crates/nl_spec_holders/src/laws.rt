//! Laws of the steps of a volume: each live page is held once through them, and what is committed is kept. A function stands for each law.
ghost use Rattle.nl_spec_holders.specs.Laws.{AcknowledgeKeeps, CopyKeeps, CutKeeps, DecideKeeps, DoubtKeeps, DropKeeps, EraseKeeps, FreeKeeps, FreezeKeeps, HandleKeeps, InstallKeeps, NoneHandled, NonePending, OpeningHolds, ProgramKeeps};

/// What a device does: a page is programmed, one is moved by the cleaner, a victim is begun or erased.
pub fn device_keeps()
    ensures program { ProgramKeeps }
    ensures copy { CopyKeeps }
    ensures erase { EraseKeeps }
{}

/// What a call of the file system does: a page in flight is installed, or freed, and a page of a file is given up.
pub fn calls_keep()
    ensures install { InstallKeeps }
    ensures cut { CutKeeps }
    ensures drop_page { DropKeeps }
{}

/// What a callback and its acknowledgement do.
pub fn callbacks_keep()
    ensures handle { HandleKeeps }
    ensures acknowledge { AcknowledgeKeeps }
    ensures none_handled { NoneHandled }
    ensures none_left { NonePending }
{}

/// What a commit does: the running metadata is frozen, it counts, or it is not known to, and pages that are due are freed.
pub fn commits_keep()
    ensures freeze { FreezeKeeps }
    ensures decide { DecideKeeps }
    ensures doubt { DoubtKeeps }
    ensures free { FreeKeeps }
{}

/// What an opening finds.
pub fn opening_holds()
    ensures { OpeningHolds }
{}
