// The page in which a file ends once it is cut, put in flight ahead of the cut.
ghost use Rattle.std.specs.Prelude.{◌≡◌, ◌≢◌, ◌≤◌, ◌<◌, ◌/◌, ◌%◌, ◌^◌, ℕ, false, IfOk, OnOk};
ghost use Rattle.nl_field.specs.Pointers.{is_none_pointer};
ghost use Rattle.nl_iface.specs.Calls.{StoresPages};
ghost use Rattle.nl_iface.specs.Device.{IsVolumeShape};
ghost use Rattle.nl_indirect.specs.Ranges.{HasRange};
ghost use Rattle.nl_meta.specs.Nodes.{pointer_at};
ghost use Rattle.nl_meta.specs.Pages.{page_of};
ghost use Rattle.nl_meta_running.specs.Reading.{stop_of};
ghost use Rattle.nl_core.specs.Core.{IsCore, names_of, running_of};
ghost use Rattle.nl_core.specs.Goes.{PreservesVolume};
ghost use Rattle.nl_core.specs.LastCommit.{KeepsRoom};
ghost use Rattle.nl_core.specs.Programming.{last_stamp};
ghost use Rattle.nl_calls_files.specs.Fits.{IsFileOf};
ghost use Rattle.nl_calls_steps.specs.Steps.{ReadsOn};
ghost use Rattle.nl_calls_steps.specs.Answers.{EndsEarly};
ghost use Rattle.nl_calls_steps.specs.Finding.{IsSomeFile};
ghost use Rattle.nl_calls_steps.specs.Calls.{OtherLinesStay};
ghost use Rattle.nl_calls_truncate.specs.Truncating.{CanCut, CanTruncate, HasCutPage, IsOpenFile};

use nl_calls_steps::{open_node, prepare_file, read_page};
use nl_core::{Core, Programmed};
use nl_field::{InodeRec, PageBuf, Tag};
use nl_files::FileAnswer;
use nl_iface::MovingPages;
use nl_indirect::lookup;
use nl_meta_running::Stop;
use nl_spec_commits::laws::device_stands;

const PAGE: u64 = 4096;

// How many pages a file may have.
const PAGES: u32 = 4104;

/// Where a file has bytes from a size on in the page in which it ends then, puts that page without them in flight for a worker without a
/// line.
pub(crate) fn put_cut<D: MovingPages>(
    core: &mut Core<D>,
    worker: u8,
    line: u32,
    ino: u32,
    size: u64,
    page: &mut PageBuf,
) -> Result<(), Stop>
    requires core { IsCore D.Counts core.old }
    requires stamp { D.next_stamp core.old.device < last_stamp }
    requires can { CanTruncate D.Counts core.old worker line }
    requires file { IsSomeFile D.Counts core.old ino }
    requires size { size ≤ 16809984 }
    ensures core { IsCore D.Counts core.new }
    ensures goes { PreservesVolume D.Counts (2 ^ 30) core.old core.new }
    ensures ready { OnOk result (CanCut D.Counts core.new worker ino size) }
    ensures others { OtherLinesStay worker core.old.flight core.new.flight }
    ensures early { EndsEarly D.Counts core.old core.new (stop_of result) }
    ensures at_once { 0 < (names_of D.Counts core.old).space.room → KeepsRoom D.Counts 1 core.old core.new }
{
    let rec = open_file(core, ino)?;
    if rec.size <= size || size % PAGE == 0 {
        return Ok(());
    }
    if has_hole(core, &rec, size)? {
        return Ok(());
    }
    program_cut(core, worker, line, ino, &rec, size, page)
}

/// The record of a file, whose page becomes resident.
pub(crate) fn open_file<D: MovingPages>(core: &mut Core<D>, ino: u32) -> Result<InodeRec, Stop>
    requires core { IsCore D.Counts core.old }
    requires file { IsSomeFile D.Counts core.old ino }
    ensures core { IsCore D.Counts core.new }
    ensures volume { IsVolumeShape (D.shape core.old.device) }
    ensures stores { D.tells → StoresPages D.Counts core.new.device }
    ensures same { ReadsOn D.Counts core.old core.new }
    ensures opened { IfOk result (IsOpenFile D.Counts core.old core.new ino) }
    ensures early { EndsEarly D.Counts core.old core.new (stop_of result) }
{
    device_stands(&core.device);
    let opened = open_node(core, ino);
    device_stands(&core.device);
    opened
}

/// Makes the page resident that has the pointer of the index in which a file of this size ends, where there is such an index.
pub(crate) fn hold_end<D: MovingPages>(
    core: &mut Core<D>,
    rec: &InodeRec,
    size: u64,
) -> Result<(), Stop>
    requires core { IsCore D.Counts core.old }
    requires file { (n : ℕ) × IsFileOf D.Counts core.old.device core.old.meta n rec.now }
    requires size { size ≤ 16809984 }
    ensures core { IsCore D.Counts core.new }
    ensures stores { D.tells → StoresPages D.Counts core.new.device }
    ensures same { ReadsOn D.Counts core.old core.new }
    ensures range { OnOk result (HasRange (page_of core.new.meta) rec.now (size / 4096)) }
    ensures early { EndsEarly D.Counts core.old core.new (stop_of result) }
{
    let index = (size / PAGE) as u32;
    if index == PAGES {
        device_stands(&core.device);
        return Ok(());
    }
    let answer = prepare_file(core, rec, index, index);
    device_stands(&core.device);
    match answer {
        FileAnswer::Done => Ok(()),
        FileAnswer::Fault => Err(Stop::Fault),
        FileAnswer::Lost { wanted, found } => Err(Stop::Lost { wanted, found }),
    }
}

// Whether a file has no page at the index in which it ends with this size.
fn has_hole<D: MovingPages>(core: &mut Core<D>, rec: &InodeRec, size: u64) -> Result<bool, Stop>
    requires core { IsCore D.Counts core.old }
    requires file { (n : ℕ) × IsFileOf D.Counts core.old.device core.old.meta n rec.now }
    requires size { size < 16809984 }
    ensures core { IsCore D.Counts core.new }
    ensures stores { D.tells → StoresPages D.Counts core.new.device }
    ensures same { ReadsOn D.Counts core.old core.new }
    ensures hole { IfOk result (λ b. b ≡ is_none_pointer (pointer_at (running_of D.Counts core.new) rec.now (size / 4096))) }
    ensures early { EndsEarly D.Counts core.old core.new (stop_of result) }
{
    hold_end(core, rec, size)?;
    Ok(lookup(rec, &core.meta, (size / PAGE) as u32).is_none())
}

// Programs the page in which a file ends then, without its bytes from a size on.
fn program_cut<D: MovingPages>(
    core: &mut Core<D>,
    worker: u8,
    line: u32,
    ino: u32,
    rec: &InodeRec,
    size: u64,
    page: &mut PageBuf,
) -> Result<(), Stop>
    requires core { IsCore D.Counts core.old }
    requires stamp { D.next_stamp core.old.device < last_stamp }
    requires can { CanTruncate D.Counts core.old worker line }
    requires file { IsFileOf D.Counts core.old.device core.old.meta ino rec.now }
    requires shorter { size < rec.now.size }
    requires within { size % 4096 ≢ 0 }
    requires had { is_none_pointer (pointer_at (running_of D.Counts core.old) rec.now (size / 4096)) ≡ false }
    ensures core { IsCore D.Counts core.new }
    ensures goes { PreservesVolume D.Counts (2 ^ 30) core.old core.new }
    ensures ready { OnOk result (CanCut D.Counts core.new worker ino size) }
    ensures others { OtherLinesStay worker core.old.flight core.new.flight }
    ensures early { EndsEarly D.Counts core.old core.new (stop_of result) }
    ensures at_once { 0 < (names_of D.Counts core.old).space.room → KeepsRoom D.Counts 1 core.old core.new }
{
    make_cut(core, ino, size, page)?;
    let tag = Tag {
        ino,
        generation: rec.generation,
        index: (size / PAGE) as u32,
    };
    let answer = core.program(worker, line, tag, page);
    device_stands(&core.device);
    match answer {
        Programmed::InFlight => Ok(()),
        Programmed::Stopped => unreachable!(),
        Programmed::Lost { wanted, found } => Err(Stop::Lost { wanted, found }),
        Programmed::Fault => Err(Stop::Fault),
    }
}

// Makes that page.
fn make_cut<D: MovingPages>(
    core: &mut Core<D>,
    ino: u32,
    size: u64,
    page: &mut PageBuf,
) -> Result<(), Stop>
    requires core { IsCore D.Counts core.old }
    requires file { IsSomeFile D.Counts core.old ino }
    requires size { size < 16809984 }
    ensures core { IsCore D.Counts core.new }
    ensures volume { IsVolumeShape (D.shape core.old.device) }
    ensures stores { D.tells → StoresPages D.Counts core.new.device }
    ensures same { ReadsOn D.Counts core.old core.new }
    ensures made { OnOk result (HasCutPage D.Counts core.old ino size page.new.main) }
    ensures early { EndsEarly D.Counts core.old core.new (stop_of result) }
{
    device_stands(&core.device);
    let mut bytes = [0u8; PAGE as usize];
    page.clear();
    bytes.copy_from_slice(page.main());
    let read = read_page(core, ino, (size / PAGE) as u32, &mut bytes, page);
    device_stands(&core.device);
    page.set_head(&bytes[..(size % PAGE) as usize]);
    read
}
