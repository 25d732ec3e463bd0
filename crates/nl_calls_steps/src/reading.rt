ghost use Rattle.std.specs.Prelude.{◌≡◌, ◌+◌, ◌≤◌, ◌<◌, ℕ, IfOk, length};
ghost use Rattle.nl_iface.specs.Calls.{ReadsCounted};
ghost use Rattle.nl_indirect.specs.Ranges.{HasRange};
ghost use Rattle.nl_meta.specs.Nodes.{graph_of};
ghost use Rattle.nl_meta.specs.Pages.{page_of};
ghost use Rattle.nl_meta_running.specs.Reading.{ReadsExplainStop, stop_of};
ghost use Rattle.nl_meta_running.specs.Running.{IsDirectoryAt, IsUsedNode};
ghost use Rattle.nl_files.specs.Answers.{IfPages, IsLostCount, IsLostFile, IsPageStamp, LosesCount, LosesFile};
ghost use Rattle.nl_files.specs.Reading.{AreBytesFrom, IsWanted, file_page};
ghost use Rattle.nl_files.specs.Spans.{pointers_from};
ghost use Rattle.nl_namespace.specs.Listing.{IfListed, ListsNames};
ghost use Rattle.nl_namespace.specs.Paths.{IfNodeAt, Looks};
ghost use Rattle.nl_namespace.specs.Reading.{listing_stop, look_stop};
ghost use Rattle.nl_core.specs.Core.{IsCore, running_of};
ghost use Rattle.nl_calls_files.specs.Fits.{IsFileOf};
ghost use Rattle.nl_calls_steps.specs.Reading.{HasRecordThroughout};
ghost use Rattle.nl_calls_steps.specs.Steps.{ReadsOn};

use nl_core::Core;
use nl_field::{InodeRec, PageBuf};
use nl_files::{CountPages, FileAnswer, count_pages, prepare, read};
use nl_iface::MovingPages;
use nl_meta_running::{Stop, hold};
use nl_namespace::{Listing, Look, list, look};
use nl_spec_commits::laws::device_stands;
use nl_tree::{Path, ReplyBuf};

/// What a path leads to.
pub fn look_up<D: MovingPages>(core: &mut Core<D>, path: &Path) -> Look
    requires core { IsCore D.Counts core.old }
    ensures core { IsCore D.Counts core.new }
    ensures same { ReadsOn D.Counts core.old core.new }
    ensures answer { Looks (graph_of (D.shape core.old.device) (running_of D.Counts core.old)) path.now result }
    ensures used { IfNodeAt result (IsUsedNode D.Counts core.old.device core.old.meta) }
    ensures reads { ReadsExplainStop D.Counts core.old.device core.new.device (look_stop result) }
{
    device_stands(&core.device);
    let answer = look(&mut core.device, &mut core.meta, &core.nodes, path);
    device_stands(&core.device);
    answer
}

/// The names of a directory in the order of their bytes.
pub fn list_names<D: MovingPages>(core: &mut Core<D>, ino: u32, out: &mut ReplyBuf) -> Listing
    requires core { IsCore D.Counts core.old }
    requires directory { IsDirectoryAt D.Counts core.old.device core.old.meta ino }
    ensures core { IsCore D.Counts core.new }
    ensures same { ReadsOn D.Counts core.old core.new }
    ensures listed { IfListed result (λ n. ListsNames D.Counts core.old.device core.old.meta ino n out.new) }
    ensures reads { ReadsExplainStop D.Counts core.old.device core.new.device (listing_stop result) }
{
    device_stands(&core.device);
    let answer = list(&mut core.device, &mut core.meta, &core.nodes, ino, out);
    device_stands(&core.device);
    answer
}

/// The record of a used node, whose page becomes resident.
pub fn open_node<D: MovingPages>(core: &mut Core<D>, ino: u32) -> Result<InodeRec, Stop>
    requires core { IsCore D.Counts core.old }
    requires used { IsUsedNode D.Counts core.old.device core.old.meta ino }
    ensures core { IsCore D.Counts core.new }
    ensures same { ReadsOn D.Counts core.old core.new }
    ensures node { IfOk result (HasRecordThroughout D.Counts core.old core.new ino) }
    ensures reads { ReadsExplainStop D.Counts core.old.device core.new.device (stop_of result) }
{
    device_stands(&core.device);
    match hold(&mut core.device, &mut core.meta, 67 + ino / 16) {
        Ok(()) => {
            device_stands(&core.device);
            Ok(core.nodes.get(&core.meta, ino))
        }
        Err(stop) => {
            device_stands(&core.device);
            Err(stop)
        }
    }
}

/// Makes the pages resident that have the pointers of these page indexes of a file, of which there are at most 17.
pub fn prepare_file<D: MovingPages>(
    core: &mut Core<D>,
    rec: &InodeRec,
    first: u32,
    last: u32,
) -> FileAnswer
    requires core { IsCore D.Counts core.old }
    requires file { (n : ℕ) × IsFileOf D.Counts core.old.device core.old.meta n rec.now }
    requires order { first ≤ last }
    requires few { last ≤ first + 16 }
    requires within { last < 4104 }
    ensures core { IsCore D.Counts core.new }
    ensures same { ReadsOn D.Counts core.old core.new }
    ensures ready { result ≡ FileAnswer.Done → (i : ℕ) → first ≤ i → i ≤ last → HasRange (page_of core.new.meta) rec.now i }
    ensures faults { ReadsCounted D.Counts (result ≡ FileAnswer.Fault) core.old.device core.new.device }
    ensures lost { LosesFile (IsPageStamp (D.stamps core.old.device) rec.now) result }
    ensures told { D.tells → IsLostFile result → ⊥ }
{
    device_stands(&core.device);
    let answer = prepare(&mut core.device, &mut core.meta, rec, first, last);
    device_stands(&core.device);
    answer
}

/// Reads the bytes of a file from an offset on, which end at its size at the latest. `out` is of no meaning after `Fault` and `Lost`.
pub fn read_file<D: MovingPages>(
    core: &mut Core<D>,
    ino: u32,
    rec: &InodeRec,
    at: u64,
    out: &mut [u8],
    buf: &mut PageBuf,
) -> FileAnswer
    requires core { IsCore D.Counts core.old }
    requires file { IsFileOf D.Counts core.old.device core.old.meta ino rec.now }
    requires within { at + length out.old ≤ rec.now.size }
    ensures core { IsCore D.Counts core.new }
    ensures same { ReadsOn D.Counts core.old core.new }
    ensures len { length out.new ≡ length out.old }
    ensures bytes { D.tells → result ≡ FileAnswer.Done
        → AreBytesFrom (file_page D.Counts core.old.device (running_of D.Counts core.old) rec.now) at out.new }
    ensures faults { ReadsCounted D.Counts (result ≡ FileAnswer.Fault) core.old.device core.new.device }
    ensures lost { LosesFile (IsWanted D.Counts core.old.device (running_of D.Counts core.old) rec.now) result }
    ensures told { D.tells → IsLostFile result → ⊥ }
{
    device_stands(&core.device);
    let answer = read(&mut core.device, &mut core.meta, ino, rec, at, out, buf);
    device_stands(&core.device);
    answer
}

/// How many page indexes of a file have a pointer.
pub fn count_file<D: MovingPages>(core: &mut Core<D>, rec: &InodeRec) -> CountPages
    requires core { IsCore D.Counts core.old }
    requires file { (n : ℕ) × IsFileOf D.Counts core.old.device core.old.meta n rec.now }
    ensures core { IsCore D.Counts core.new }
    ensures same { ReadsOn D.Counts core.old core.new }
    ensures count { IfPages result (λ n. n ≡ length (pointers_from (running_of D.Counts core.old) rec.now 0)) }
    ensures faults { ReadsCounted D.Counts (result ≡ CountPages.Fault) core.old.device core.new.device }
    ensures lost { LosesCount (IsPageStamp (D.stamps core.old.device) rec.now) result }
    ensures told { D.tells → IsLostCount result → ⊥ }
{
    device_stands(&core.device);
    let answer = count_pages(&mut core.device, &mut core.meta, rec);
    device_stands(&core.device);
    answer
}
