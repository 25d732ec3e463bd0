//! The pages that have the pointers of a file are made resident.
ghost use Rattle.std.specs.Prelude.{◌≡◌, ◌<◌, ◌≤◌, ◌+◌, ◌≢◌, ℕ, Some, length, take};
ghost use Rattle.nl_field.specs.Members.{Has};
ghost use Rattle.nl_iface.specs.Calls.{OnlyReads, ReadsCounted};
ghost use Rattle.nl_meta.specs.Nodes.{pointer_at};
ghost use Rattle.nl_meta.specs.Pages.{page_of};
ghost use Rattle.nl_meta.specs.Running.{CleanIsStored};
ghost use Rattle.nl_meta.specs.Steps.{KeepsOtherPages};
ghost use Rattle.nl_indirect.specs.Ranges.{HasPointers, HasRange, address_of, some_pointer};
ghost use Rattle.nl_files.specs.Answers.{IfPointerAt, IsLostFile, IsLostLook, IsPageStamp, LosesFile, LosesLook};
ghost use Rattle.nl_files.specs.Standing.{FileIsAtHand, IsAtHand, KeepsRunning, LoadsAt, LoadsOwn, device_map, running_map};

use crate::answer::{FileAnswer, Looked};
use nl_field::InodeRec;
use nl_iface::NamedPages;
use nl_indirect::{lookup, page_address};
use nl_inode::{Fetch, fetch};
use nl_meta::Meta;

// Makes a page of pointers resident, and touches it. It has a page that is at hand.
pub(crate) fn load<D: NamedPages>(device: &mut D, meta: &mut Meta, vaddr: u32) -> FileAnswer
    requires formed { D.formed device.old }
    requires count { length meta.old.running ≡ (D.shape device.old).vaddrs }
    requires clean { D.tells → CleanIsStored (device_map D.Counts device.old) meta.old }
    requires page { HasPointers (running_map D.Counts device.old meta.old) vaddr }
    requires at_hand { IsAtHand D.tells meta.old vaddr }
    ensures formed { D.formed device.new }
    ensures kept { OnlyReads D.Counts device.old device.new }
    ensures pages { KeepsRunning D.Counts device.old meta.old meta.new }
    ensures others { KeepsOtherPages vaddr meta.old meta.new }
    ensures ready { result ≡ FileAnswer.Done → HasPointers (page_of meta.new) vaddr }
    ensures faults { ReadsCounted D.Counts (result ≡ FileAnswer.Fault) device.old device.new }
    ensures lost { LosesFile (λ w. D.stamps device.old vaddr ≡ Some w) result }
    ensures told { D.tells → IsLostFile result → ⊥ }
{
    match fetch(device, meta, vaddr) {
        Fetch::Ready => FileAnswer::Done,
        Fetch::Fault => FileAnswer::Fault,
        Fetch::Lost { wanted, found } => FileAnswer::Lost { wanted, found },
    }
}

/// Makes the pages resident that have the pointers of these page indexes, of which there are at most 17. They are the last that were
/// touched.
pub fn prepare<D: NamedPages>(
    device: &mut D,
    meta: &mut Meta,
    rec: &InodeRec,
    first: u32,
    last: u32,
) -> FileAnswer
    requires formed { D.formed device.old }
    requires order { first ≤ last }
    requires few { last ≤ first + 16 }
    requires within { last < 4104 }
    requires stands { FileIsAtHand D.Counts device.old rec.now meta.old }
    ensures formed { D.formed device.new }
    ensures kept { OnlyReads D.Counts device.old device.new }
    ensures pages { KeepsRunning D.Counts device.old meta.old meta.new }
    ensures only { LoadsOwn rec.now meta.old meta.new }
    ensures ready { result ≡ FileAnswer.Done → (i : ℕ) → first ≤ i → i ≤ last → HasRange (page_of meta.new) rec.now i }
    ensures recent { result ≡ FileAnswer.Done → (i : ℕ) → first ≤ i → i ≤ last → address_of rec.now i ≢ 0
        → Has (take 2 meta.new.recent) (address_of rec.now i) }
    ensures faults { ReadsCounted D.Counts (result ≡ FileAnswer.Fault) device.old device.new }
    ensures lost { LosesFile (IsPageStamp (D.stamps device.old) rec.now) result }
    ensures told { D.tells → IsLostFile result → ⊥ }
{
    match load_range(device, meta, rec, first) {
        FileAnswer::Done => load_range(device, meta, rec, last),
        other => other,
    }
}

// Makes the page resident that has the pointer of an index, where one has it.
pub(crate) fn load_range<D: NamedPages>(
    device: &mut D,
    meta: &mut Meta,
    rec: &InodeRec,
    index: u32,
) -> FileAnswer
    requires formed { D.formed device.old }
    requires within { index < 4104 }
    requires stands { FileIsAtHand D.Counts device.old rec.now meta.old }
    ensures formed { D.formed device.new }
    ensures kept { OnlyReads D.Counts device.old device.new }
    ensures pages { KeepsRunning D.Counts device.old meta.old meta.new }
    ensures ready { result ≡ FileAnswer.Done → HasRange (page_of meta.new) rec.now index }
    ensures touched { LoadsAt (address_of rec.now index) meta.old meta.new }
    ensures faults { ReadsCounted D.Counts (result ≡ FileAnswer.Fault) device.old device.new }
    ensures lost { LosesFile (IsPageStamp (D.stamps device.old) rec.now) result }
    ensures told { D.tells → IsLostFile result → ⊥ }
{
    let address = page_address(rec, index);
    if address == 0 {
        return FileAnswer::Done;
    }
    load(device, meta, address)
}

// The pointer of a page index.
pub(crate) fn look<D: NamedPages>(
    device: &mut D,
    meta: &mut Meta,
    rec: &InodeRec,
    index: u32,
) -> Looked
    requires formed { D.formed device.old }
    requires within { index < 4104 }
    requires stands { FileIsAtHand D.Counts device.old rec.now meta.old }
    ensures formed { D.formed device.new }
    ensures kept { OnlyReads D.Counts device.old device.new }
    ensures pages { KeepsRunning D.Counts device.old meta.old meta.new }
    ensures only { LoadsOwn rec.now meta.old meta.new }
    ensures at { IfPointerAt result (λ found. found ≡ some_pointer (pointer_at (running_map D.Counts device.old meta.old) rec.now index)) }
    ensures faults { ReadsCounted D.Counts (result ≡ Looked.Fault) device.old device.new }
    ensures lost { LosesLook (IsPageStamp (D.stamps device.old) rec.now) result }
    ensures told { D.tells → IsLostLook result → ⊥ }
{
    match load_range(device, meta, rec, index) {
        FileAnswer::Done => Looked::At(lookup(rec, meta, index)),
        FileAnswer::Fault => Looked::Fault,
        FileAnswer::Lost { wanted, found } => Looked::Lost { wanted, found },
    }
}
