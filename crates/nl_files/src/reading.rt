//! The bytes of a file are read, zeros where nothing was ever written.
ghost use Rattle.std.specs.Prelude.{◌≡◌, ◌<◌, ◌≤◌, ◌+◌, ℕ, length, slice_index};
ghost use Rattle.nl_iface.specs.Calls.{OnlyReads, ReadsCounted};
ghost use Rattle.nl_iface.specs.Holders.{IsRef, always, wants_tagged};
ghost use Rattle.nl_iface.specs.Names.{place_of};
ghost use Rattle.nl_files.specs.Answers.{IsLostFile, LosesFile};
ghost use Rattle.nl_files.specs.Reading.{AreBytesFrom, IsWanted, file_page};
ghost use Rattle.nl_files.specs.Standing.{FileIsAtHand, KeepsRunning, LoadsOwn, PointersLead, running_map};

use crate::answer::{FileAnswer, Looked};
use crate::pages::look;
use nl_field::{InodeRec, NamedRead, PageBuf, Pointer, Tag};
use nl_iface::NamedPages;
use nl_meta::Meta;

const PAGE: u64 = 4096;

/// Reads the bytes of a file from an offset on; they end at its size at the latest. What was never written reads as zeros. `buf`
/// is work space. `out` is of no meaning after `Fault` and `Lost`.
pub fn read<D: NamedPages>(
    device: &mut D,
    meta: &mut Meta,
    ino: u32,
    rec: &InodeRec,
    at: u64,
    out: &mut [u8],
    buf: &mut PageBuf,
) -> FileAnswer
    requires formed { D.formed device.old }
    requires within { at + length out.old ≤ rec.now.size }
    requires stands { FileIsAtHand D.Counts device.old rec.now meta.old }
    requires leads { PointersLead (D.names device.old) ino rec.now (running_map D.Counts device.old meta.old) }
    ensures formed { D.formed device.new }
    ensures kept { OnlyReads D.Counts device.old device.new }
    ensures pages { KeepsRunning D.Counts device.old meta.old meta.new }
    ensures only { LoadsOwn rec.now meta.old meta.new }
    ensures len { length out.new ≡ length out.old }
    ensures bytes { D.tells → result ≡ FileAnswer.Done
        → AreBytesFrom (file_page D.Counts device.old (running_map D.Counts device.old meta.old) rec.now) at out.new }
    ensures faults { ReadsCounted D.Counts (result ≡ FileAnswer.Fault) device.old device.new }
    ensures lost { LosesFile (IsWanted D.Counts device.old (running_map D.Counts device.old meta.old) rec.now) result }
    ensures told { D.tells → IsLostFile result → ⊥ }
{
    let mut done = 0;
    while done < out.len() {
        let from = at + done as u64;
        match read_page(device, meta, ino, rec, (from / PAGE) as u32, buf) {
            FileAnswer::Done => {}
            other => return other,
        }
        done += copy(out, done, buf, (from % PAGE) as usize);
    }
    FileAnswer::Done
}

// Puts the bytes of a page from an offset on into a list of bytes, as many as there are and have room behind the place. How many.
pub(crate) fn copy(out: &mut [u8], place: usize, page: &PageBuf, offset: usize) -> usize
    requires room { place < length out.old }
    requires inside { offset < 4096 }
    ensures len { length out.new ≡ length out.old }
    ensures some { 0 < result }
    ensures most { place + result ≤ length out.old }
    ensures page { offset + result ≤ 4096 }
    ensures before { (k : ℕ) → k < place → slice_index out.new k ≡ slice_index out.old k }
    ensures copied { (k : ℕ) → k < result → slice_index out.new (place + k) ≡ slice_index page.now.main (offset + k) }
{
    let count = (out.len() - place).min(4096 - offset);
    out[place..place + count].copy_from_slice(&page.main()[offset..offset + count]);
    count
}

// Reads the page of an index, zeros where it has none.
fn read_page<D: NamedPages>(
    device: &mut D,
    meta: &mut Meta,
    ino: u32,
    rec: &InodeRec,
    index: u32,
    buf: &mut PageBuf,
) -> FileAnswer
    requires formed { D.formed device.old }
    requires within { index < 4104 }
    requires stands { FileIsAtHand D.Counts device.old rec.now meta.old }
    requires leads { PointersLead (D.names device.old) ino rec.now (running_map D.Counts device.old meta.old) }
    ensures formed { D.formed device.new }
    ensures kept { OnlyReads D.Counts device.old device.new }
    ensures pages { KeepsRunning D.Counts device.old meta.old meta.new }
    ensures only { LoadsOwn rec.now meta.old meta.new }
    ensures bytes { D.tells → result ≡ FileAnswer.Done
        → buf.new.main ≡ file_page D.Counts device.old (running_map D.Counts device.old meta.old) rec.now index }
    ensures faults { ReadsCounted D.Counts (result ≡ FileAnswer.Fault) device.old device.new }
    ensures lost { LosesFile (IsWanted D.Counts device.old (running_map D.Counts device.old meta.old) rec.now) result }
    ensures told { D.tells → IsLostFile result → ⊥ }
{
    match look(device, meta, rec, index) {
        Looked::At(None) => {
            buf.clear();
            FileAnswer::Done
        }
        Looked::At(Some(at)) => {
            let tag = Tag {
                ino,
                generation: rec.generation,
                index,
            };
            read_at(device, at, tag, buf)
        }
        Looked::Fault => FileAnswer::Fault,
        Looked::Lost { wanted, found } => FileAnswer::Lost { wanted, found },
    }
}

// Reads the live page to which a pointer leads.
fn read_at<D: NamedPages>(device: &mut D, at: Pointer, tag: Tag, buf: &mut PageBuf) -> FileAnswer
    requires formed { D.formed device.old }
    requires leads { IsRef (D.names device.old) always (wants_tagged (tag, at)) at.name }
    ensures formed { D.formed device.new }
    ensures kept { OnlyReads D.Counts device.old device.new }
    ensures bytes { D.tells → result ≡ FileAnswer.Done → buf.new.main ≡ D.bytes device.old (place_of (D.names device.old) at) }
    ensures faults { ReadsCounted D.Counts (result ≡ FileAnswer.Fault) device.old device.new }
    ensures lost { LosesFile (λ w. at.stamp ≡ w) result }
    ensures told { D.tells → IsLostFile result → ⊥ }
{
    match device.physical_read(at, tag, buf) {
        NamedRead::Done => FileAnswer::Done,
        NamedRead::NotLive => unreachable!(),
        NamedRead::Lost { wanted, found } => FileAnswer::Lost { wanted, found },
        NamedRead::Fault => FileAnswer::Fault,
    }
}
