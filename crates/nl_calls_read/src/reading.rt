// The call that reads bytes of a file.
ghost use Rattle.std.specs.Prelude.{◌≡◌, ◌+◌, ◌-◌, ◌≤◌, ◌<◌, ⊤, [], false, length, min};
ghost use Rattle.nl_field.specs.Numbers.{max_bytes};
ghost use Rattle.nl_iface.specs.Calls.{ReadsCounted};
ghost use Rattle.nl_tree.specs.declared.call.Call.TheVariants.{Read};
ghost use Rattle.nl_core.specs.Core.{IsCore, running_of};
ghost use Rattle.nl_files.specs.Answers.{IsLostFile, LosesFile};
ghost use Rattle.nl_files.specs.Reading.{AreBytesFrom, file_page};
ghost use Rattle.nl_calls_files.specs.Fits.{IsFileOf};
ghost use Rattle.nl_calls_steps.specs.Steps.{ReadsOn};
ghost use Rattle.nl_calls_read.specs.Due.{AnswersStep};
ghost use Rattle.nl_calls_read.specs.Looking.{EndsLook, IfContent, IfReplied, IsPlainReply, brings_bytes};
ghost use Rattle.nl_calls_read.specs.Pieces.{AddsBytes};

use crate::answer::{Looked, Spot};
use crate::spots::find_spot;
use nl_calls_steps::read_file;
use nl_core::Core;
use nl_field::{InodeRec, PageBuf};
use nl_files::FileAnswer;
use nl_iface::MovingPages;
use nl_spec_commits::laws::device_stands;
use nl_tree::{Path, Refusal, Reply, ReplyBuf};

const PAGE: u64 = 4096;

/// The bytes of a file from an offset on, at most so many, ending at its size. `page` is work space.
pub(crate) fn read_path<D: MovingPages>(
    core: &mut Core<D>,
    path: &Path,
    from: u64,
    len: u32,
    out: &mut ReplyBuf,
    page: &mut PageBuf,
) -> Looked
    requires core { IsCore D.Counts core.old }
    requires few { len ≤ max_bytes }
    requires nothing { out.old ≡ [] }
    ensures core { IsCore D.Counts core.new }
    ensures same { ReadsOn D.Counts core.old core.new }
    ensures answer { AnswersStep D.Counts core.old (Read path.now from len) out.new result }
    ensures plain { IfReplied result IsPlainReply }
    ensures out { brings_bytes result ≡ false → out.new ≡ [] }
    ensures ends { EndsLook D.Counts core.old.device core.new.device result }
{
    device_stands(&core.device);
    match find_spot(core, path) {
        Spot::File(ino, rec) => read_bytes(core, ino, &rec, from, len, out, page),
        Spot::Dir(..) => Looked::Replied(Reply::No(Refusal::Eisdir)),
        Spot::No(refusal) => Looked::Replied(Reply::No(refusal)),
        Spot::Lost { wanted, found } => Looked::Lost { wanted, found },
        Spot::Fault => Looked::Fault,
    }
}

/// How many bytes a file has from an offset on, at most so many.
fn bytes_there(size: u64, from: u64, len: u32) -> u32
    ensures { result ≡ min len (size - from) }
{
    if size <= from {
        return 0;
    }
    (size - from).min(len as u64) as u32
}

/// Reads what a file has from an offset on, at most so many bytes.
fn read_bytes<D: MovingPages>(
    core: &mut Core<D>,
    ino: u32,
    rec: &InodeRec,
    from: u64,
    len: u32,
    out: &mut ReplyBuf,
    page: &mut PageBuf,
) -> Looked
    requires core { IsCore D.Counts core.old }
    requires file { IsFileOf D.Counts core.old.device core.old.meta ino rec.now }
    requires few { len ≤ max_bytes }
    requires nothing { out.old ≡ [] }
    ensures core { IsCore D.Counts core.new }
    ensures same { ReadsOn D.Counts core.old core.new }
    ensures content { IfContent result (length out.new ≡ min len (rec.now.size - from)) }
    ensures bytes { D.tells
        → IfContent result (AreBytesFrom (file_page D.Counts core.old.device (running_of D.Counts core.old) rec.now) from out.new) }
    ensures out { brings_bytes result ≡ false → out.new ≡ [] }
    ensures ends { EndsLook D.Counts core.old.device core.new.device result }
{
    let count = bytes_there(rec.size, from, len);
    match read_pieces(core, ino, rec, from, count, out, page) {
        FileAnswer::Done => Looked::Replied(Reply::Content),
        FileAnswer::Lost { wanted, found } => {
            out.clear();
            Looked::Lost { wanted, found }
        }
        FileAnswer::Fault => {
            out.clear();
            Looked::Fault
        }
    }
}

/// Reads so many bytes of a file from an offset on, page by page. After `Fault` and `Lost` the buffer has some of them.
fn read_pieces<D: MovingPages>(
    core: &mut Core<D>,
    ino: u32,
    rec: &InodeRec,
    from: u64,
    count: u32,
    out: &mut ReplyBuf,
    page: &mut PageBuf,
) -> FileAnswer
    requires core { IsCore D.Counts core.old }
    requires file { IsFileOf D.Counts core.old.device core.old.meta ino rec.now }
    requires within { 0 < count → from + count ≤ rec.now.size }
    requires few { count ≤ max_bytes }
    requires nothing { out.old ≡ [] }
    ensures core { IsCore D.Counts core.new }
    ensures same { ReadsOn D.Counts core.old core.new }
    ensures len { result ≡ FileAnswer.Done → length out.new ≡ count }
    ensures bytes { D.tells → result ≡ FileAnswer.Done
        → AreBytesFrom (file_page D.Counts core.old.device (running_of D.Counts core.old) rec.now) from out.new }
    ensures faults { ReadsCounted D.Counts (result ≡ FileAnswer.Fault) core.old.device core.new.device }
    ensures lost { LosesFile (λ w. ⊤) result }
    ensures told { D.tells → IsLostFile result → ⊥ }
{
    device_stands(&core.device);
    let mut done = 0;
    while done < count {
        let at = from + done as u64;
        let more = piece_length(at, count - done);
        match read_piece(core, ino, rec, at, more, out, page) {
            FileAnswer::Done => done += more,
            other => return other,
        }
    }
    FileAnswer::Done
}

/// How many of so many bytes lie in the page of the first.
fn piece_length(at: u64, left: u32) -> u32
    requires some { 0 < left }
    ensures some { 0 < result }
    ensures most { result ≤ left }
    ensures page { result ≤ 4096 }
{
    (PAGE - at % PAGE).min(left as u64) as u32
}

/// Adds so many bytes of a file, at most those of a page, behind those of the buffer. After `Fault` and `Lost` that has what it had.
fn read_piece<D: MovingPages>(
    core: &mut Core<D>,
    ino: u32,
    rec: &InodeRec,
    at: u64,
    count: u32,
    out: &mut ReplyBuf,
    page: &mut PageBuf,
) -> FileAnswer
    requires core { IsCore D.Counts core.old }
    requires file { IsFileOf D.Counts core.old.device core.old.meta ino rec.now }
    requires within { at + count ≤ rec.now.size }
    requires few { count ≤ 4096 }
    requires room { length out.old + count ≤ max_bytes }
    ensures core { IsCore D.Counts core.new }
    ensures same { ReadsOn D.Counts core.old core.new }
    ensures len { result ≡ FileAnswer.Done → length out.new ≡ length out.old + count }
    ensures bytes { D.tells → result ≡ FileAnswer.Done
        → AddsBytes (file_page D.Counts core.old.device (running_of D.Counts core.old) rec.now) at out.old out.new }
    ensures faults { ReadsCounted D.Counts (result ≡ FileAnswer.Fault) core.old.device core.new.device }
    ensures lost { LosesFile (λ w. ⊤) result }
    ensures told { D.tells → IsLostFile result → ⊥ }
{
    let mut piece = [0u8; 4096];
    read_into(core, ino, rec, at, &mut piece[..count as usize], out, page)
}

/// Reads bytes of a file into work space, and adds them to the buffer.
fn read_into<D: MovingPages>(
    core: &mut Core<D>,
    ino: u32,
    rec: &InodeRec,
    at: u64,
    piece: &mut [u8],
    out: &mut ReplyBuf,
    page: &mut PageBuf,
) -> FileAnswer
    requires core { IsCore D.Counts core.old }
    requires file { IsFileOf D.Counts core.old.device core.old.meta ino rec.now }
    requires within { at + length piece.old ≤ rec.now.size }
    requires room { length out.old + length piece.old ≤ max_bytes }
    ensures core { IsCore D.Counts core.new }
    ensures same { ReadsOn D.Counts core.old core.new }
    ensures len { result ≡ FileAnswer.Done → length out.new ≡ length out.old + length piece.old }
    ensures bytes { D.tells → result ≡ FileAnswer.Done
        → AddsBytes (file_page D.Counts core.old.device (running_of D.Counts core.old) rec.now) at out.old out.new }
    ensures faults { ReadsCounted D.Counts (result ≡ FileAnswer.Fault) core.old.device core.new.device }
    ensures lost { LosesFile (λ w. ⊤) result }
    ensures told { D.tells → IsLostFile result → ⊥ }
{
    match read_file(core, ino, rec, at, piece, page) {
        FileAnswer::Done => {
            out.extend(piece);
            FileAnswer::Done
        }
        other => other,
    }
}
