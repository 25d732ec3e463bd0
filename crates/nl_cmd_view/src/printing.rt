// Prints the bytes of a file of the tree as which a core runs.
ghost use Rattle.std.specs.Prelude.{◌≡◌, ◌≤◌, ◌==◌, length, Some};
ghost use Rattle.nl_calls_steps.specs.Steps.{ReadsOn};
ghost use Rattle.nl_cmd_view.specs.Pieces.{IfPieceRefused, IfRefused, IsTaken, PrintsFile, PrintsPiece, ReadsFor, ReadsPiece, ReadsUntil};
ghost use Rattle.nl_cmd_view.specs.Pieces.{ends_at, piece_taken, read_from, read_path};
ghost use Rattle.nl_core.specs.Core.{IsCore};
ghost use Rattle.nl_field.specs.CrashStates.{Rose};
ghost use Rattle.nl_io.specs.Streams.{WritesStream};
ghost use Rattle.nl_tree.specs.Calls.{IsBounded};

use nl_calls_read::{Looked, look_call};
use nl_core::Core;
use nl_field::PageBuf;
use nl_iface::MovingPages;
use nl_io::{Sink, SinkAnswer};
use nl_spec_commits::laws::device_stands;
use nl_tree::{Call, Refusal, Reply, ReplyBuf};

/// The bytes of a piece: as many as a call may read.
pub(crate) const PIECE: u32 = 65_536;

/// The same, to count with.
const LENGTH: u64 = 65_536;

/// The most pieces of a file. The last of them is no full one.
const MOST_PIECES: u64 = 257;

/// How the printing of a file ended.
#[derive(Clone, Copy, Debug, PartialEq, Eq)]
pub(crate) enum Got {
    /// The sink has taken all.
    All,
    /// The sink failed.
    NotTaken,
    /// The tree refuses to read there; nothing was printed.
    Refused(Refusal),
    /// A read failed.
    Fault,
    /// A page does not hold the sequence number under which it was written.
    Lost,
}

/// Prints the bytes of a file, piece by piece, by a call that reads a piece of it. After a failure of the sink or of a read no more is
/// printed. `out` and `page` are work space.
pub(crate) fn print_file<K: Sink, D: MovingPages>(
    sink: &mut K,
    core: &mut Core<D>,
    call: &mut Call,
    out: &mut ReplyBuf,
    page: &mut PageBuf,
) -> Got
    requires core { IsCore D.Counts core.old }
    requires call { ReadsPiece call.old }
    requires bounded { IsBounded call.old }
    ensures core { IsCore D.Counts core.new }
    ensures same { ReadsOn D.Counts core.old core.new }
    ensures prints { PrintsFile D.Counts core.old (read_path call.old) (K.taken sink.old) (K.taken sink.new) result }
    ensures reads { ReadsFor D.Counts core.old.device core.new.device result }
    ensures refused { IfRefused result (sink.new ≡ sink.old) }
    ensures never_falls { K.faults sink.old ≤ K.faults sink.new }
    ensures cause { result ≡ Got.NotTaken → Rose (K.faults sink.old) (K.faults sink.new) }
{
    device_stands(&core.device);
    'pieces: for piece in 0..MOST_PIECES {
        set_offset(call, piece * LENGTH);
        match print_piece(sink, core, call, out, page) {
            None => {}
            Some(got) => return got,
        }
    }
    Got::All
}

// Has a call read from an offset on.
fn set_offset(call: &mut Call, at: u64)
    requires call { ReadsPiece call.old }
    requires bounded { IsBounded call.old }
    ensures call { ReadsPiece call.new }
    ensures bounded { IsBounded call.new }
    ensures path { read_path call.new ≡ read_path call.old }
    ensures from { read_from call.new ≡ at }
{
    match call {
        Call::Read(_, from, _) => *from = at,
        _ => unreachable!(),
    }
}

// Prints the piece that a call reads. None where more may follow.
fn print_piece<K: Sink, D: MovingPages>(
    sink: &mut K,
    core: &mut Core<D>,
    call: &Call,
    out: &mut ReplyBuf,
    page: &mut PageBuf,
) -> Option<Got>
    requires core { IsCore D.Counts core.old }
    requires call { ReadsPiece call.now }
    requires bounded { IsBounded call.now }
    ensures core { IsCore D.Counts core.new }
    ensures same { ReadsOn D.Counts core.old core.new }
    ensures prints { PrintsPiece D.Counts core.old (read_path call.now) (read_from call.now) (K.taken sink.old) (K.taken sink.new) result }
    ensures reads { ReadsUntil D.Counts core.old.device core.new.device result }
    ensures refused { IfPieceRefused result ((read_from call.now ≡ 0) × (sink.new ≡ sink.old)) }
    ensures never_falls { K.faults sink.old ≤ K.faults sink.new }
    ensures cause { result ≡ Some Got.NotTaken → Rose (K.faults sink.old) (K.faults sink.new) }
{
    out.clear();
    let answer = look_call(core, call, out, page);
    match ends_at(answer, is_first(call)) {
        None => print_bytes(sink, out),
        Some(got) => Some(got),
    }
}

// What ends the printing at an answer, of the first piece or of a later one. None where there are bytes to be printed.
fn ends_at(answer: Looked, first: bool) -> Option<Got>
    ensures { result ≡ ends_at answer first }
{
    match answer {
        Looked::Replied(Reply::Content) => None,
        Looked::Replied(Reply::No(refusal)) => {
            if first {
                Some(Got::Refused(refusal))
            } else {
                Some(Got::Lost)
            }
        }
        Looked::Replied(_) => Some(Got::Lost),
        Looked::Lost { .. } => Some(Got::Lost),
        Looked::Fault => Some(Got::Fault),
    }
}

// Whether a call reads from the begin of a file on.
fn is_first(call: &Call) -> bool
    requires { ReadsPiece call.now }
    ensures { result ≡ (read_from call.now == 0) }
{
    match call {
        Call::Read(_, from, _) => *from == 0,
        _ => unreachable!(),
    }
}

// Prints the bytes of a piece. None where it is a full one, and was taken.
fn print_bytes<K: Sink>(sink: &mut K, out: &ReplyBuf) -> Option<Got>
    ensures text { WritesStream (K.taken sink.old) (K.taken sink.new) (piece_taken result) out.now }
    ensures piece { IsTaken result (length out.now) }
    ensures never_falls { K.faults sink.old ≤ K.faults sink.new }
    ensures cause { result ≡ Some Got.NotTaken → Rose (K.faults sink.old) (K.faults sink.new) }
{
    match sink.write(out.bytes()) {
        SinkAnswer::Took if out.len() < PIECE => Some(Got::All),
        SinkAnswer::Took => None,
        SinkAnswer::Failed => Some(Got::NotTaken),
    }
}
