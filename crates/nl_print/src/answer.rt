// A line of `run`: the number of a script's line, the place of its call in the order of all calls, and its answer.
ghost use Rattle.std.specs.Prelude.{◌≡◌, ◌≤◌, ◌+◌, ◌*◌, ◌++◌, ◌∷◌, [], false, IsTrue, length, codes};
ghost use Rattle.hex.specs.Hex.{encode_lower};
ghost use Rattle.nl_field.specs.CrashStates.{Rose};
ghost use Rattle.nl_io.specs.Streams.{WritesStream};
ghost use Rattle.nl_print.specs.Texts.{answer_line, refusal_text, fault_text, reply_text};

use crate::line::LineBuf;
use nl_io::{Sink, SinkAnswer};
use nl_tree::{FaultReply, Refusal, Reply, Space};

fn refusal_bytes(refusal: Refusal) -> &'static [u8]
    ensures text { result.now ≡ refusal_text refusal }
    ensures short { length result.now ≤ 12 }
{
    match refusal {
        Refusal::Enoent => b"ENOENT",
        Refusal::Eexist => b"EEXIST",
        Refusal::Enotdir => b"ENOTDIR",
        Refusal::Eisdir => b"EISDIR",
        Refusal::Enotempty => b"ENOTEMPTY",
        Refusal::Einval => b"EINVAL",
        Refusal::Enametoolong => b"ENAMETOOLONG",
        Refusal::Efbig => b"EFBIG",
        Refusal::Enospc(Space::Dir) => b"ENOSPC dir",
        Refusal::Enospc(Space::Nodes) => b"ENOSPC nodes",
        Refusal::Enospc(Space::Meta) => b"ENOSPC meta",
        Refusal::Enospc(Space::Pages) => b"ENOSPC data",
    }
}

fn push_fault(line: &mut LineBuf, fault: FaultReply)
    requires { length line.old + 50 ≤ 4096 }
    ensures bytes { line.new ≡ line.old ++ fault_text fault }
    ensures len { length line.new ≤ length line.old + 50 }
{
    match fault {
        FaultReply::Eio(sum) => {
            line.push(b"EIO");
            line.then_number(sum);
        }
        FaultReply::Erofs(sum) => {
            line.push(b"EROFS");
            line.then_number(sum);
        }
        FaultReply::Eworn => line.push(b"EWORN"),
        FaultReply::Edamaged { wanted, found } => {
            line.push(b"EDAMAGED");
            line.then_number(wanted);
            line.then_number(found);
        }
    }
}

/// What an answer has besides what its reply says: nothing, bytes in hexadecimal, or bytes as they are.
#[derive(Clone, Copy, Debug, PartialEq, Eq)]
enum Tail {
    Nothing,
    Hex,
    Plain,
}

ghost use Rattle.nl_print.specs.Tail.{tail_text};

// Adds the front of an answer, and tells what follows it.
fn push_reply(line: &mut LineBuf, reply: &Reply, bytes: &[u8]) -> Tail
    requires { length line.old + 60 ≤ 4096 }
    ensures text { line.new ++ tail_text result bytes.now ≡ line.old ++ reply_text reply.now bytes.now }
    ensures len { length line.new ≤ length line.old + 60 }
{
    match *reply {
        Reply::Done => line.push(b"ok"),
        Reply::Count(count) => {
            line.push(b"ok");
            line.then_number(count);
        }
        Reply::Content => {
            if bytes.is_empty() {
                line.push(b"ok -");
            } else {
                line.push(b"ok ");
                return Tail::Hex;
            }
        }
        Reply::Names(count) => {
            line.push(b"ok");
            line.then_number(u64::from(count));
            return Tail::Plain;
        }
        Reply::File { size, pages } => {
            line.push(b"ok file");
            line.then_number(size);
            line.then_number(u64::from(pages));
        }
        Reply::Dir { entries } => {
            line.push(b"ok dir");
            line.then_number(u64::from(entries));
        }
        Reply::Synced { upto, moment: _ } => {
            line.push(b"ok");
            line.then_number(upto);
        }
        Reply::No(refusal) => line.push(refusal_bytes(refusal)),
        Reply::Fault(fault) => push_fault(line, fault),
    }
    Tail::Nothing
}

// Adds the bytes in lower case hexadecimal.
fn push_hex(line: &mut LineBuf, bytes: &[u8])
    requires few { length bytes.now ≤ 1024 }
    requires room { length line.old + 2048 ≤ 4096 }
    ensures text { line.new ≡ line.old ++ encode_lower bytes.now }
    ensures len { length line.new ≤ length line.old + 2048 }
{
    let mut digits = [0u8; 2048];
    let text = &mut digits[..2 * bytes.len()];
    match hex::encode_to_slice(bytes, text) {
        Ok(()) => {}
        Err(_) => unreachable!(),
    }
    line.push(text);
}

// Adds what follows the front of an answer, where it is short. Else the line stays.
fn push_tail(line: &mut LineBuf, tail: Tail, bytes: &[u8]) -> bool
    requires { length line.old + 3000 ≤ 4096 }
    ensures text { IsTrue result → line.new ≡ line.old ++ tail_text tail bytes.now }
    ensures len { IsTrue result → length line.new ≤ length line.old + 2999 }
    ensures long { result ≡ false → line.new ≡ line.old }
{
    match tail {
        Tail::Nothing => true,
        Tail::Hex if bytes.len() <= 1024 => {
            push_hex(line, bytes);
            true
        }
        Tail::Plain if bytes.len() <= 2048 => {
            line.push(bytes);
            true
        }
        _ => false,
    }
}

/// The most bytes of one piece of hexadecimal.
const PIECE: usize = 16384;

// Writes the bytes in lower case hexadecimal, in pieces.
fn write_hex<K: Sink>(sink: &mut K, bytes: &[u8]) -> SinkAnswer
    ensures text { WritesStream (K.taken sink.old) (K.taken sink.new) result (encode_lower bytes.now) }
    ensures never_falls { K.faults sink.old ≤ K.faults sink.new }
    ensures cause { result ≡ SinkAnswer.Failed → Rose (K.faults sink.old) (K.faults sink.new) }
{
    let mut digits = [0u8; 2 * PIECE];
    let mut rest = bytes;
    'pieces: while !rest.is_empty() {
        let count = rest.len().min(PIECE);
        let (piece, after) = rest.split_at(count);
        let text = &mut digits[..2 * count];
        match hex::encode_to_slice(piece, text) {
            Ok(()) => {}
            Err(_) => unreachable!(),
        }
        match sink.write(text) {
            SinkAnswer::Took => rest = after,
            SinkAnswer::Failed => return SinkAnswer::Failed,
        }
    }
    SinkAnswer::Took
}

fn write_tail<K: Sink>(sink: &mut K, tail: Tail, bytes: &[u8]) -> SinkAnswer
    ensures text { WritesStream (K.taken sink.old) (K.taken sink.new) result (tail_text tail bytes.now) }
    ensures never_falls { K.faults sink.old ≤ K.faults sink.new }
    ensures cause { result ≡ SinkAnswer.Failed → Rose (K.faults sink.old) (K.faults sink.new) }
{
    match tail {
        Tail::Nothing => SinkAnswer::Took,
        Tail::Hex => write_hex(sink, bytes),
        Tail::Plain => sink.write(bytes),
    }
}

/// Prints a line of `run`. The bytes are those that come with the reply `Content` or `Names`.
pub fn answer_line<K: Sink>(
    sink: &mut K,
    line: u32,
    place: u64,
    reply: &Reply,
    bytes: &[u8],
) -> SinkAnswer
    ensures text { WritesStream (K.taken sink.old) (K.taken sink.new) result (answer_line place (line, reply.now, bytes.now)) }
    ensures never_falls { K.faults sink.old ≤ K.faults sink.new }
    ensures cause { result ≡ SinkAnswer.Failed → Rose (K.faults sink.old) (K.faults sink.new) }
{
    let mut front = LineBuf::new();
    front.push_number(u64::from(line));
    front.push(b" @");
    front.push_number(place);
    front.push(b" ");
    let tail = push_reply(&mut front, reply, bytes);
    if push_tail(&mut front, tail, bytes) {
        front.push(b"\n");
        return sink.write(front.bytes());
    }
    match sink.write(front.bytes()) {
        SinkAnswer::Took => {}
        SinkAnswer::Failed => return SinkAnswer::Failed,
    }
    match write_tail(sink, tail, bytes) {
        SinkAnswer::Took => sink.write(b"\n"),
        SinkAnswer::Failed => SinkAnswer::Failed,
    }
}
