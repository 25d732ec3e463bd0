// Texts of one or more lines that end a command with a status of its own.
ghost use Rattle.std.specs.Prelude.{◌≡◌, ◌≤◌, length};
ghost use Rattle.nl_field.specs.CrashStates.{Rose};
ghost use Rattle.nl_io.specs.Streams.{WritesStream};
ghost use Rattle.nl_print.specs.Texts.{refused_text, what_text, damaged_text};

use crate::line::LineBuf;
use crate::word::word_line;
use nl_field::{Place, What};
use nl_io::{Sink, SinkAnswer};

/// Prints `script LINE COLUMN WHY`.
pub fn refused_line<K: Sink>(sink: &mut K, line: u32, column: u32, why: &[u8]) -> SinkAnswer
    ensures text { WritesStream (K.taken sink.old) (K.taken sink.new) result (refused_text line column why.now) }
    ensures never_falls { K.faults sink.old ≤ K.faults sink.new }
    ensures cause { result ≡ SinkAnswer.Failed → Rose (K.faults sink.old) (K.faults sink.new) }
{
    let mut front = LineBuf::new();
    front.push(b"script");
    front.then_number(u64::from(line));
    front.then_number(u64::from(column));
    front.push(b" ");
    if why.len() <= 4000 {
        front.push(why);
        front.push(b"\n");
        return sink.write(front.bytes());
    }
    match sink.write(front.bytes()) {
        SinkAnswer::Took => {}
        SinkAnswer::Failed => return SinkAnswer::Failed,
    }
    word_line(sink, why)
}

/// The word for what is at fault, of at most 7 bytes.
pub(crate) fn what_bytes(what: What) -> &'static [u8]
    ensures text { result.now ≡ what_text what }
    ensures short { length result.now ≤ 7 }
{
    match what {
        What::Super => b"super",
        What::Stamp => b"stamp",
        What::Inode => b"inode",
        What::Pages => b"pages",
        What::Entry => b"entry",
        What::Pointer => b"pointer",
        What::Names => b"names",
        What::Charges => b"charges",
        What::Crowded => b"crowded",
    }
}

/// Prints `damaged PLACE WHAT`.
pub fn damaged_line<K: Sink>(sink: &mut K, at: &Place) -> SinkAnswer
    ensures text { WritesStream (K.taken sink.old) (K.taken sink.new) result (damaged_text at.now) }
    ensures never_falls { K.faults sink.old ≤ K.faults sink.new }
    ensures cause { result ≡ SinkAnswer.Failed → Rose (K.faults sink.old) (K.faults sink.new) }
{
    let mut line = LineBuf::new();
    line.push(b"damaged");
    line.then_number(at.place);
    line.push(b" ");
    line.push(what_bytes(at.what));
    line.push(b"\n");
    sink.write(line.bytes())
}
