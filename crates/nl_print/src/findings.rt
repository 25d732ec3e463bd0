// The findings of a check.
ghost use Rattle.std.specs.Prelude.{◌≡◌, ◌≤◌, ◌+◌, ◌++◌, length};
ghost use Rattle.nl_field.specs.CrashStates.{Rose};
ghost use Rattle.nl_io.specs.Streams.{WritesStream};
ghost use Rattle.nl_print.specs.Texts.{finding_text, findings_text};

use crate::line::LineBuf;
use crate::status::what_bytes;
use nl_field::{Findings, What};
use nl_io::{Sink, SinkAnswer};

// Adds the line of a phase, where it was found at fault.
fn push_finding(text: &mut LineBuf, bits: Findings, what: What)
    requires { length text.old + 8 ≤ 4096 }
    ensures text { text.new ≡ text.old ++ finding_text bits what }
    ensures len { length text.new ≤ length text.old + 8 }
{
    if bits.has(what) {
        text.push(what_bytes(what));
        text.push(b"\n");
    }
}

/// Prints the names of the findings, one per line, in the order of the phases of a walk.
pub fn findings_lines<K: Sink>(sink: &mut K, bits: Findings) -> SinkAnswer
    ensures text { WritesStream (K.taken sink.old) (K.taken sink.new) result (findings_text bits) }
    ensures never_falls { K.faults sink.old ≤ K.faults sink.new }
    ensures cause { result ≡ SinkAnswer.Failed → Rose (K.faults sink.old) (K.faults sink.new) }
{
    let mut text = LineBuf::new();
    push_finding(&mut text, bits, What::Super);
    push_finding(&mut text, bits, What::Stamp);
    push_finding(&mut text, bits, What::Inode);
    push_finding(&mut text, bits, What::Pages);
    push_finding(&mut text, bits, What::Entry);
    push_finding(&mut text, bits, What::Pointer);
    push_finding(&mut text, bits, What::Names);
    push_finding(&mut text, bits, What::Charges);
    push_finding(&mut text, bits, What::Crowded);
    sink.write(text.bytes())
}
