// The counts of a volume: the lines of `format`, `report` and `soak`.
ghost use Rattle.std.specs.Prelude.{◌≡◌, ◌≤◌, ◌+◌, ◌++◌, ◌∷◌, [], length};
ghost use Rattle.nl_field.specs.CrashStates.{Rose};
ghost use Rattle.nl_io.specs.Streams.{WritesStream};
ghost use Rattle.nl_print.specs.Texts.{formatted_text, number_text, blocks_text, pages_text, wear_text, report_text, calls_text, bytes_text, charges_text, soak_text};

use crate::line::LineBuf;
use nl_field::Shape;
use nl_io::{Sink, SinkAnswer};

/// Prints the numbers of a fresh volume.
pub fn formatted_line<K: Sink>(sink: &mut K, shape: &Shape) -> SinkAnswer
    ensures text { WritesStream (K.taken sink.old) (K.taken sink.new) result (formatted_text shape.now) }
    ensures never_falls { K.faults sink.old ≤ K.faults sink.new }
    ensures cause { result ≡ SinkAnswer.Failed → Rose (K.faults sink.old) (K.faults sink.new) }
{
    let mut line = LineBuf::new();
    line.push_field(b"formatted blocks", u64::from(shape.blocks));
    line.push_field(b" pages", u64::from(shape.pages));
    line.push_field(b" data", u64::from(shape.cap));
    line.push_field(b" nodes", u64::from(shape.nodes));
    line.push_field(b" meta", u64::from(shape.meta));
    line.push(b"\n");
    sink.write(line.bytes())
}

// A line of a word and a number.
fn push_number_line(line: &mut LineBuf, word: &[u8], number: u64)
    requires { length line.old + length word.now + 22 ≤ 4096 }
    ensures text { line.new ≡ line.old ++ number_text word.now number }
    ensures len { length line.new ≤ length line.old + length word.now + 22 }
{
    line.push_field(word, number);
    line.push(b"\n");
}

fn push_blocks(line: &mut LineBuf, vblocks: u32, pblocks: u32)
    requires { length line.old + 66 ≤ 4096 }
    ensures text { line.new ≡ line.old ++ blocks_text vblocks pblocks }
    ensures len { length line.new ≤ length line.old + 66 }
{
    line.push_field(b"blocks virtual", u64::from(vblocks));
    line.push_field(b" physical", u64::from(pblocks));
    line.push(b"\n");
}

fn push_pages(line: &mut LineBuf, shape: &Shape, data: u64, nodes: u32, meta: u32)
    requires { length line.old + 157 ≤ 4096 }
    ensures text { line.new ≡ line.old ++ pages_text shape.now «data» nodes meta }
    ensures len { length line.new ≤ length line.old + 157 }
{
    line.push_share(b"pages data", data, u64::from(shape.cap));
    line.push_share(b" nodes", u64::from(nodes), u64::from(shape.nodes));
    line.push_share(b" meta", u64::from(meta), u64::from(shape.meta));
    line.push(b"\n");
}

fn push_wear(line: &mut LineBuf, least: u32, greatest: u32)
    requires { length line.old + 62 ≤ 4096 }
    ensures text { line.new ≡ line.old ++ wear_text least greatest }
    ensures len { length line.new ≤ length line.old + 62 }
{
    line.push_field(b"wear least", u64::from(least));
    line.push_field(b" greatest", u64::from(greatest));
    line.push(b"\n");
}

/// Prints the six lines of `report`: the count of calls, the segments in blocks, the charges of the tree, the pairs right
/// after opening, the least and greatest wear of readable pages, and the next stamp.
pub fn report_lines<K: Sink>(
    sink: &mut K,
    shape: &Shape,
    count: u64,
    data: u64,
    nodes: u32,
    meta: u32,
    pairs: u32,
    least: u32,
    greatest: u32,
    stamp: u64,
) -> SinkAnswer
    ensures text { WritesStream (K.taken sink.old) (K.taken sink.new) result
        (report_text shape.now count «data» nodes meta pairs least greatest stamp) }
    ensures never_falls { K.faults sink.old ≤ K.faults sink.new }
    ensures cause { result ≡ SinkAnswer.Failed → Rose (K.faults sink.old) (K.faults sink.new) }
{
    let mut text = LineBuf::new();
    push_number_line(&mut text, b"opened", count);
    push_blocks(&mut text, shape.vblocks, shape.pblocks);
    push_pages(&mut text, shape, data, nodes, meta);
    push_number_line(&mut text, b"remap", u64::from(pairs));
    push_wear(&mut text, least, greatest);
    push_number_line(&mut text, b"stamp", stamp);
    sink.write(text.bytes())
}

fn push_calls(line: &mut LineBuf, calls: u64, ok: u64)
    requires fits { length line.old + 85 ≤ 4096 }
    requires ok { ok ≤ calls }
    ensures text { line.new ≡ line.old ++ calls_text calls ok }
    ensures len { length line.new ≤ length line.old + 85 }
{
    line.push_field(b"soak calls", calls);
    line.push_field(b" ok", ok);
    line.push_field(b" refused", calls - ok);
    line.push(b"\n");
}

fn push_bytes(line: &mut LineBuf, written: u64, read: u64)
    requires { length line.old + 61 ≤ 4096 }
    ensures text { line.new ≡ line.old ++ bytes_text written read }
    ensures len { length line.new ≤ length line.old + 61 }
{
    line.push_field(b"bytes written", written);
    line.push_field(b" read", read);
    line.push(b"\n");
}

fn push_charges(line: &mut LineBuf, data: u64, nodes: u32, meta: u32)
    requires { length line.old + 79 ≤ 4096 }
    ensures text { line.new ≡ line.old ++ charges_text «data» nodes meta }
    ensures len { length line.new ≤ length line.old + 79 }
{
    line.push_field(b"data", data);
    line.push_field(b" nodes", u64::from(nodes));
    line.push_field(b" meta", u64::from(meta));
    line.push(b"\n");
}

/// Prints the three lines of `soak`: the replies and how many of them were ok, the bytes written and read, and the charges
/// of the final tree.
pub fn soak_lines<K: Sink>(
    sink: &mut K,
    calls: u64,
    ok: u64,
    written: u64,
    read: u64,
    data: u64,
    nodes: u32,
    meta: u32,
) -> SinkAnswer
    requires { ok ≤ calls }
    ensures text { WritesStream (K.taken sink.old) (K.taken sink.new) result (soak_text calls ok written read «data» nodes meta) }
    ensures never_falls { K.faults sink.old ≤ K.faults sink.new }
    ensures cause { result ≡ SinkAnswer.Failed → Rose (K.faults sink.old) (K.faults sink.new) }
{
    let mut text = LineBuf::new();
    push_calls(&mut text, calls, ok);
    push_bytes(&mut text, written, read);
    push_charges(&mut text, data, nodes, meta);
    sink.write(text.bytes())
}
