// Lines of `tree`: a directory with the count of its entries, and a file with its size and pages.
ghost use Rattle.std.specs.Prelude.{◌≡◌, ◌≤◌, ◌++◌, ◌∷◌, length, IsTrue};
ghost use Rattle.nl_field.specs.CrashStates.{Rose};
ghost use Rattle.nl_io.specs.Streams.{WritesStream};
ghost use Rattle.nl_print.specs.Texts.{path_text, dir_text, file_text};

use crate::line::LineBuf;
use nl_io::{Sink, SinkAnswer};
use nl_tree::Names;

fn write_name<K: Sink>(sink: &mut K, name: &[u8]) -> SinkAnswer
    ensures text { WritesStream (K.taken sink.old) (K.taken sink.new) result (47 ∷ name.now) }
    ensures never_falls { K.faults sink.old ≤ K.faults sink.new }
    ensures cause { result ≡ SinkAnswer.Failed → Rose (K.faults sink.old) (K.faults sink.new) }
{
    match sink.write(b"/") {
        SinkAnswer::Took => sink.write(name),
        SinkAnswer::Failed => SinkAnswer::Failed,
    }
}

fn write_path<K: Sink, P: Names>(sink: &mut K, path: &P) -> SinkAnswer
    ensures text { WritesStream (K.taken sink.old) (K.taken sink.new) result (path_text (P.names path.now)) }
    ensures never_falls { K.faults sink.old ≤ K.faults sink.new }
    ensures cause { result ≡ SinkAnswer.Failed → Rose (K.faults sink.old) (K.faults sink.new) }
{
    let count = path.count();
    if count == 0 {
        return sink.write(b"/");
    }
    'names: for at in 0..count {
        match write_name(sink, path.name_at(at)) {
            SinkAnswer::Took => {}
            SinkAnswer::Failed => return SinkAnswer::Failed,
        }
    }
    SinkAnswer::Took
}

// Adds a slash and a name, where there is room for both.
fn push_name(line: &mut LineBuf, name: &[u8]) -> bool
    requires { length line.old ≤ 4050 }
    ensures text { IsTrue result → line.new ≡ line.old ++ 47 ∷ name.now }
    ensures len { length line.new ≤ 4050 }
{
    if name.len() >= 4050 - line.len() {
        return false;
    }
    line.push(b"/");
    line.push(name);
    true
}

// Adds a path, where there is room for it.
fn push_path<P: Names>(line: &mut LineBuf, path: &P) -> bool
    requires { length line.old ≤ 2 }
    ensures text { IsTrue result → line.new ≡ line.old ++ path_text (P.names path.now) }
    ensures len { length line.new ≤ 4050 }
{
    let count = path.count();
    if count == 0 {
        line.push(b"/");
        return true;
    }
    'names: for at in 0..count {
        if !push_name(line, path.name_at(at)) {
            return false;
        }
    }
    true
}

// Writes two bytes, the path and the rest of its line: at once, unless the path is long.
fn write_path_line<K: Sink, P: Names>(
    sink: &mut K,
    mark: &[u8],
    path: &P,
    rest: &[u8],
) -> SinkAnswer
    requires short { (length mark.now ≤ 2) × (length rest.now ≤ 46) }
    ensures text { WritesStream (K.taken sink.old) (K.taken sink.new) result (mark.now ++ path_text (P.names path.now) ++ rest.now) }
    ensures never_falls { K.faults sink.old ≤ K.faults sink.new }
    ensures cause { result ≡ SinkAnswer.Failed → Rose (K.faults sink.old) (K.faults sink.new) }
{
    let mut line = LineBuf::new();
    line.push(mark);
    if push_path(&mut line, path) {
        line.push(rest);
        return sink.write(line.bytes());
    }
    match sink.write(mark) {
        SinkAnswer::Took => {}
        SinkAnswer::Failed => return SinkAnswer::Failed,
    }
    match write_path(sink, path) {
        SinkAnswer::Took => sink.write(rest),
        SinkAnswer::Failed => SinkAnswer::Failed,
    }
}

/// Prints `d PATH ENTRIES`.
pub fn dir_line<K: Sink, P: Names>(sink: &mut K, path: &P, entries: u32) -> SinkAnswer
    ensures text { WritesStream (K.taken sink.old) (K.taken sink.new) result (dir_text (P.names path.now) entries) }
    ensures never_falls { K.faults sink.old ≤ K.faults sink.new }
    ensures cause { result ≡ SinkAnswer.Failed → Rose (K.faults sink.old) (K.faults sink.new) }
{
    let mut rest = LineBuf::new();
    rest.then_number(u64::from(entries));
    rest.push(b"\n");
    write_path_line(sink, b"d ", path, rest.bytes())
}

/// Prints `f PATH SIZE PAGES`: the bytes of the file, and the count of its pages that hold bytes.
pub fn file_line<K: Sink, P: Names>(sink: &mut K, path: &P, size: u64, pages: u32) -> SinkAnswer
    ensures text { WritesStream (K.taken sink.old) (K.taken sink.new) result (file_text (P.names path.now) size pages) }
    ensures never_falls { K.faults sink.old ≤ K.faults sink.new }
    ensures cause { result ≡ SinkAnswer.Failed → Rose (K.faults sink.old) (K.faults sink.new) }
{
    let mut rest = LineBuf::new();
    rest.then_number(size);
    rest.then_number(u64::from(pages));
    rest.push(b"\n");
    write_path_line(sink, b"f ", path, rest.bytes())
}
