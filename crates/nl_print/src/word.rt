// A line of one word, and a line of a word and a number.
ghost use Rattle.std.specs.Prelude.{◌≡◌, ◌≤◌, ◌++◌, ◌∷◌, []};
ghost use Rattle.nl_field.specs.CrashStates.{Rose};
ghost use Rattle.nl_io.specs.Streams.{WritesStream};
ghost use Rattle.nl_print.specs.Texts.{then_number};

use crate::line::LineBuf;
use nl_io::{Sink, SinkAnswer};

/// The most bytes of a word that is written with its line.
const MOST: usize = 4000;

/// Prints the word and a line feed.
pub fn word_line<K: Sink>(sink: &mut K, word: &[u8]) -> SinkAnswer
    ensures text { WritesStream (K.taken sink.old) (K.taken sink.new) result (word.now ++ 10 ∷ []) }
    ensures never_falls { K.faults sink.old ≤ K.faults sink.new }
    ensures cause { result ≡ SinkAnswer.Failed → Rose (K.faults sink.old) (K.faults sink.new) }
{
    if word.len() <= MOST {
        let mut line = LineBuf::new();
        line.push(word);
        line.push(b"\n");
        return sink.write(line.bytes());
    }
    match sink.write(word) {
        SinkAnswer::Took => sink.write(b"\n"),
        SinkAnswer::Failed => SinkAnswer::Failed,
    }
}

/// Prints the word, a space, the number and a line feed.
pub fn number_line<K: Sink>(sink: &mut K, word: &[u8], value: u64) -> SinkAnswer
    ensures text { WritesStream (K.taken sink.old) (K.taken sink.new) result (word.now ++ then_number value ++ 10 ∷ []) }
    ensures never_falls { K.faults sink.old ≤ K.faults sink.new }
    ensures cause { result ≡ SinkAnswer.Failed → Rose (K.faults sink.old) (K.faults sink.new) }
{
    if word.len() <= MOST {
        let mut line = LineBuf::new();
        line.push_field(word, value);
        line.push(b"\n");
        return sink.write(line.bytes());
    }
    match sink.write(word) {
        SinkAnswer::Took => {
            let mut rest = LineBuf::new();
            rest.then_number(value);
            rest.push(b"\n");
            sink.write(rest.bytes())
        }
        SinkAnswer::Failed => SinkAnswer::Failed,
    }
}
