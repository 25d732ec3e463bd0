// The words of a command line, answered on an image file.
ghost use Rattle.std.specs.Prelude.{◌≡◌, Ok, None, IfOk, IfErr, OnErr};
ghost use Rattle.nl_app_file.specs.Ended.{EndsOnFile};
ghost use Rattle.nl_cmd_words.specs.Command.{command_of};
ghost use Rattle.nl_spec_headline.specs.Streams.{stream};

use crate::on_store::{Ending, OnStore, answer_on, makes_a_file, tell_faulty};
use nl_app_process::{Notice, open};
use nl_imgfile::{Attach, file_store};
use nl_io::{Sink, Source, Words};
use nl_top::command_of;
use std::fs::File;
use std::rt::Files;
use std::sync::Wait;
use std::thread::Threads;

/// Answers the words of a command line on the image file at a path, as `answer_on` does on the store of its bytes, which does not tell
/// them. Faulty words are told as such, and leave the file alone, whether it is there or not. Where the file cannot be opened, locked or
/// attached, nothing is read or printed.
pub fn answer<Rt: Files<File = File> + AllocGlobal + Threads + Wait + Sync, S: Source, K: Sink>(
    rt: &Rt,
    path: &str,
    words: &Words,
    src: &mut S,
    sink: &mut K,
) -> Result<Ending, Notice>
    ensures faulty { command_of words.now ≡ None → result ≡ Ok (record { status = 2; refused = None }) }
    ensures ended { IfOk result (λ e. EndsOnFile words.now (stream (S.left src.old) (S.faults src.old))
        (stream (S.left src.new) (S.faults src.new)) (stream (K.taken sink.old) (K.faults sink.old))
        (stream (K.taken sink.new) (K.faults sink.new)) e.refused e.status) }
    ensures untouched { OnErr result ((src.new ≡ src.old) × (sink.new ≡ sink.old)) }
    ensures of_the_file { IfErr result (λ notice. notice ≡ Notice.Words → ⊥) }
{
    let alloc = rt.alloc();
    let command = match command_of(words) {
        Some(command) => command,
        None => {
            return Ok(Ending {
                status: tell_faulty(rt, alloc, words, src, sink),
                refused: None,
            });
        }
    };
    let Ok(file) = open(rt, path, makes_a_file(command)) else {
        return Err(Notice::MediumFault);
    };
    let store = match file_store(file) {
        Ok(store) => store,
        Err(Attach::InUse(_)) => return Err(Notice::MediumInUse),
        Err(_) => return Err(Notice::MediumFault),
    };
    let OnStore { ending, store: _ } = answer_on(rt, alloc, words, src, sink, store);
    ending
}
