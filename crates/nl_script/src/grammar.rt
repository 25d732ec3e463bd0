// Reads one line: what it says, or why it is refused.
ghost use Rattle.std.specs.Prelude.{◌≡◌, ◌≤◌, ◌+◌, ◌∷◌, length, IfOk, position, slice_index, ◌==◌};
ghost use Rattle.nl_script.specs.declared.why.Why.TheVariants.{Missing};
ghost use Rattle.nl_script.specs.Grammar as says;
ghost use Rattle.nl_script.specs.Grammar.{others};
ghost use Rattle.nl_script.specs.Spellings as spells;
ghost use Rattle.nl_script.specs.Words.{words_from};

use crate::Why;
use crate::command::{Command, command_of};
use crate::fault::Fault;
use crate::said::Said;
use crate::spelling::{byte_of, data_of, length_of, number_of, path_of, worker_of};
use crate::words::{Word, Words};
use nl_field::{Memory, Text};
use nl_tree::{Call, Path};
use std::alloc::Global;

const MAX_LINE: usize = 140000;

fn at<T: Drop>(column: u32, spelled: Result<T, Why>) -> Result<T, Fault>
    ensures { result ≡ says.at_column column spelled }
{
    match spelled {
        Ok(value) => Ok(value),
        Err(why) => Err(Fault { column, why }),
    }
}

fn missing<T: Drop>(after: u32) -> Result<T, Fault>
    ensures { result ≡ says.refused after Missing }
{
    Err(Fault {
        column: after,
        why: Why::Missing,
    })
}

#[tactic(auto, unfolding(crate::specs::Grammar::read))]
fn read_command(words: &mut Words<'_>, after: u32) -> Result<Command, Fault>
    ensures value { result ≡ says.read after spells.command_of words.old }
    ensures words { words.new ≡ others words.old }
{
    match words.next() {
        None => missing(after),
        Some(word) => at(word.column(), command_of(word.bytes())),
    }
}

#[tactic(auto, unfolding(crate::specs::Grammar::read))]
fn read_path(
    alloc: Global,
    words: &mut Words<'_>,
    after: u32,
) -> Result<Result<Path, Fault>, Memory>
    ensures value { IfOk result (λ r. r ≡ says.read after spells.path_of words.old) }
    ensures words { words.new ≡ others words.old }
{
    match words.next() {
        None => Ok(missing(after)),
        Some(word) => Ok(at(word.column(), path_of(alloc, word.bytes())?)),
    }
}

#[tactic(auto, unfolding(crate::specs::Grammar::read))]
fn read_number(words: &mut Words<'_>, after: u32) -> Result<u64, Fault>
    ensures value { result ≡ says.read after spells.number_of words.old }
    ensures words { words.new ≡ others words.old }
{
    match words.next() {
        None => missing(after),
        Some(word) => at(word.column(), number_of(word.bytes())),
    }
}

#[tactic(auto, unfolding(crate::specs::Grammar::read))]
fn read_length(words: &mut Words<'_>, after: u32) -> Result<u32, Fault>
    ensures value { result ≡ says.read after spells.length_of words.old }
    ensures words { words.new ≡ others words.old }
{
    match words.next() {
        None => missing(after),
        Some(word) => at(word.column(), length_of(word.bytes())),
    }
}

#[tactic(auto, unfolding(crate::specs::Grammar::read))]
fn read_data(
    alloc: Global,
    words: &mut Words<'_>,
    after: u32,
) -> Result<Result<Text, Fault>, Memory>
    ensures value { IfOk result (λ r. r ≡ says.read after spells.data_of words.old) }
    ensures words { words.new ≡ others words.old }
{
    match words.next() {
        None => Ok(missing(after)),
        Some(word) => Ok(at(word.column(), data_of(alloc, word.bytes())?)),
    }
}

#[tactic(auto, unfolding(crate::specs::Grammar::read))]
fn read_byte(words: &mut Words<'_>, after: u32) -> Result<u8, Fault>
    ensures value { result ≡ says.read after spells.byte_of words.old }
    ensures words { words.new ≡ others words.old }
{
    match words.next() {
        None => missing(after),
        Some(word) => at(word.column(), byte_of(word.bytes())),
    }
}

#[tactic(auto, unfolding(crate::specs::Grammar::no_more))]
fn no_more(words: &mut Words<'_>) -> Result<(), Fault>
    ensures { result ≡ says.no_more words.old }
{
    match words.next() {
        None => Ok(()),
        Some(word) => Err(Fault {
            column: word.column(),
            why: Why::Extra,
        }),
    }
}

#[tactic(auto, unfolding(crate::specs::Grammar::lone_path))]
fn lone_path(
    alloc: Global,
    words: &mut Words<'_>,
    after: u32,
) -> Result<Result<Path, Fault>, Memory>
    ensures { IfOk result (λ r. r ≡ says.lone_path after words.old) }
{
    let path = match read_path(alloc, words, after)? {
        Ok(path) => path,
        Err(fault) => return Ok(Err(fault)),
    };
    if let Err(fault) = no_more(words) {
        return Ok(Err(fault));
    }
    Ok(Ok(path))
}

#[tactic(auto, unfolding(crate::specs::Grammar::rename_of))]
fn rename_of(
    alloc: Global,
    words: &mut Words<'_>,
    after: u32,
) -> Result<Result<Call, Fault>, Memory>
    ensures { IfOk result (λ r. r ≡ says.rename_of after words.old) }
{
    let from = match read_path(alloc, words, after)? {
        Ok(path) => path,
        Err(fault) => return Ok(Err(fault)),
    };
    match lone_path(alloc, words, after)? {
        Ok(to) => Ok(Ok(Call::Rename(from, to))),
        Err(fault) => Ok(Err(fault)),
    }
}

#[tactic(auto, unfolding(crate::specs::Grammar::write_of))]
fn write_of(alloc: Global, words: &mut Words<'_>, after: u32) -> Result<Result<Call, Fault>, Memory>
    ensures { IfOk result (λ r. r ≡ says.write_of after words.old) }
{
    let path = match read_path(alloc, words, after)? {
        Ok(path) => path,
        Err(fault) => return Ok(Err(fault)),
    };
    let from = match read_number(words, after) {
        Ok(from) => from,
        Err(fault) => return Ok(Err(fault)),
    };
    let bytes = match read_data(alloc, words, after)? {
        Ok(bytes) => bytes,
        Err(fault) => return Ok(Err(fault)),
    };
    if let Err(fault) = no_more(words) {
        return Ok(Err(fault));
    }
    Ok(Ok(Call::Write(path, from, bytes)))
}

#[tactic(auto, unfolding(crate::specs::Grammar::fill_of))]
fn fill_of(alloc: Global, words: &mut Words<'_>, after: u32) -> Result<Result<Call, Fault>, Memory>
    ensures { IfOk result (λ r. r ≡ says.fill_of after words.old) }
{
    let path = match read_path(alloc, words, after)? {
        Ok(path) => path,
        Err(fault) => return Ok(Err(fault)),
    };
    let from = match read_number(words, after) {
        Ok(from) => from,
        Err(fault) => return Ok(Err(fault)),
    };
    let count = match read_length(words, after) {
        Ok(count) => count,
        Err(fault) => return Ok(Err(fault)),
    };
    let byte = match read_byte(words, after) {
        Ok(byte) => byte,
        Err(fault) => return Ok(Err(fault)),
    };
    if let Err(fault) = no_more(words) {
        return Ok(Err(fault));
    }
    Ok(Ok(Call::Fill(path, from, count, byte)))
}

#[tactic(auto, unfolding(crate::specs::Grammar::read_of))]
fn read_of(alloc: Global, words: &mut Words<'_>, after: u32) -> Result<Result<Call, Fault>, Memory>
    ensures { IfOk result (λ r. r ≡ says.read_of after words.old) }
{
    let path = match read_path(alloc, words, after)? {
        Ok(path) => path,
        Err(fault) => return Ok(Err(fault)),
    };
    let from = match read_number(words, after) {
        Ok(from) => from,
        Err(fault) => return Ok(Err(fault)),
    };
    let count = match read_length(words, after) {
        Ok(count) => count,
        Err(fault) => return Ok(Err(fault)),
    };
    if let Err(fault) = no_more(words) {
        return Ok(Err(fault));
    }
    Ok(Ok(Call::Read(path, from, count)))
}

#[tactic(auto, unfolding(crate::specs::Grammar::truncate_of))]
fn truncate_of(
    alloc: Global,
    words: &mut Words<'_>,
    after: u32,
) -> Result<Result<Call, Fault>, Memory>
    ensures { IfOk result (λ r. r ≡ says.truncate_of after words.old) }
{
    let path = match read_path(alloc, words, after)? {
        Ok(path) => path,
        Err(fault) => return Ok(Err(fault)),
    };
    let size = match read_number(words, after) {
        Ok(size) => size,
        Err(fault) => return Ok(Err(fault)),
    };
    if let Err(fault) = no_more(words) {
        return Ok(Err(fault));
    }
    Ok(Ok(Call::Truncate(path, size)))
}

fn bare_call(words: &mut Words<'_>, made: Call) -> Result<Call, Fault>
    ensures { result ≡ says.bare_call made words.old }
{
    match no_more(words) {
        Ok(()) => Ok(made),
        Err(fault) => Err(fault),
    }
}

// The words behind a command.
#[tactic(auto, unfolding(crate::specs::Grammar::call_of))]
fn call_of(
    alloc: Global,
    command: Command,
    words: &mut Words<'_>,
    after: u32,
) -> Result<Result<Call, Fault>, Memory>
    ensures { IfOk result (λ r. r ≡ says.call_of after command words.old) }
{
    match command {
        Command::Mkdir => Ok(lone_path(alloc, words, after)?.map(Call::Mkdir)),
        Command::Rmdir => Ok(lone_path(alloc, words, after)?.map(Call::Rmdir)),
        Command::Create => Ok(lone_path(alloc, words, after)?.map(Call::Create)),
        Command::Unlink => Ok(lone_path(alloc, words, after)?.map(Call::Unlink)),
        Command::Stat => Ok(lone_path(alloc, words, after)?.map(Call::Stat)),
        Command::List => Ok(lone_path(alloc, words, after)?.map(Call::List)),
        Command::Rename => rename_of(alloc, words, after),
        Command::Write => write_of(alloc, words, after),
        Command::Fill => fill_of(alloc, words, after),
        Command::Read => read_of(alloc, words, after),
        Command::Truncate => truncate_of(alloc, words, after),
        Command::Sync => Ok(bare_call(words, Call::Sync)),
        Command::Clean => Ok(bare_call(words, Call::Clean)),
    }
}

// A worker, and the words behind it.
#[tactic(auto, unfolding(crate::specs::Grammar::worker_call, crate::specs::Grammar::read))]
fn worker_call(
    alloc: Global,
    first: Word<'_>,
    words: &mut Words<'_>,
    after: u32,
) -> Result<Result<Said, Fault>, Memory>
    ensures said { IfOk result (λ r. r ≡ says.worker_call after (first.entry ∷ words.old)) }
    ensures worker { IfOk result (λ r. IfOk r says.HasWorker) }
{
    let worker = match at(first.column(), worker_of(first.bytes())) {
        Ok(worker) => worker,
        Err(fault) => return Ok(Err(fault)),
    };
    let command = match read_command(words, after) {
        Ok(command) => command,
        Err(fault) => return Ok(Err(fault)),
    };
    match call_of(alloc, command, words, after)? {
        Ok(made) => Ok(Ok(Said::CallOf(worker, made))),
        Err(fault) => Ok(Err(fault)),
    }
}

#[tactic(auto, unfolding(crate::specs::Grammar::words_say))]
fn words_say(
    alloc: Global,
    first: Word<'_>,
    words: &mut Words<'_>,
    after: u32,
) -> Result<Result<Said, Fault>, Memory>
    ensures said { IfOk result (λ r. r ≡ says.words_say after (first.entry ∷ words.old)) }
    ensures worker { IfOk result (λ r. IfOk r says.HasWorker) }
{
    if first.bytes() == b"barrier".as_slice() {
        return match no_more(words) {
            Ok(()) => Ok(Ok(Said::Barrier)),
            Err(fault) => Ok(Err(fault)),
        };
    }
    worker_call(alloc, first, words, after)
}

fn is_comment(first: &Word<'_>) -> bool
    ensures { result ≡ slice_index first.now.bytes 0 == 35 }
{
    match first.bytes() {
        [b'#', ..] => true,
        _ => false,
    }
}

fn control_at(line: &[u8]) -> Option<usize>
    ensures { result ≡ position says.is_control line.now }
{
    line.iter().position(|c| *c < 32 || *c == 127)
}

#[tactic(auto, unfolding(crate::specs::Grammar::bytes_say, crate::specs::Grammar::words_say))]
fn bytes_say(alloc: Global, line: &[u8]) -> Result<Result<Said, Fault>, Memory>
    ensures said { IfOk result (λ r. r ≡ says.bytes_say line.now) }
    ensures worker { IfOk result (λ r. IfOk r says.HasWorker) }
{
    if line.len() > MAX_LINE {
        return Ok(Err(Fault {
            column: 140001,
            why: Why::Long,
        }));
    }
    let mut words = Words::of(line);
    let first = words.next();
    if let Some(word) = &first
        && is_comment(word)
    {
        return Ok(Ok(Said::Nothing));
    }
    if let Some(at) = control_at(line) {
        return Ok(Err(Fault {
            column: at as u32 + 1,
            why: Why::Byte,
        }));
    }
    match first {
        None => Ok(Ok(Said::Nothing)),
        Some(first) => words_say(alloc, first, &mut words, line.len() as u32 + 1),
    }
}

// What a line says that may end with a carriage return.
#[tactic(auto, unfolding(crate::specs::Grammar::line_says))]
pub(crate) fn line_says(alloc: Global, raw: &[u8]) -> Result<Result<Said, Fault>, Memory>
    ensures said { IfOk result (λ r. r ≡ says.line_says raw.now) }
    ensures worker { IfOk result (λ r. IfOk r says.HasWorker) }
{
    match raw {
        [line @ .., b'\r'] => bytes_say(alloc, line),
        _ => bytes_say(alloc, raw),
    }
}
