// The words of a command line.
ghost use Rattle.std.specs.Prelude.{◌≡◌, IfSome};
ghost use Rattle.nl_script.specs.Spellings.{digits_of};
ghost use Rattle.nl_cmd_words.specs.Command.{HasPath, IsLegalCommand, command_of, drawing, drawn_of, format_of, path_command, plain_command};
ghost use Rattle.nl_cmd_words.specs.Paths.{spelled_path};

use crate::paths::is_path;
use crate::word::number_of;
use nl_field::shape_of;
use nl_io::Words;

/// What a command line asks for.
#[derive(Clone, Copy, Debug, PartialEq, Eq)]
pub enum Command {
    /// Makes a volume of so many blocks of so many pages.
    Format(u32, u32),
    /// Runs a script.
    Run,
    /// Prints what is at fault.
    Check,
    /// Prints every path.
    Tree,
    /// Prints counts of the opened volume.
    Report,
    /// Prints what is found on each page.
    Map,
    /// Prints that as a picture.
    MapSvg,
    /// Prints the bytes of the file at the path behind it.
    Get,
    /// Makes the file at the path behind it hold the bytes of a source.
    Put,
    /// Runs the script that is drawn from a seed, of so many lines for each of so many workers, and prints a summary.
    Soak(u64, u32, u8),
    /// Answers the lines of that script one after the other on two volumes in memory, and prints the most that their tables of names had.
    Compare(u64, u32, u8),
}

/// The most lines for each worker of a script that is drawn, and the most workers.
const MAX_LINES: u32 = 20_000;

const MAX_WORKERS: u8 = 8;

// The command of a geometry, where it is legal.
fn format_of(blocks: &[u8], pages: &[u8]) -> Option<Command>
    ensures command { result ≡ format_of (digits_of blocks.now) (digits_of pages.now) }
    ensures legal { IfSome result IsLegalCommand }
{
    let blocks = u32::try_from(number_of(blocks)?).ok()?;
    let pages = u32::try_from(number_of(pages)?).ok()?;
    match shape_of(blocks, pages) {
        Some(_) => Some(Command::Format(blocks, pages)),
        None => None,
    }
}

// The command that draws its script from these numbers, where they are legal: a comparison, or else a soak.
fn drawn_of(compares: bool, seed: &[u8], lines: &[u8], workers: &[u8]) -> Option<Command>
    ensures command { result ≡ drawn_of (drawing compares) (digits_of seed.now) (digits_of lines.now) (digits_of workers.now) }
    ensures legal { IfSome result IsLegalCommand }
{
    let seed = number_of(seed)?;
    let lines = u32::try_from(number_of(lines)?).ok()?;
    let workers = u8::try_from(number_of(workers)?).ok()?;
    if lines == 0 || lines > MAX_LINES || workers == 0 || workers > MAX_WORKERS {
        return None;
    }
    if compares {
        Some(Command::Compare(seed, lines, workers))
    } else {
        Some(Command::Soak(seed, lines, workers))
    }
}

// The command of one word.
fn plain_command(word: &[u8]) -> Option<Command>
    ensures command { result ≡ plain_command word.now }
    ensures legal { IfSome result IsLegalCommand }
{
    if word == b"run".as_slice() {
        Some(Command::Run)
    } else if word == b"check".as_slice() {
        Some(Command::Check)
    } else if word == b"tree".as_slice() {
        Some(Command::Tree)
    } else if word == b"report".as_slice() {
        Some(Command::Report)
    } else if word == b"map".as_slice() {
        Some(Command::Map)
    } else {
        None
    }
}

// The command of a word and a path.
fn path_command(word: &[u8], path: &[u8]) -> Option<Command>
    ensures { result ≡ path_command word.now (spelled_path path.now) }
{
    if !is_path(path) {
        None
    } else if word == b"get".as_slice() {
        Some(Command::Get)
    } else if word == b"put".as_slice() {
        Some(Command::Put)
    } else {
        None
    }
}

/// The command that the words name, None exactly where they name none, its numbers are illegal, or its path is none.
pub fn command_of(words: &Words) -> Option<Command>
    ensures command { result ≡ command_of words.now }
    ensures legal { IfSome result IsLegalCommand }
    ensures path { IfSome result (HasPath words.now) }
{
    match words.as_slice() {
        [word] => plain_command(word.bytes()),
        [word, form] if word.bytes() == b"map".as_slice() && form.bytes() == b"svg".as_slice() => {
            Some(Command::MapSvg)
        }
        [word, path] => path_command(word.bytes(), path.bytes()),
        [word, blocks, pages] if word.bytes() == b"format".as_slice() => {
            format_of(blocks.bytes(), pages.bytes())
        }
        [word, seed, lines, workers] if word.bytes() == b"soak".as_slice() => {
            drawn_of(false, seed.bytes(), lines.bytes(), workers.bytes())
        }
        [word, seed, lines, workers] if word.bytes() == b"compare".as_slice() => {
            drawn_of(true, seed.bytes(), lines.bytes(), workers.bytes())
        }
        _ => None,
    }
}
