// Reads one word: the worker, path, number or bytes that it spells.
ghost use Rattle.std.specs.Prelude.{◌≡◌, ◌<◌, ◌≤◌, true, false, MatchOption, IfOk};
ghost use Rattle.std.specs.Char.{is_ascii_digit, digit_value};
ghost use Rattle.nl_script.specs.Spellings as spells;
ghost use Rattle.nl_script.specs.Words.{parts};

use crate::Why;
use crate::cut::cut;
use nl_field::{MAX_BYTES, Memory, Text};
use nl_tree::Path;
use std::alloc::Global;

/// The worker that a word names, 0 to 7, or why it names none.
pub(crate) fn worker_of(word: &[u8]) -> Result<u8, Why>
    ensures worker { result ≡ spells.worker_of word.now }
    ensures small { IfOk result (λ w. w ≤ 7) }
{
    match word {
        [c] if *c >= b'0' && *c <= b'7' => Ok(*c - b'0'),
        _ => Err(Why::Worker),
    }
}

fn is_name(name: &[u8]) -> bool
    ensures { result ≡ spells.is_name name.now }
{
    let is_dot = name == b".".as_slice();
    let is_dots = name == b"..".as_slice();
    !name.is_empty() && !is_dot && !is_dots
}

/// The path that a word spells, or why it spells none. An outer error where memory is refused.
#[tactic(auto, unfolding(crate::specs::Spellings::path_of))]
pub(crate) fn path_of(alloc: Global, word: &[u8]) -> Result<Result<Path, Why>, Memory>
    ensures { IfOk result (λ r. r ≡ spells.path_of word.now) }
{
    match word {
        [b'/'] => Ok(Ok(Path::new(alloc))),
        [b'/', names @ ..] => names_of(alloc, names),
        _ => Ok(Err(Why::Path)),
    }
}

// Names with one slash between them.
fn names_of(alloc: Global, bytes: &[u8]) -> Result<Result<Path, Why>, Memory>
    ensures { IfOk result (λ r. r ≡ spells.names_of (parts 47 bytes.now)) }
{
    let mut path = Path::new(alloc);
    let mut rest = bytes;
    'names: loop {
        let (name, after) = cut(rest, b'/');
        if !is_name(name) {
            return Ok(Err(Why::Path));
        }
        path.push(Text::of(alloc, name)?)?;
        match after {
            None => return Ok(Ok(path)),
            Some(after) => rest = after,
        }
    }
}

fn digit_of(byte: u8) -> Option<u8>
    ensures { MatchOption result (is_ascii_digit byte ≡ false)
        (λ d. (is_ascii_digit byte ≡ true) × (d ≡ digit_value byte) × (d < 10)) }
{
    match byte {
        b'0'..=b'9' => Some(byte - b'0'),
        _ => None,
    }
}

fn digits_of(word: &[u8]) -> Option<u64>
    ensures { result ≡ spells.digits_of word.now }
{
    if word.is_empty() || word.len() > 19 {
        return None;
    }
    let mut value = 0u64;
    for byte in word {
        let digit = digit_of(*byte)?;
        value = value * 10 + u64::from(digit);
    }
    if value < 1 << 63 { Some(value) } else { None }
}

/// The decimal number that a word spells, or why it spells none.
pub(crate) fn number_of(word: &[u8]) -> Result<u64, Why>
    ensures { result ≡ spells.number_of word.now }
{
    match digits_of(word) {
        Some(value) => Ok(value),
        None => Err(Why::Number),
    }
}

/// The length in bytes that a word spells, or why it spells none that a call may have.
#[tactic(auto, unfolding(crate::specs::Spellings::length_of))]
pub(crate) fn length_of(word: &[u8]) -> Result<u32, Why>
    ensures { result ≡ spells.length_of word.now }
{
    let count = number_of(word)?;
    if count > MAX_BYTES as u64 {
        return Err(Why::Long);
    }
    Ok(count as u32)
}

/// The bytes that a word spells in hexadecimal, or why it spells none. An outer error where memory is refused.
#[tactic(auto, unfolding(crate::specs::Spellings::data_of))]
pub(crate) fn data_of(alloc: Global, word: &[u8]) -> Result<Result<Text, Why>, Memory>
    ensures { IfOk result (λ r. r ≡ spells.data_of word.now) }
{
    if word == b"-".as_slice() {
        return Ok(Ok(Text::new(alloc)));
    }
    if word.is_empty() {
        return Ok(Err(Why::Hex));
    }
    match hex::decode(alloc, word) {
        Ok(bytes) => {
            if bytes.len() > MAX_BYTES {
                return Ok(Err(Why::Long));
            }
            Ok(Ok(Text::from_vec(bytes)))
        }
        Err(hex::FromHexError::OutOfMemory) => Err(Memory),
        Err(_) => Ok(Err(Why::Hex)),
    }
}

/// The byte that a word spells in two hexadecimal digits, or why it spells none.
#[tactic(auto, unfolding(crate::specs::Spellings::byte_of))]
pub(crate) fn byte_of(word: &[u8]) -> Result<u8, Why>
    ensures { result ≡ spells.byte_of word.now }
{
    if word.len() != 2 {
        return Err(Why::Hex);
    }
    let mut byte = [0u8; 1];
    match hex::decode_to_slice(word, &mut byte) {
        Ok(()) => Ok(byte[0]),
        Err(_) => Err(Why::Hex),
    }
}
