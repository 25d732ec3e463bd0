// The path that a word of a command line spells.
ghost use Rattle.std.specs.Prelude.{◌≡◌, ◌==◌, ◌+◌, [], ◌∷◌, Some, length, position, is_some, IfOk, IsSome, MatchOption};
ghost use Rattle.std.specs.List.{list_all};
ghost use Rattle.nl_cmd_words.specs.Paths.{path_word, spelled_path};
ghost use Rattle.nl_field.specs.Names.{is_name, is_name_byte};
ghost use Rattle.nl_script.specs.Words.{parts};
ghost use Rattle.nl_tree.specs.Calls.{AreNames};

use nl_field::{Memory, Text};
use nl_io::Words;
use nl_tree::Path;
use std::alloc::Global;

fn have_name_bytes(bytes: &[u8]) -> bool
    ensures { result ≡ list_all is_name_byte bytes.now }
{
    for byte in bytes {
        if *byte < 33 || *byte == 127 || *byte == b'/' {
            return false;
        }
    }
    true
}

#[tactic(auto, unfolding(nl_field::specs::Names::is_name))]
fn is_name(bytes: &[u8]) -> bool
    ensures { result ≡ is_name bytes.now }
{
    !bytes.is_empty()
        && have_name_bytes(bytes)
        && bytes != b".".as_slice()
        && bytes != b"..".as_slice()
}

fn slash_in(bytes: &[u8]) -> Option<usize>
    ensures { result ≡ position (λ b. b == 47) bytes.now }
{
    bytes.iter().position(|b| *b == b'/')
}

// The bytes before the first slash, and those behind it.
fn cut(bytes: &[u8]) -> (&[u8], Option<&[u8]>)
    ensures lengths { MatchOption result.1 (length result.0.now ≡ length bytes.now)
        (λ rest. length result.0.now + 1 + length rest.now ≡ length bytes.now) }
    ensures parts { MatchOption result.1 (parts 47 bytes.now ≡ result.0.now ∷ [])
        (λ rest. parts 47 bytes.now ≡ result.0.now ∷ parts 47 rest.now) }
{
    match slash_in(bytes) {
        None => (bytes, None),
        Some(end) => (&bytes[..end], Some(&bytes[end + 1..])),
    }
}

// Whether a name stands before, between and behind the slashes.
fn are_names(bytes: &[u8]) -> bool
    ensures { result ≡ list_all is_name (parts 47 bytes.now) }
{
    let mut rest = bytes;
    'names: loop {
        let (name, after) = cut(rest);
        if !is_name(name) {
            return false;
        }
        match after {
            None => return true,
            Some(after) => rest = after,
        }
    }
}

// The bytes of a word behind its first one, where that is a slash.
fn behind_slash(word: &[u8]) -> Option<&[u8]>
    ensures { MatchOption result (spelled_path word.now ≡ None) (λ names. word.now ≡ 47 ∷ names.now) }
{
    match word.split_first() {
        None => None,
        Some((first, names)) => { if *first == b'/' { Some(names) } else { None } }
    }
}

// Whether a word spells a path.
pub(crate) fn is_path(word: &[u8]) -> bool
    ensures { result ≡ is_some (spelled_path word.now) }
{
    match behind_slash(word) {
        None => false,
        Some(names) => names.is_empty() || are_names(names),
    }
}

// The names before, between and behind the slashes.
fn names_of(alloc: Global, bytes: &[u8]) -> Result<Path, Memory>
    ensures { IfOk result (λ path. path ≡ parts 47 bytes.now) }
{
    let mut path = Path::new(alloc);
    let mut rest = bytes;
    'names: loop {
        let (name, after) = cut(rest);
        path.push(Text::of(alloc, name)?)?;
        match after {
            None => return Ok(path),
            Some(after) => rest = after,
        }
    }
}

// The path that a word spells.
fn path_of(alloc: Global, word: &[u8]) -> Result<Path, Memory>
    requires { IsSome (spelled_path word.now) }
    ensures path { IfOk result (λ path. spelled_path word.now ≡ Some path) }
    ensures names { IfOk result AreNames }
{
    match behind_slash(word) {
        None => unreachable!(),
        Some([]) => Ok(Path::new(alloc)),
        Some(names) => names_of(alloc, names),
    }
}

/// The path behind the word of a command, where it spells one. Each of its names is one but for its length.
pub fn path_word(alloc: Global, words: &Words) -> Result<Path, Memory>
    requires { IsSome (path_word words.now) }
    ensures path { IfOk result (λ path. path_word words.now ≡ Some path) }
    ensures names { IfOk result AreNames }
{
    match words.as_slice() {
        [_, path] => path_of(alloc, path.bytes()),
        _ => unreachable!(),
    }
}
