// Paths whose names are names.
ghost use Rattle.std.specs.Prelude.{◌≡◌, IfSome};
ghost use Rattle.std.specs.List.{list_all};
ghost use Rattle.nl_field.specs.Names.{is_name, is_name_byte};
ghost use Rattle.nl_tree.specs.Calls.{AreNames};

use nl_field::Text;
use nl_tree::Path;
use std::alloc::Global;

/// Names, from the root on.
pub type Names = &'static [&'static [u8]];

/// Paths that are made one after the other.
#[derive(Clone, Copy)]
pub enum Series {
    /// Under this path, the names `aaa`, `aab` and so on to `aap`, `aba` and so on.
    In(Names),
    /// `/d`, `/d/d`, and so on.
    Nested,
}

/// A path of these names. None where one is no name, but for its length.
pub fn path_of(alloc: Global, names: &[&[u8]]) -> Option<Path>
    ensures { IfSome result (λ path. AreNames path) }
{
    let mut path = Path::new(alloc);
    for at in 0..names.len() {
        path = with_name(alloc, path, names[at])?;
    }
    Some(path)
}

/// The path of a number from 0 on.
pub fn path_at(alloc: Global, series: Series, number: u32) -> Option<Path>
    ensures { IfSome result (λ path. AreNames path) }
{
    match series {
        Series::In(names) => with_name(alloc, path_of(alloc, names)?, &letters(number)),
        Series::Nested => nested(alloc, number),
    }
}

fn nested(alloc: Global, number: u32) -> Option<Path>
    ensures { IfSome result (λ path. AreNames path) }
{
    let mut path = with_name(alloc, Path::new(alloc), b"d")?;
    for _ in 0..number {
        path = with_name(alloc, path, b"d")?;
    }
    Some(path)
}

/// The number in letters, 16 of them.
fn letters(number: u32) -> [u8; 3] {
    [letter(number / 256), letter(number / 16), letter(number)]
}

fn letter(number: u32) -> u8 {
    b'a' + (number % 16) as u8
}

/// The path with one more name. None where it is none, but for its length.
fn with_name(alloc: Global, path: Path, name: &[u8]) -> Option<Path>
    requires { AreNames path }
    ensures { IfSome result (λ longer. AreNames longer) }
{
    if !is_named(name) {
        return None;
    }
    let mut path = path;
    path.push(Text::of(alloc, name).ok()?).ok()?;
    Some(path)
}

#[tactic(auto, unfolding(nl_field::specs::Names::is_name))]
fn is_named(bytes: &[u8]) -> bool
    ensures { result ≡ is_name bytes.now }
{
    !bytes.is_empty()
        && have_name_bytes(bytes)
        && bytes != b".".as_slice()
        && bytes != b"..".as_slice()
}

fn have_name_bytes(bytes: &[u8]) -> bool
    ensures { result ≡ list_all is_name_byte bytes.now }
{
    for byte in bytes {
        if *byte < 33 || *byte == 127 || *byte == b'/' {
            return false;
        }
    }
    true
}
