// The paths that a put takes for its own.
ghost use Rattle.std.specs.Prelude.{◌≡◌, ◌<◌, ◌-◌, ◌∷◌, ◌++◌, [], length, take, IfOk, OnOk, IfSome, IsTrue};
ghost use Rattle.nl_put_tree.specs.Putting.{IsBeside};
ghost use Rattle.nl_cmd_put.specs.Naming.{IsMarked};
ghost use Rattle.nl_tree.specs.Calls.{AreNames};

use nl_field::{Memory, Text};
use nl_tree::Path;
use std::alloc::Global;

// Adds a decimal digit to a name.
fn push_digit(name: &mut Text, digit: u32) -> Result<(), Memory>
    requires digit { digit < 10 }
    requires name { IsMarked name.old }
    ensures name { OnOk result (IsMarked name.new) }
{
    name.push(48 + digit as u8)
}

// The name of a number below 10,000: `.put-` and its digits.
fn own_name(alloc: Global, number: u32) -> Result<Text, Memory>
    ensures name { IfOk result IsMarked }
{
    let mut name = Text::of(alloc, b".put-")?;
    if number >= 1000 {
        push_digit(&mut name, number / 1000 % 10)?;
    }
    if number >= 100 {
        push_digit(&mut name, number / 100 % 10)?;
    }
    if number >= 10 {
        push_digit(&mut name, number / 10 % 10)?;
    }
    push_digit(&mut name, number % 10)?;
    Ok(name)
}

// The directory of a path, which is not the root.
fn directory_of(alloc: Global, path: &Path) -> Result<Path, Memory>
    requires path { 0 < length path.now }
    ensures above { IfOk result (λ above. above ≡ take (length path.now - 1) path.now) }
{
    let mut above = Path::new(alloc);
    for at in 0..path.len() - 1 {
        above.push(Text::of(alloc, path.get(at).bytes())?)?;
    }
    Ok(above)
}

/// The path in the same directory that has the name of a number; None where that is the path itself.
pub(crate) fn beside(alloc: Global, path: &Path, number: u32) -> Result<Option<Path>, Memory>
    requires path { 0 < length path.now }
    requires names { AreNames path.now }
    ensures beside { IfOk result (λ own. IfSome own (IsBeside path.now)) }
    ensures names { IfOk result (λ own. IfSome own AreNames) }
{
    let name = own_name(alloc, number)?;
    if name.bytes() == path.get(path.len() - 1).bytes() {
        return Ok(None);
    }
    let mut own = directory_of(alloc, path)?;
    own.push(name)?;
    Ok(Some(own))
}
