//! Paths that several trees share.
ghost use Rattle.std.specs.Prelude.{◌≡◌, ◌++◌, length, drop, IfOk, OnOk};

use crate::Path;
use nl_field::{Memory, Text};
use std::alloc::Global;
use std::marker::Model;
use std::rc::Rc;

/// A path that several trees share.
#[derive(Drop)]
pub struct SharedPath {
    path: Rc<Path>,
}

impl Model for SharedPath {
    ghost use Rattle.std.specs.Prelude.{List, ℕ};

    ghost Value = { List (List ℕ) };

    ghost view = { λ p. p.path.value };
}

impl SharedPath {
    /// This path, to be shared. An error where memory is refused.
    pub fn new(alloc: Global, path: Path) -> Result<Self, Memory>
        ensures { IfOk result (λ p. p ≡ path) }
    {
        Ok(SharedPath {
            path: Rc::new(alloc, path)?,
        })
    }

    /// This path, shared once more. An error where that is refused.
    pub fn share(&self) -> Result<Self, Memory>
        ensures { IfOk result (λ p. p ≡ self.now) }
    {
        Ok(SharedPath {
            path: self.path.clone()?,
        })
    }

    /// The names of the path, from the root on.
    pub fn names(&self) -> &[Text]
        ensures { result.now ≡ self.now }
    {
        self.path.as_ref().names()
    }
}

/// The names behind the first ones.
pub fn behind<'a>(first: &[Text], names: &'a [Text]) -> &'a [Text]
    ensures { result.now ≡ drop (length first.now) names.now }
{
    if first.len() > names.len() {
        return &names[names.len()..];
    }
    &names[first.len()..]
}

/// The first names with the others behind them.
pub fn joined(alloc: Global, first: &[Text], more: &[Text]) -> Result<SharedPath, Memory>
    ensures { IfOk result (λ p. p ≡ first.now ++ more.now) }
{
    let mut path = Path::new(alloc);
    push_all(alloc, &mut path, first)?;
    push_all(alloc, &mut path, more)?;
    SharedPath::new(alloc, path)
}

/// A copy of a path that can be shared.
pub fn copied_path(alloc: Global, path: &Path) -> Result<SharedPath, Memory>
    ensures { IfOk result (λ p. p ≡ path.now) }
{
    let mut copied = Path::new(alloc);
    push_all(alloc, &mut copied, path.names())?;
    SharedPath::new(alloc, copied)
}

fn push_all(alloc: Global, path: &mut Path, names: &[Text]) -> Result<(), Memory>
    ensures { OnOk result (path.new ≡ path.old ++ names.now) }
{
    'names: for name in names {
        path.push(Text::of(alloc, name.bytes())?)?;
    }
    Ok(())
}
