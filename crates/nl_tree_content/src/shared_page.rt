//! Pages that several contents share.
ghost use Rattle.std.specs.Prelude.{◌≡◌, IfOk};

use nl_field::{Memory, Text};
use std::alloc::Global;
use std::marker::Model;
use std::rc::Rc;

/// The bytes of a page of a file.
#[derive(Drop)]
pub(crate) struct SharedPage {
    bytes: Rc<Text>,
}

impl Model for SharedPage {
    ghost use Rattle.std.specs.Prelude.{List, ℕ};

    ghost Value = { List ℕ };

    ghost view = { λ p. p.bytes.value };
}

impl SharedPage {
    /// A page of these bytes, to be shared. An error where memory is refused.
    pub(crate) fn new(alloc: Global, bytes: Vec<u8>) -> Result<Self, Memory>
        ensures { IfOk result (λ p. p ≡ bytes.items) }
    {
        Ok(SharedPage {
            bytes: Rc::new(alloc, Text::from_vec(bytes))?,
        })
    }

    /// This page, shared once more. An error where that is refused.
    pub(crate) fn share(&self) -> Result<Self, Memory>
        ensures { IfOk result (λ p. p ≡ self.now) }
    {
        Ok(SharedPage {
            bytes: self.bytes.clone()?,
        })
    }

    /// The bytes of the page.
    pub(crate) fn bytes(&self) -> &[u8]
        ensures { result.now ≡ self.now }
    {
        self.bytes.as_ref().bytes()
    }
}
