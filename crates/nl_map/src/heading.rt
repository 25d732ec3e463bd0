//! The first line of a map.
ghost use Rattle.std.specs.Prelude.{◌≡◌, ◌++◌, OnOk};
ghost use Rattle.nl_map.specs.Drawing.{heading_text, is_opening};
ghost use Rattle.nl_print.specs.Texts.{what_text};

use crate::pieces::{push, push_field};
use nl_field::{Memory, Place, What};

/// As what a medium opens.
#[derive(Clone, Copy, Debug, PartialEq, Eq)]
pub enum Heading {
    /// The volume opens with this count of calls.
    Opened(u64),
    /// No page is readable.
    Blank,
    /// The first place at fault.
    Damaged(Place),
}

// The word for what is at fault.
fn word_of(what: What) -> &'static [u8]
    ensures { result.now ≡ what_text what }
{
    match what {
        What::Super => b"super",
        What::Stamp => b"stamp",
        What::Inode => b"inode",
        What::Pages => b"pages",
        What::Entry => b"entry",
        What::Pointer => b"pointer",
        What::Names => b"names",
        What::Charges => b"charges",
        What::Crowded => b"crowded",
    }
}

impl Heading {
    // Adds the first line of a map.
    pub(crate) fn push_to(&self, text: &mut Vec<u8>) -> Result<(), Memory>
        ensures { OnOk result (text.new.items ≡ text.old.items ++ heading_text self.now) }
    {
        match self {
            Heading::Opened(count) => push_field(text, b"opened", *count)?,
            Heading::Blank => push(text, b"blank")?,
            Heading::Damaged(place) => {
                push_field(text, b"damaged", place.place)?;
                push(text, b" ")?;
                push(text, word_of(place.what))?;
            }
        }
        push(text, b"\n")
    }

    /// Whether the volume opens.
    pub fn opens(&self) -> bool
        ensures { result ≡ is_opening self.now }
    {
        matches!(self, Heading::Opened(_))
    }
}
