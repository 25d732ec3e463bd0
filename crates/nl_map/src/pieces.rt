//! Texts that grow piece by piece.
ghost use Rattle.std.specs.Prelude.{◌≡◌, ◌++◌, decimal, OnOk};
ghost use Rattle.nl_print.specs.Texts.{field};
ghost use Rattle.nl_map.specs.Svg.{around};

use itoa::Buffer;
use nl_field::Memory;

// Adds bytes at the end.
pub(crate) fn push(text: &mut Vec<u8>, bytes: &[u8]) -> Result<(), Memory>
    ensures { OnOk result (text.new.items ≡ text.old.items ++ bytes.now) }
{
    text.extend_from_slice(bytes)?;
    Ok(())
}

// Adds a word, a space and a number.
pub(crate) fn push_field(text: &mut Vec<u8>, word: &[u8], number: u64) -> Result<(), Memory>
    ensures { OnOk result (text.new.items ≡ text.old.items ++ field word.now number) }
{
    let mut buffer = Buffer::new();
    push(text, word)?;
    push(text, b" ")?;
    push(text, buffer.format(number).as_bytes())
}

// Adds a number between two pieces of text.
#[tactic(auto, unfolding(crate::specs::Svg::around))]
pub(crate) fn push_around(
    text: &mut Vec<u8>,
    before: &[u8],
    number: u64,
    after: &[u8],
) -> Result<(), Memory>
    ensures { OnOk result (text.new.items ≡ text.old.items ++ around before.now number after.now) }
{
    let mut buffer = Buffer::new();
    push(text, before)?;
    push(text, buffer.format(number).as_bytes())?;
    push(text, after)
}
