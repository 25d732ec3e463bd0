//! Puts together the text of a map.
ghost use Rattle.std.specs.Prelude.{◌≡◌, ◌≤◌, ◌<◌, ◌*◌, ◌^◌, ◌∷◌, ◌++◌, [], codes, decimal, length, map, nat_lt, Bool, OnOk, IfOk};
ghost use Rattle.std.specs.List.{list_all, list_any};
ghost use Rattle.nl_field.specs.Numbers.{ShapeBounds};
ghost use Rattle.nl_map.specs.Text.{blocks_text, block_text, block_wear, block_words, body_text, first_text, is_alike, is_erased, is_live, is_unjudged, kind_text, last_text, mark_code, own_looks, pages_text, segment_text, state_text};

use crate::pieces::{push, push_field};
use nl_field::{Memory, Shape};
use nl_map_pages::{Look, Mark};

// The character of a page.
fn code_of(mark: Mark) -> u8
    ensures { result ≡ mark_code mark }
{
    match mark {
        Mark::Erased => b'.',
        Mark::Dead => b'-',
        Mark::Live => b'#',
        Mark::OldCopy => b'o',
        Mark::Uncorrectable => b'x',
        Mark::Unjudged => b'?',
    }
}

// Adds a character a page.
fn push_pages(text: &mut Vec<u8>, looks: &[Look]) -> Result<(), Memory>
    ensures { OnOk result (text.new.items ≡ text.old.items ++ pages_text looks.now) }
{
    for look in looks {
        text.push(code_of(look.mark))?;
    }
    Ok(())
}

fn all_erased(looks: &[Look]) -> bool
    ensures { result ≡ list_all (λ l. is_erased l.mark) looks.now }
{
    looks.iter().all(|look| matches!(look.mark, Mark::Erased))
}

fn has_live(looks: &[Look]) -> bool
    ensures { result ≡ list_any (λ l. is_live l.mark) looks.now }
{
    looks.iter().any(|look| matches!(look.mark, Mark::Live))
}

fn has_unjudged(looks: &[Look]) -> bool
    ensures { result ≡ list_any (λ l. is_unjudged l.mark) looks.now }
{
    looks.iter().any(|look| matches!(look.mark, Mark::Unjudged))
}

// The state of a block, by its pages.
fn state_word(looks: &[Look]) -> &'static [u8]
    ensures { result.now ≡ state_text looks.now }
{
    if all_erased(looks) {
        b"erased"
    } else if has_live(looks) {
        b"used"
    } else if has_unjudged(looks) {
        b"written"
    } else {
        b"free"
    }
}

fn segment_word(is_virtual: bool) -> &'static [u8]
    ensures { result.now ≡ segment_text is_virtual }
{
    if is_virtual {
        b" virtual "
    } else {
        b" physical "
    }
}

// The greatest wear of the pages.
pub(crate) fn wear_of(looks: &[Look]) -> u32
    ensures { result ≡ block_wear looks.now }
{
    looks.iter().fold(0, |best, look| best.max(look.wear))
}

// Adds the number of a block, its segment, its state and its wear.
pub(crate) fn push_words(
    text: &mut Vec<u8>,
    block: u32,
    is_virtual: bool,
    looks: &[Look],
) -> Result<(), Memory>
    ensures { OnOk result (text.new.items ≡ text.old.items ++ block_words block is_virtual looks.now) }
{
    push_field(text, b"block", u64::from(block))?;
    push(text, segment_word(is_virtual))?;
    push(text, state_word(looks))?;
    push_field(text, b" wear", u64::from(wear_of(looks)))
}

// Adds the two lines of a block.
fn push_block(
    text: &mut Vec<u8>,
    block: u32,
    is_virtual: bool,
    looks: &[Look],
) -> Result<(), Memory>
    ensures { OnOk result (text.new.items ≡ text.old.items ++ block_text block is_virtual looks.now) }
{
    push_words(text, block, is_virtual, looks)?;
    push(text, b"\n")?;
    push_pages(text, looks)?;
    push(text, b"\n")
}

// Adds the lines of all blocks.
#[tactic(auto, unfolding(crate::specs::Text::blocks_text))]
fn push_blocks(text: &mut Vec<u8>, shape: &Shape, looks: &[Look]) -> Result<(), Memory>
    requires length { length looks.now ≡ shape.now.blocks * shape.now.pages }
    ensures { OnOk result (text.new.items ≡ text.old.items ++ blocks_text shape.now looks.now) }
{
    let size = shape.pages as usize;
    'blocks: for block in 0..shape.blocks {
        let from = block as usize * size;
        let own = &looks[from..from + size];
        push_block(text, block, block < shape.vblocks, own)?;
    }
    Ok(())
}

// Whether pages that are found so have the same character.
pub(crate) fn is_alike(mark: Mark, other: Mark) -> bool
    ensures { result ≡ is_alike mark other }
{
    code_of(mark) == code_of(other)
}

// Adds a line of words, and how many pages are found so.
pub(crate) fn push_kind(
    text: &mut Vec<u8>,
    words: &[u8],
    mark: Mark,
    looks: &[Look],
) -> Result<(), Memory>
    ensures { OnOk result (text.new.items ≡ text.old.items ++ kind_text words.now mark looks.now) }
{
    let count = looks
        .iter()
        .filter(|look| is_alike(mark, look.mark))
        .count();
    push_field(text, words, count as u64)?;
    push(text, b"\n")
}

// Adds how many pages are erased, how many are dead and how many live.
fn push_first(text: &mut Vec<u8>, looks: &[Look]) -> Result<(), Memory>
    ensures { OnOk result (text.new.items ≡ text.old.items ++ first_text looks.now) }
{
    push_kind(text, b". erased", Mark::Erased, looks)?;
    push_kind(text, b"- dead", Mark::Dead, looks)?;
    push_kind(text, b"# live", Mark::Live, looks)
}

// Adds how many pages are old copies, how many are uncorrectable and how many are not judged.
fn push_last(text: &mut Vec<u8>, looks: &[Look]) -> Result<(), Memory>
    ensures { OnOk result (text.new.items ≡ text.old.items ++ last_text looks.now) }
{
    push_kind(text, b"o old copy", Mark::OldCopy, looks)?;
    push_kind(text, b"x uncorrectable", Mark::Uncorrectable, looks)?;
    push_kind(text, b"? not judged", Mark::Unjudged, looks)
}

// Adds the lines of all blocks, and what each character says with how many pages have it.
#[tactic(auto, unfolding(crate::specs::Text::totals_text))]
pub(crate) fn push_body(text: &mut Vec<u8>, shape: &Shape, looks: &[Look]) -> Result<(), Memory>
    requires { length looks.now ≡ shape.now.blocks * shape.now.pages }
    ensures { OnOk result (text.new.items ≡ text.old.items ++ body_text shape.now looks.now) }
{
    push_blocks(text, shape, looks)?;
    push_first(text, looks)?;
    push_last(text, looks)
}
