//! Puts together the picture of a map.
ghost use Rattle.std.specs.Prelude.{◌≡◌, ◌≤◌, ◌<◌, ◌+◌, ◌*◌, ◌^◌, ◌∷◌, ◌++◌, [], codes, decimal, flat_map, length, max, nat_lt, Bool, OnOk};
ghost use Rattle.nl_map.specs.Drawing.{heading_text};
ghost use Rattle.nl_map.specs.Runs.{Run, runs, runs_after};
ghost use Rattle.nl_map.specs.Svg.{bar_text, bars_text, box_text, boxes_text, brightness, class_text, colours_text, entry_text, first_entries, geometry_text, head_text, label_end, label_text, last_entries, legend_text, row_text, rows_text, size_text, svg_text, title_text};
ghost use Rattle.nl_map.specs.Text.{own_looks};

use crate::heading::Heading;
use crate::pieces::{push, push_around, push_field};
use crate::text::{is_alike, push_kind, push_words, wear_of};
use nl_field::{Memory, Shape};
use nl_map_pages::{Look, Mark};

// ---- the head

#[tactic(auto, unfolding(crate::specs::Svg::geometry_text))]
fn push_geometry(text: &mut Vec<u8>, shape: &Shape) -> Result<(), Memory>
    ensures { OnOk result (text.new.items ≡ text.old.items ++ geometry_text shape.now) }
{
    push_field(text, b"blocks", u64::from(shape.blocks))?;
    push_field(text, b" pages", u64::from(shape.pages))
}

// Adds the first words, with the size of the picture.
#[tactic(auto, unfolding(crate::specs::Svg::size_text))]
fn push_size(text: &mut Vec<u8>, shape: &Shape) -> Result<(), Memory>
    ensures { OnOk result (text.new.items ≡ text.old.items ++ size_text shape.now) }
{
    let width = 6 * u64::from(shape.pages) + 240;
    let height = 8 * u64::from(shape.blocks) + 148;
    push_around(
        text,
        b"<svg xmlns='http://www.w3.org/2000/svg' width='",
        width,
        b"' height='",
    )?;
    push_around(text, b"", height, b"'>\n")
}

#[tactic(auto, unfolding(crate::specs::Svg::colours_text))]
fn push_colours(text: &mut Vec<u8>) -> Result<(), Memory>
    ensures { OnOk result (text.new.items ≡ text.old.items ++ colours_text) }
{
    push(
        text,
        b"<style>text{font:10px monospace}.n{font-size:7px;text-anchor:end}.w{stroke:#888;stroke-width:.5}\n",
    )?;
    push(
        text,
        b".e{fill:#e8e8e8}.d{fill:#e69f00}.l{fill:#0072b2}.o{fill:#56b4e9}.x{fill:#000}.u{fill:#cc79a7}</style>\n",
    )
}

#[tactic(auto, unfolding(crate::specs::Svg::title_text))]
fn push_title(text: &mut Vec<u8>, shape: &Shape) -> Result<(), Memory>
    ensures { OnOk result (text.new.items ≡ text.old.items ++ title_text shape.now) }
{
    push(text, b"<title>")?;
    push_geometry(text, shape)?;
    push(
        text,
        b"</title>\n<rect width='100%' height='100%' fill='#fff'/>\n<text x='8' y='16'>",
    )?;
    push_geometry(text, shape)?;
    push(text, b"</text>\n<text x='8' y='30'>")
}

#[tactic(auto, unfolding(crate::specs::Svg::head_text))]
fn push_head(text: &mut Vec<u8>, shape: &Shape) -> Result<(), Memory>
    ensures { OnOk result (text.new.items ≡ text.old.items ++ head_text shape.now) }
{
    push_size(text, shape)?;
    push_colours(text)?;
    push_title(text, shape)
}

// ---- what each colour says

// The class of a page.
fn class_of(mark: Mark) -> &'static [u8]
    ensures { result.now ≡ class_text mark }
{
    match mark {
        Mark::Erased => b"e",
        Mark::Dead => b"d",
        Mark::Live => b"l",
        Mark::OldCopy => b"o",
        Mark::Uncorrectable => b"x",
        Mark::Unjudged => b"u",
    }
}

// Adds a colour so many points from the top, with words and how many pages have it.
#[tactic(auto, unfolding(crate::specs::Svg::entry_text))]
fn push_entry(
    text: &mut Vec<u8>,
    y: u64,
    words: &[u8],
    mark: Mark,
    looks: &[Look],
) -> Result<(), Memory>
    ensures { OnOk result (text.new.items ≡ text.old.items ++ entry_text y words.now mark looks.now) }
{
    push_around(text, b"<g transform='translate(8,", y, b")'><rect class='")?;
    push(text, class_of(mark))?;
    push(text, b"' width='10' height='10'/><text x='16' y='9'>")?;
    push_kind(text, words, mark, looks)?;
    push(text, b"</text></g>\n")
}

fn push_first_entries(text: &mut Vec<u8>, looks: &[Look]) -> Result<(), Memory>
    ensures { OnOk result (text.new.items ≡ text.old.items ++ first_entries looks.now) }
{
    push_entry(text, 38, b"erased", Mark::Erased, looks)?;
    push_entry(text, 52, b"dead", Mark::Dead, looks)?;
    push_entry(text, 66, b"live", Mark::Live, looks)
}

fn push_last_entries(text: &mut Vec<u8>, looks: &[Look]) -> Result<(), Memory>
    ensures { OnOk result (text.new.items ≡ text.old.items ++ last_entries looks.now) }
{
    push_entry(text, 80, b"old copy", Mark::OldCopy, looks)?;
    push_entry(text, 94, b"uncorrectable", Mark::Uncorrectable, looks)?;
    push_entry(text, 108, b"not judged", Mark::Unjudged, looks)
}

// The number, or 1 for 0.
fn at_least_one(number: u32) -> u32
    ensures { result ≡ max number 1 }
{
    number.max(1)
}

// Adds what the boxes say, where this is the greatest wear.
#[tactic(auto, unfolding(crate::specs::Svg::boxes_text))]
fn push_boxes(text: &mut Vec<u8>, most: u32) -> Result<(), Memory>
    ensures { OnOk result (text.new.items ≡ text.old.items ++ boxes_text most) }
{
    push_around(
        text,
        b"<text x='8' y='132'>wear of a block: white 0, black ",
        u64::from(at_least_one(most)),
        b"; v virtual, p physical</text>\n",
    )
}

#[tactic(auto, unfolding(crate::specs::Svg::legend_text))]
fn push_legend(text: &mut Vec<u8>, looks: &[Look]) -> Result<(), Memory>
    ensures { OnOk result (text.new.items ≡ text.old.items ++ legend_text looks.now) }
{
    push_first_entries(text, looks)?;
    push_last_entries(text, looks)?;
    push_boxes(text, wear_of(looks))
}

// ---- a block

// How bright the box of a block is, where this is the greatest wear of all.
fn brightness_of(wear: u32, most: u32) -> u64
    ensures { result ≡ brightness wear most }
{
    255u64.saturating_sub(u64::from(wear) * 255 / u64::from(at_least_one(most)))
}

#[tactic(auto, unfolding(crate::specs::Svg::box_text))]
fn push_box(text: &mut Vec<u8>, bright: u64) -> Result<(), Memory>
    ensures { OnOk result (text.new.items ≡ text.old.items ++ box_text bright) }
{
    push_around(
        text,
        b"<rect class='w' x='-10' width='8' height='6' fill='rgb(",
        bright,
        b",",
    )?;
    push_around(text, b"", bright, b",")?;
    push_around(text, b"", bright, b")'/>")
}

fn end_of_label(is_virtual: bool) -> &'static [u8]
    ensures { result.now ≡ label_end is_virtual }
{
    if is_virtual {
        b" v</text>"
    } else {
        b" p</text>"
    }
}

#[tactic(auto, unfolding(crate::specs::Svg::label_text))]
fn push_label(text: &mut Vec<u8>, block: u32, is_virtual: bool) -> Result<(), Memory>
    ensures { OnOk result (text.new.items ≡ text.old.items ++ label_text block is_virtual) }
{
    push_around(
        text,
        b"</title><text class='n' x='-12' y='6'>",
        u64::from(block),
        end_of_label(is_virtual),
    )
}

// Adds so many pages that are found alike, from this one on.
#[tactic(auto, unfolding(crate::specs::Svg::bar_text))]
fn push_bar(text: &mut Vec<u8>, mark: Mark, from: u64, count: u64) -> Result<(), Memory>
    requires { from + count ≤ 2 ^ 32 }
    ensures { OnOk result (text.new.items ≡ text.old.items ++ bar_text (record { mark = mark; from = from; count = count })) }
{
    push(text, b"<rect class='")?;
    push(text, class_of(mark))?;
    push_around(text, b"' x='", 6 * from, b"' width='")?;
    push_around(text, b"", 6 * count, b"' height='6'/>")
}

// Adds the pages behind the first one of a block.
fn push_bars_after(text: &mut Vec<u8>, first: Mark, looks: &[Look]) -> Result<(), Memory>
    requires { length looks.now < 2 ^ 32 }
    ensures { OnOk result (text.new.items ≡ text.old.items ++ flat_map bar_text (runs_after first 0 1 looks.now)) }
{
    let mut mark = first;
    let mut from = 0u64;
    let mut count = 1u64;
    for look in looks {
        if is_alike(mark, look.mark) {
            count += 1;
        } else {
            push_bar(text, mark, from, count)?;
            mark = look.mark;
            from += count;
            count = 1;
        }
    }
    push_bar(text, mark, from, count)
}

// Adds the pages of a block.
fn push_bars(text: &mut Vec<u8>, looks: &[Look]) -> Result<(), Memory>
    requires { length looks.now < 2 ^ 32 }
    ensures { OnOk result (text.new.items ≡ text.old.items ++ bars_text looks.now) }
{
    match looks {
        [first, rest @ ..] => push_bars_after(text, first.mark, rest),
        [] => Ok(()),
    }
}

// Adds the row of a block, where this is the greatest wear of all.
#[tactic(auto, unfolding(crate::specs::Svg::row_text))]
fn push_row(
    text: &mut Vec<u8>,
    block: u32,
    is_virtual: bool,
    looks: &[Look],
    most: u32,
) -> Result<(), Memory>
    requires { length looks.now < 2 ^ 32 }
    ensures { OnOk result (text.new.items ≡ text.old.items ++ row_text block is_virtual looks.now most) }
{
    push_around(
        text,
        b"<g transform='translate(44,",
        8 * u64::from(block) + 140,
        b")'><title>",
    )?;
    push_words(text, block, is_virtual, looks)?;
    push_label(text, block, is_virtual)?;
    push_box(text, brightness_of(wear_of(looks), most))?;
    push_bars(text, looks)?;
    push(text, b"</g>\n")
}

// Adds the rows of all blocks.
#[tactic(auto, unfolding(crate::specs::Svg::rows_text))]
fn push_rows(text: &mut Vec<u8>, shape: &Shape, looks: &[Look]) -> Result<(), Memory>
    requires length { length looks.now ≡ shape.now.blocks * shape.now.pages }
    ensures { OnOk result (text.new.items ≡ text.old.items ++ rows_text shape.now looks.now) }
{
    let size = shape.pages as usize;
    let most = wear_of(looks);
    'blocks: for block in 0..shape.blocks {
        let from = block as usize * size;
        let own = &looks[from..from + size];
        push_row(text, block, block < shape.vblocks, own, most)?;
    }
    Ok(())
}

// ---- the document

/// Adds the picture of a map.
pub(crate) fn push_svg(
    text: &mut Vec<u8>,
    heading: &Heading,
    shape: &Shape,
    looks: &[Look],
) -> Result<(), Memory>
    requires { length looks.now ≡ shape.now.blocks * shape.now.pages }
    ensures { OnOk result (text.new.items ≡ text.old.items ++ svg_text (heading_text heading.now) shape.now looks.now) }
{
    push_head(text, shape)?;
    heading.push_to(text)?;
    push(text, b"</text>\n")?;
    push_legend(text, looks)?;
    push_rows(text, shape, looks)?;
    push(text, b"</svg>\n")
}
