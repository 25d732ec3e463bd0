//! As what a map is drawn.
ghost use Rattle.std.specs.Prelude.{◌≡◌, ◌*◌, length, IfOk};
ghost use Rattle.nl_map.specs.Drawing.{heading_text};
ghost use Rattle.nl_map.specs.Forms.{drawn_text};

use crate::heading::Heading;
use crate::svg::push_svg;
use crate::text::push_body;
use nl_field::{Memory, Shape};
use nl_map_pages::Look;
use std::alloc::Global;

/// As what a map is drawn.
#[derive(Clone, Copy, Debug, PartialEq, Eq)]
pub enum Form {
    /// Lines of text, with a character for each page.
    Text,
    /// A picture in the language SVG, with a colour for each page.
    Svg,
}

/// The map of pages that are found so.
pub(crate) fn drawn(
    alloc: Global,
    form: Form,
    heading: &Heading,
    shape: &Shape,
    looks: &[Look],
) -> Result<Vec<u8>, Memory>
    requires { length looks.now ≡ shape.now.blocks * shape.now.pages }
    ensures { IfOk result (λ text. text.items ≡ drawn_text form (heading_text heading.now) shape.now looks.now) }
{
    let mut text = Vec::new(alloc);
    match form {
        Form::Text => {
            heading.push_to(&mut text)?;
            push_body(&mut text, shape, looks)?;
        }
        Form::Svg => push_svg(&mut text, heading, shape, looks)?,
    }
    Ok(text)
}
