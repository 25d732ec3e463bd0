// The commands that print the map of a medium.
ghost use Rattle.std.specs.Prelude.{◌≡◌, ℕ, None};
ghost use Rattle.nl_cmd_map.specs.Mapping.{MapEnds};
ghost use Rattle.nl_field.specs.Page.{Image};
ghost use Rattle.nl_map.specs.Forms.{map_in};
ghost use Rattle.nl_map.specs.Svg.{map_svg};
ghost use Rattle.nl_map.specs.Text.{map_text};
ghost use Rattle.nl_spec_headline.specs.Streams.{medium_seen, sink_seen};

use nl_cmd_words::{Done, carried_out, ended, faults_of, without_lines};
use nl_core_open::laws::sound_is_readable;
use nl_io::Sink;
use nl_map::{Drawn, Form, draw};
use nl_nand::Nand;
use nl_spec_image::laws::walk_finds_consistency;
use std::alloc::Global;

/// Prints as what a medium opens, the pages of each block, and how many there are of each kind. Where the volume does not open the status
/// is 7, and no page is judged. The medium is only read, and that before anything is printed.
pub fn map<K: Sink, M: Nand>(alloc: Global, sink: &mut K, media: M) -> Done<M>
    ensures ended { MapEnds map_text M.tells (sink_seen K.Sink sink.old) (sink_seen K.Sink sink.new)
        (medium_seen M.Nand media) (medium_seen M.Nand result.media)
        result.order.items result.syncs.items result.status }
    ensures refused { result.refused ≡ None }
    ensures left { M.tells → (m : ℕ) (c : Image) → M.left result.media m c → M.left media m c }
{
    map_as(alloc, sink, media, Form::Text)
}

/// Prints the same as a picture, in the language SVG.
pub fn map_svg<K: Sink, M: Nand>(alloc: Global, sink: &mut K, media: M) -> Done<M>
    ensures ended { MapEnds map_svg M.tells (sink_seen K.Sink sink.old) (sink_seen K.Sink sink.new)
        (medium_seen M.Nand media) (medium_seen M.Nand result.media)
        result.order.items result.syncs.items result.status }
    ensures refused { result.refused ≡ None }
    ensures left { M.tells → (m : ℕ) (c : Image) → M.left result.media m c → M.left media m c }
{
    map_as(alloc, sink, media, Form::Svg)
}

// Prints the map of a medium in a form.
fn map_as<K: Sink, M: Nand>(alloc: Global, sink: &mut K, media: M, form: Form) -> Done<M>
    ensures ended { MapEnds (map_in form) M.tells (sink_seen K.Sink sink.old) (sink_seen K.Sink sink.new)
        (medium_seen M.Nand media) (medium_seen M.Nand result.media)
        result.order.items result.syncs.items result.status }
    ensures refused { result.refused ≡ None }
    ensures left { M.tells → (m : ℕ) (c : Image) → M.left result.media m c → M.left media m c }
{
    sound_is_readable();
    walk_finds_consistency();
    let before = faults_of(&media);
    let (drawn, media) = draw(alloc, media, form);
    match drawn {
        Drawn::Map { heading, text } => {
            let answer = sink.write(&text);
            if heading.opens() {
                carried_out(alloc, before, answer, media)
            } else {
                without_lines(alloc, 7, media)
            }
        }
        Drawn::Unformed => ended(alloc, 7, b"blank", sink, media),
        Drawn::Fault => ended(alloc, 5, b"medium fault", sink, media),
        Drawn::Memory => ended(alloc, 6, b"memory", sink, media),
    }
}
