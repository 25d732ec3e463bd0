//! Draws the map of a medium.
ghost use Rattle.std.specs.Prelude.{◌≡◌, ◌⊎◌, ◌<◌, ◌*◌, ℕ, [], IfSome, IsTrue};
ghost use Rattle.nl_core_open.specs.Opening.{OnlyReadsMedium};
ghost use Rattle.nl_field.specs.CrashStates.{Rose};
ghost use Rattle.nl_field.specs.Medium.{readable_pages, shape_of_image};
ghost use Rattle.nl_field.specs.Numbers.{is_legal, shape_for};
ghost use Rattle.nl_field.specs.ScanList.{seen_in};
ghost use Rattle.nl_map.specs.Drawing.{DrawsImage, IfMap, IsHeading, IsSized, Judges};
ghost use Rattle.nl_map.specs.Forms.{drawn_text};
ghost use Rattle.nl_map_pages.specs.Judging.{IsJudge};
ghost use Rattle.nl_map_pages.specs.Marks.{looks_of};

use crate::form::{Form, drawn};
use crate::heading::Heading;
use crate::judging::{Judged, judge};
use nl_device::{Device, Started};
use nl_field::{Memory, Shape, shape_of};
use nl_map_pages::{Live, Stopped, looks};
use nl_nand::Nand;
use nl_recover::laws::openings_see_the_image;
use nl_scan::ScanTables;
use std::alloc::Global;

/// What drawing a map answers.
#[derive(Debug, Drop)]
pub enum Drawn {
    /// As what the medium opens, and the text of the map.
    Map { heading: Heading, text: Vec<u8> },
    /// The medium was never formed.
    Unformed,
    /// A read failed.
    Fault,
    Memory,
}

/// Draws the map of a medium in a form: as what it opens, the pages of each block, and how many there are of each kind. The medium is only
/// read, each page for its opening and once more for the map.
pub fn draw<M: Nand>(alloc: Global, media: M, form: Form) -> (Drawn, M)
    ensures map { M.tells → IfMap result.0 (DrawsImage form (M.contents media)) }
    ensures unformed { M.tells → result.0 ≡ Drawn.Unformed → readable_pages (M.contents media) ≡ [] }
    ensures medium { OnlyReadsMedium M.tells M.contents M.clock M.write_faults M.left media result.1 }
    ensures fault { result.0 ≡ Drawn.Fault → Rose (M.read_faults media) (M.read_faults result.1) }
    ensures no_fault { (result.0 ≡ Drawn.Fault → ⊥) → M.read_faults result.1 ≡ M.read_faults media }
{
    let geometry = media.geometry();
    openings_see_the_image();
    match shape_of(geometry.blocks, geometry.pages) {
        Some(shape) => draw_formed(alloc, media, shape, form),
        None => (Drawn::Unformed, media),
    }
}

// Draws the map of a medium that was formed.
fn draw_formed<M: Nand>(alloc: Global, media: M, shape: Shape, form: Form) -> (Drawn, M)
    requires legal { IsTrue (is_legal (M.geometry media).blocks (M.geometry media).pages) }
    requires shape { shape ≡ shape_for (M.geometry media).blocks (M.geometry media).pages }
    ensures map { M.tells → IfMap result.0 (DrawsImage form (M.contents media)) }
    ensures unformed { M.tells → result.0 ≡ Drawn.Unformed → readable_pages (M.contents media) ≡ [] }
    ensures medium { OnlyReadsMedium M.tells M.contents M.clock M.write_faults M.left media result.1 }
    ensures fault { result.0 ≡ Drawn.Fault → Rose (M.read_faults media) (M.read_faults result.1) }
    ensures no_fault { (result.0 ≡ Drawn.Fault → ⊥) → M.read_faults result.1 ≡ M.read_faults media }
{
    openings_see_the_image();
    match Device::start(alloc, media) {
        Started::Ready(device, scan) => {
            let (judged, media) = judge(alloc, device, &shape, &scan);
            draw_judged(alloc, media, judged, &scan, form)
        }
        Started::Fault(media) => (Drawn::Fault, media),
        Started::Memory(media) => (Drawn::Memory, media),
    }
}

// Draws the map of a medium on which an opening tells this.
fn draw_judged<M: Nand>(
    alloc: Global,
    media: M,
    judged: Judged,
    scan: &ScanTables,
    form: Form,
) -> (Drawn, M)
    requires sized { IsSized judged }
    ensures map { M.tells → Judges (M.contents media) judged → scan.now.seen ≡ seen_in (M.contents media)
        → IfMap result.0 (DrawsImage form (M.contents media)) }
    ensures unformed { M.tells → result.0 ≡ Drawn.Unformed → readable_pages (M.contents media) ≡ [] }
    ensures medium { OnlyReadsMedium M.tells M.contents M.clock M.write_faults M.left media result.1 }
    ensures fault { result.0 ≡ Drawn.Fault → ((judged ≡ Judged.Fault) × (M.read_faults result.1 ≡ M.read_faults media))
        ⊎ ((judged ≡ Judged.Fault → ⊥) × Rose (M.read_faults media) (M.read_faults result.1)) }
    ensures no_fault { (result.0 ≡ Drawn.Fault → ⊥) → (judged ≡ Judged.Fault → ⊥) × (M.read_faults result.1 ≡ M.read_faults media) }
{
    match judged {
        Judged::Opened(count, live) => {
            let heading = heading_of(scan, Heading::Opened(count));
            look_over(alloc, media, heading, &Some(live), form)
        }
        Judged::Damaged(place) => {
            let heading = heading_of(scan, Heading::Damaged(place));
            look_over(alloc, media, heading, &None, form)
        }
        Judged::Fault => (Drawn::Fault, media),
        Judged::Memory => (Drawn::Memory, media),
    }
}

// The heading of an opening, or that of a medium of which no page is readable.
fn heading_of(scan: &ScanTables, heading: Heading) -> Heading
    ensures blank { scan.now.seen ≡ [] → result ≡ Heading.Blank }
    ensures seen { (scan.now.seen ≡ [] → ⊥) → result ≡ heading }
{
    if scan.len() == 0 {
        Heading::Blank
    } else {
        heading
    }
}

// Looks at each page, and puts the map together.
fn look_over<M: Nand>(
    alloc: Global,
    media: M,
    heading: Heading,
    live: &Option<Live>,
    form: Form,
) -> (Drawn, M)
    requires size { IfSome live.now (λ l. 0 < l.shape.pages) }
    ensures map { M.tells → IsJudge (M.contents media) live.now → IsHeading (M.contents media) heading
        → IfMap result.0 (DrawsImage form (M.contents media)) }
    ensures unformed { M.tells → result.0 ≡ Drawn.Unformed → readable_pages (M.contents media) ≡ [] }
    ensures medium { OnlyReadsMedium M.tells M.contents M.clock M.write_faults M.left media result.1 }
    ensures fault { result.0 ≡ Drawn.Fault → Rose (M.read_faults media) (M.read_faults result.1) }
    ensures no_fault { (result.0 ≡ Drawn.Fault → ⊥) → M.read_faults result.1 ≡ M.read_faults media }
{
    openings_see_the_image();
    let mut media = media;
    let geometry = media.geometry();
    let Some(shape) = shape_of(geometry.blocks, geometry.pages) else {
        return (Drawn::Unformed, media);
    };
    match looks(alloc, &mut media, live, geometry.blocks * geometry.pages) {
        Ok(looks) => match drawn(alloc, form, &heading, &shape, &looks) {
            Ok(text) => (Drawn::Map { heading, text }, media),
            Err(Memory) => (Drawn::Memory, media),
        },
        Err(Stopped::Fault) => (Drawn::Fault, media),
        Err(Stopped::Memory) => (Drawn::Memory, media),
    }
}
