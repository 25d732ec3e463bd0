//! The check of a medium: it is started and read as by an opening, and each phase of the walk is judged. Nothing is written.
ghost use Rattle.std.specs.Prelude.{◌≡◌, ◌≢◌, ℕ, [], IsTrue};
ghost use Rattle.nl_check.specs.Checking.{Checks, ChecksOver, IfFound, IsCheckFault};
ghost use Rattle.nl_field.specs.CrashStates.{Rose};
ghost use Rattle.nl_field.specs.Medium.{readable_pages};
ghost use Rattle.nl_field.specs.Numbers.{ShapeBounds, is_legal, shape_for};
ghost use Rattle.nl_field.specs.Page.{Image};
ghost use Rattle.nl_iface.specs.Calls.{OnlyReads, ReadsCounted};
ghost use Rattle.nl_meta.specs.Committed.{committed};
ghost use Rattle.nl_meta.specs.Pages.{page_of};
ghost use Rattle.nl_meta_running.specs.Running.{stored_on};

use crate::judging::{calls_in, judge};
use crate::reading::{ReadAll, read_all};
use nl_device::{Device, Started};
use nl_field::{Findings, Memory, Shape, shape_of};
use nl_iface::VirtualPages;
use nl_meta::Meta;
use nl_nand::Nand;
use nl_recover::laws::openings_see_the_image;
use nl_scan::ScanTables;
use std::alloc::Global;

/// What a check answers.
#[derive(Debug, Drop)]
pub enum Checked {
    /// What is at fault, nothing where the image is sound, and then the count of calls that it has answered, else 0.
    Found { bits: Findings, count: u64 },
    /// No page is readable.
    Blank,
    /// A read failed.
    Fault,
    Memory,
}

/// Checks what a medium holds. The finding of each phase of a walk is set exactly where the phase has a fault; only after `super`, and after
/// `inode`, no later one is. So none is set exactly where the image is sound, and else that of the walk's first fault is. A page that is not
/// readable has no bytes, and later phases pass over it. The medium is only read.
pub fn findings<M: Nand>(alloc: Global, media: M) -> (Checked, M)
    ensures found { M.tells → IfFound result.0 (Checks (M.contents media)) }
    ensures readable { M.tells → IfFound result.0 (λ bits count. readable_pages (M.contents media) ≢ []) }
    ensures blank { M.tells → result.0 ≡ Checked.Blank → readable_pages (M.contents media) ≡ [] }
    ensures fault { result.0 ≡ Checked.Fault → Rose (M.read_faults media) (M.read_faults result.1) }
    ensures no_fault { (result.0 ≡ Checked.Fault → ⊥) → M.read_faults result.1 ≡ M.read_faults media }
    ensures contents { M.tells → M.contents result.1 ≡ M.contents media }
    ensures left { M.tells → (m : ℕ) (c : Image) → M.left result.1 m c → M.left media m c }
    ensures clock { M.clock result.1 ≡ M.clock media }
    ensures write_faults { M.write_faults result.1 ≡ M.write_faults media }
{
    let geometry = media.geometry();
    openings_see_the_image();
    match shape_of(geometry.blocks, geometry.pages) {
        Some(shape) => check_formed(alloc, media, shape),
        None => (Checked::Blank, media),
    }
}

// Checks what a medium holds that was formed.
fn check_formed<M: Nand>(alloc: Global, media: M, shape: Shape) -> (Checked, M)
    requires legal { IsTrue (is_legal (M.geometry media).blocks (M.geometry media).pages) }
    requires shape { shape ≡ shape_for (M.geometry media).blocks (M.geometry media).pages }
    ensures found { M.tells → IfFound result.0 (Checks (M.contents media)) }
    ensures readable { M.tells → IfFound result.0 (λ bits count. readable_pages (M.contents media) ≢ []) }
    ensures blank { M.tells → result.0 ≡ Checked.Blank → readable_pages (M.contents media) ≡ [] }
    ensures fault { result.0 ≡ Checked.Fault → Rose (M.read_faults media) (M.read_faults result.1) }
    ensures no_fault { (result.0 ≡ Checked.Fault → ⊥) → M.read_faults result.1 ≡ M.read_faults media }
    ensures contents { M.tells → M.contents result.1 ≡ M.contents media }
    ensures left { M.tells → (m : ℕ) (c : Image) → M.left result.1 m c → M.left media m c }
    ensures clock { M.clock result.1 ≡ M.clock media }
    ensures write_faults { M.write_faults result.1 ≡ M.write_faults media }
{
    match Device::start(alloc, media) {
        Started::Ready(device, scan) => {
            if scan.len() == 0 {
                return (Checked::Blank, device.into_media());
            }
            let mut device = device;
            let checked = check_started(alloc, &mut device, &shape, &scan);
            (checked, device.into_media())
        }
        Started::Fault(media) => (Checked::Fault, media),
        Started::Memory(media) => (Checked::Memory, media),
    }
}

// Checks the volume of a device that was started, beside the pages that a scan saw.
fn check_started<D: VirtualPages>(
    alloc: Global,
    device: &mut D,
    shape: &Shape,
    scan: &ScanTables,
) -> Checked
    requires formed { D.formed device.old }
    requires shape { shape.now ≡ D.shape device.old }
    ensures device { OnlyReads D.Counts device.old device.new }
    ensures faults { ReadsCounted D.Counts (IsCheckFault result) device.old device.new }
    ensures told { D.tells
        → IfFound result (ChecksOver shape.now (committed shape.now (stored_on D.Counts device.old)) scan.now.seen) }
    ensures not_blank { result ≢ Checked.Blank }
{
    match read_all(alloc, device, shape) {
        ReadAll::Done(meta) => checked_of(alloc, shape, &meta, scan),
        ReadAll::Fault => Checked::Fault,
        ReadAll::Memory => Checked::Memory,
    }
}

// What is found of the pages that are resident.
fn checked_of(alloc: Global, shape: &Shape, meta: &Meta, scan: &ScanTables) -> Checked
    requires { ShapeBounds shape.now }
    ensures found { IfFound result (ChecksOver shape.now (page_of meta.now) scan.now.seen) }
    ensures no_fault { IsCheckFault result → ⊥ }
    ensures not_blank { result ≢ Checked.Blank }
{
    match judge(alloc, shape, meta, scan) {
        Ok(bits) => Checked::Found {
            bits,
            count: if bits.is_none() { calls_in(meta) } else { 0 },
        },
        Err(Memory) => Checked::Memory,
    }
}
