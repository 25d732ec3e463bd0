ghost use Rattle.std.specs.Prelude.{◌≡◌, ◌⊎◌, ◌+◌, ◌<◌, ◌*◌, ℕ, IsTrue, IsFalse};
ghost use Rattle.nl_field.specs.CrashStates.{Rose};
ghost use Rattle.nl_field.specs.Numbers.{is_legal};
ghost use Rattle.nl_field.specs.Page.{Image, written};
ghost use Rattle.nl_volume_format.specs.Making.{IfMade, IfMakeMemory, IsMakeFault, OpensAsNew, made_medium};
ghost use Rattle.nl_nand.specs.Nand.{CanProgram, CrashLeaves, FaultsCounted, OperationLeaves, OperationCounted, Unchanged};
ghost use Rattle.nl_spec_image.specs.Formatted.{IsFormatted};
ghost use Rattle.nl_spec_image.specs.Stands.{ConsistentAs};
ghost use Rattle.nl_tree.specs.Tree.{empty_tree};

use crate::laws::makings_are_safe;
use crate::pages::{put_root, put_super};
use nl_field::{Memory, PageBuf};
use nl_nand::{FormAnswer, Nand, WriteAnswer};
use std::alloc::Global;

/// What making a volume answers: the medium.
#[derive(Drop)]
pub enum Made<M: Nand> {
    /// The medium holds an empty volume.
    Done(M),
    /// The forming or a program failed.
    Fault(M),
    Memory(M),
}

/// Makes an empty volume of these numbers on a medium: it is formed, and then the first page of nodes and the super page are written, which
/// have the first two write sequence numbers and no wear. Whatever it held is gone. A stop after the forming leaves a blank image, one
/// damaged at its super page, or the empty volume.
pub fn make<M: Nand>(alloc: Global, media: M, blocks: u32, pages: u32) -> Made<M>
    requires { IsTrue (is_legal blocks pages) }
    ensures done { IfMade result (λ m. M.geometry m ≡ record { blocks = blocks; pages = pages }) }
    ensures formatted { M.tells → IfMade result (λ m. IsFormatted blocks pages (M.contents m)) }
    ensures stands { M.tells → IfMade result (λ m. ConsistentAs (M.contents m) 0 empty_tree) }
    ensures fault { IsMakeFault result → Rose (M.write_faults media) (M.write_faults (made_medium result)) }
    ensures no_fault { (IsMakeFault result → ⊥) → M.write_faults (made_medium result) ≡ M.write_faults media }
    ensures memory { IfMakeMemory result (λ m. Unchanged M.geometry M.contents M.left media m) }
    ensures clock { IfMakeMemory result (λ m. M.clock m ≡ M.clock media) }
    ensures left { M.tells → (m : ℕ) (c : Image) → M.left (made_medium result) m c → M.left media m c ⊎ OpensAsNew c }
    ensures read_faults { M.read_faults (made_medium result) ≡ M.read_faults media }
{
    let mut page = match PageBuf::new(alloc) {
        Ok(page) => page,
        Err(Memory) => return Made::Memory(media),
    };
    let mut media = media;
    match media.form(blocks, pages) {
        FormAnswer::Done => {}
        FormAnswer::Failed => return Made::Fault(media),
        FormAnswer::Memory => return Made::Memory(media),
    }
    makings_are_safe();
    put_root(&mut page);
    match media.program(0, &page) {
        WriteAnswer::Done => {}
        WriteAnswer::Failed => return Made::Fault(media),
    }
    put_super(&mut page, blocks, pages);
    match media.program(1, &page) {
        WriteAnswer::Done => Made::Done(media),
        WriteAnswer::Failed => Made::Fault(media),
    }
}
