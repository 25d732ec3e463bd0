// A new volume on a medium.
ghost use Rattle.std.specs.Prelude.{◌≡◌, ◌⊎◌, ℕ, IsTrue};
ghost use Rattle.nl_field.specs.CrashStates.{Rose};
ghost use Rattle.nl_field.specs.Numbers.{is_legal};
ghost use Rattle.nl_field.specs.Page.{Image};
ghost use Rattle.nl_volume_format.specs.Making.{IfMade, IfMakeMemory, IsMakeFault, OpensAsNew, made_medium};
ghost use Rattle.nl_nand.specs.Nand.{Unchanged};
ghost use Rattle.nl_spec_image.specs.Formatted.{IsFormatted};
ghost use Rattle.nl_spec_image.specs.Stands.{ConsistentAs};
ghost use Rattle.nl_tree.specs.Tree.{empty_tree};

use crate::volume::Volume;
use nl_nand::Nand;
use nl_volume_format::Made;
use std::alloc::Global;

impl<M: Nand> Volume<M> {
    /// Makes an empty volume of these numbers on a medium: it stands for the empty tree after no call. Whatever the medium held is gone. A
    /// stop after the forming leaves a blank image, one damaged at its super page, or the empty volume.
    pub fn make(alloc: Global, media: M, blocks: u32, pages: u32) -> Made<M>
        requires { IsTrue (is_legal blocks pages) }
        ensures done { IfMade result (λ m. M.geometry m ≡ record { blocks = blocks; pages = pages }) }
        ensures formatted { M.tells → IfMade result (λ m. IsFormatted blocks pages (M.contents m)) }
        ensures stands { M.tells → IfMade result (λ m. ConsistentAs (M.contents m) 0 empty_tree) }
        ensures fault { IsMakeFault result → Rose (M.write_faults media) (M.write_faults (made_medium result)) }
        ensures no_fault { (IsMakeFault result → ⊥) → M.write_faults (made_medium result) ≡ M.write_faults media }
        ensures memory { IfMakeMemory result (λ m. Unchanged M.geometry M.contents M.left media m) }
        ensures clock { IfMakeMemory result (λ m. M.clock m ≡ M.clock media) }
        ensures left { M.tells → (m : ℕ) (c : Image) → M.left (made_medium result) m c → M.left media m c ⊎ OpensAsNew c }
        ensures read_faults { M.read_faults (made_medium result) ≡ M.read_faults media }
    {
        nl_volume_format::make(alloc, media, blocks, pages)
    }
}
