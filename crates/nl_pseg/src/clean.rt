// What a segment does to be cleaned.
ghost use Rattle.std.specs.Prelude.{◌≡◌, ◌⊎◌, ℕ, ◌+◌, ◌<◌, ◌↔◌, IsTrue};
ghost use Rattle.std.specs.Bool.{OnTrue, OnFalse};
ghost use Rattle.nl_field.specs.CrashStates.{Rose, saturated};
ghost use Rattle.nl_field.specs.Page.{Image};
ghost use Rattle.nl_nand.specs.Nand.{FaultsCounted};
ghost use Rattle.nl_pseg.specs.Cleaning.{BeginsBlock, CannotBegin, CountedMove, IsChosen};
ghost use Rattle.nl_pseg.specs.Copies.{CopiesOn, CopiesPage, ErasesIfDone, ErasesOn};
ghost use Rattle.nl_pseg.specs.Segment.{CanSpareBlock, IsClean, IsPhysicalOf, KeepsBlock};
ghost use Rattle.nl_pseg.specs.Seen.{FitsPhysical};
ghost use Rattle.nl_pseg.specs.Space.{HasRoomForVictim, IsWhole, left_in_victim, victims};
ghost use Rattle.nl_pseg.specs.Tries.{SpendsTriedCopy};

use crate::cleaned::{Copied, Erasure};
use crate::pseg::PSeg;
use nl_field::PageBuf;
use nl_nand::Nand;

impl PSeg {
    /// Takes a Sealed block as the victim: where `cold`, the least worn one, if some block was erased at least 16 times more; else the
    /// one with the most pages that are not live. False exactly where a victim is in hand, the table has more than twice as many
    /// pairs as a block has pages, no block is Free, or there is no such block.
    pub fn begin(&mut self, cold: bool) -> bool
        ensures begun { OnTrue result ((block : ℕ) × IsChosen cold self.old block × BeginsBlock block self.old self.new) }
        ensures none { OnFalse result (self.new ≡ self.old) }
        ensures cannot { IsTrue result ↔ (CannotBegin cold self.old → ⊥) }
        ensures whole { IsWhole self.new }
        ensures segment { (image : Image) → IsPhysicalOf image self.old → IsPhysicalOf image self.new }
        ensures spare { (image : Image) → CanSpareBlock image self.old → CanSpareBlock image self.new }
        ensures clean { IsClean self.old → IsClean self.new }
        ensures kept { KeepsBlock self.old → KeepsBlock self.new }
    {
        let begun = self.state.begin(cold);
        self.state.whole();
        begun
    }

    /// Moves one live page of the victim: it is read, and programmed with its owner, its number and its bytes as a copy, to which all
    /// names lead that led to it. `Nothing` exactly where no victim with a live page is in hand; `Lost` only where the page read does
    /// not hold its number; `Fault` only where the medium failed. The page of a copy whose program failed is not given out again before
    /// its block is erased.
    pub fn copy_one<M: Nand>(&mut self, media: &mut M, buf: &mut PageBuf) -> Copied
        requires fits { FitsPhysical (M.geometry media.old) self.old }
        requires lands { HasRoomForVictim self.old }
        requires segment { M.tells → IsPhysicalOf (M.contents media.old) self.old }
        ensures nothing { result ≡ Copied.Nothing ↔ left_in_victim self.old ≡ 0 }
        ensures refused { result ≡ Copied.Nothing → (self.new ≡ self.old) × (media.new ≡ media.old) }
        ensures copies { CopiesPage result self.old self.new }
        ensures whole { IsWhole self.new }
        ensures lands { Rose (M.write_faults media.old) (M.write_faults media.new) ⊎ HasRoomForVictim self.new }
        ensures medium { M.tells → CopiesOn M.clock M.contents M.left result self.old self.new media.old media.new }
        ensures geometry { M.geometry media.new ≡ M.geometry media.old }
        ensures tried { SpendsTriedCopy result (M.write_faults media.old < M.write_faults media.new) self.old self.new }
        ensures counts { CountedMove M.clock M.read_faults M.write_faults (IsClean self.old) media.old media.new result }
    {
        let copied = self.state.copy_one(media, buf);
        self.state.whole();
        copied
    }

    /// Erases the victim, where no page of it is live: it is Free, or waits for the old names that stand in it. `Nothing` exactly where
    /// no victim without live pages is in hand; `Fault` only where the medium failed, and then the victim stays in hand.
    pub fn erase_victim<M: Nand>(&mut self, media: &mut M) -> Erasure
        requires fits { FitsPhysical (M.geometry media.old) self.old }
        requires segment { M.tells → IsPhysicalOf (M.contents media.old) self.old }
        ensures nothing { result ≡ Erasure.Nothing ↔ ((victims self.old ≡ 1) × (left_in_victim self.old ≡ 0) → ⊥) }
        ensures refused { result ≡ Erasure.Nothing → media.new ≡ media.old }
        ensures erases { ErasesIfDone result self.old self.new }
        ensures whole { IsWhole self.new }
        ensures medium { M.tells → ErasesOn M.clock M.contents M.left result self.old self.new media.old media.new }
        ensures geometry { M.geometry media.new ≡ M.geometry media.old }
        ensures clock { (result ≡ Erasure.Done → M.clock media.new ≡ saturated (M.clock media.old + 1))
            × ((result ≡ Erasure.Done → ⊥) → M.clock media.new ≡ M.clock media.old) }
        ensures read_faults { M.read_faults media.new ≡ M.read_faults media.old }
        ensures write_faults { FaultsCounted (M.write_faults media.old) (M.write_faults media.new) (result ≡ Erasure.Fault) }
    {
        let erased = self.state.erase_victim(media);
        self.state.whole();
        erased
    }
}
