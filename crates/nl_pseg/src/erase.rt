// Erases the victim.
ghost use Rattle.std.specs.Prelude.{◌≡◌, ◌↔◌, ℕ, ◌+◌, ◌/◌, Some, None};
ghost use Rattle.nl_field.specs.CrashStates.{saturated};
ghost use Rattle.nl_nand.specs.Nand.{FaultsCounted};
ghost use Rattle.nl_blocks.specs.Table.{IsBlockTable};
ghost use Rattle.nl_pseg.specs.Cleaning.{ErasesBlock};
ghost use Rattle.nl_pseg.specs.Copies.{ErasesIfDone, ErasesOn};
ghost use Rattle.nl_pseg.specs.Kept.{kept};
ghost use Rattle.nl_pseg.specs.Moving.{IsConsistent};
ghost use Rattle.nl_pseg.specs.Segment.{IsPhysicalOf, held_at};
ghost use Rattle.nl_pseg.specs.Seen.{seen, FitsPhysical, IsPhysicalFormed, IsTied};
ghost use Rattle.nl_pseg.specs.Space.{HasFewPairs, left_in_victim, victims};

use crate::cleaned::Erasure;
use crate::state::State;
use nl_nand::{Nand, WriteAnswer};

impl State {
    /// The victim was erased.
    fn release(&mut self, victim: u32)
        requires formed { IsPhysicalFormed (kept self.old) }
        requires tied { IsTied (kept self.old) }
        requires victim { self.old.victim ≡ Some victim }
        requires dead { (page : ℕ) → page / self.old.blocks.size ≡ victim → held_at (seen (kept self.old)) page ≡ None }
        ensures formed { IsPhysicalFormed (kept self.new) }
        ensures tied { IsTied (kept self.new) }
        ensures few { HasFewPairs (seen (kept self.new)) }
        ensures table { IsBlockTable self.new.blocks }
        ensures erases { ErasesBlock victim (seen (kept self.old)) (seen (kept self.new)) }
    {
        let _ = self.blocks.count();
        let names = self.names.count(victim);
        self.blocks.erased(victim, names);
        let _ = self.blocks.count();
        self.soiled[victim as usize] = None;
        self.victim = None;
    }

    /// Erases the victim, where no page of it is live.
    pub fn erase_victim<M: Nand>(&mut self, media: &mut M) -> Erasure
        requires consistent { IsConsistent (kept self.old) }
        requires fits { FitsPhysical (M.geometry media.old) (seen (kept self.old)) }
        requires segment { M.tells → IsPhysicalOf (M.contents media.old) (seen (kept self.old)) }
        ensures consistent { IsConsistent (kept self.new) }
        ensures table { IsBlockTable self.new.blocks }
        ensures nothing { result ≡ Erasure.Nothing ↔ ((victims (seen (kept self.old)) ≡ 1) × (left_in_victim (seen (kept self.old)) ≡ 0) → ⊥) }
        ensures refused { result ≡ Erasure.Nothing → media.new ≡ media.old }
        ensures erases { ErasesIfDone result (seen (kept self.old)) (seen (kept self.new)) }
        ensures medium { M.tells → ErasesOn M.clock M.contents M.left result (seen (kept self.old))
            (seen (kept self.new)) media.old media.new }
        ensures geometry { M.geometry media.new ≡ M.geometry media.old }
        ensures clock { (result ≡ Erasure.Done → M.clock media.new ≡ saturated (M.clock media.old + 1))
            × ((result ≡ Erasure.Done → ⊥) → M.clock media.new ≡ M.clock media.old) }
        ensures read_faults { M.read_faults media.new ≡ M.read_faults media.old }
        ensures write_faults { FaultsCounted (M.write_faults media.old) (M.write_faults media.new) (result ≡ Erasure.Fault) }
    {
        let _ = self.blocks.count();
        let Some(victim) = self.victim else {
            return Erasure::Nothing;
        };
        if self.first_live(victim).is_some() {
            return Erasure::Nothing;
        }
        match media.erase(victim) {
            WriteAnswer::Failed => Erasure::Fault,
            WriteAnswer::Done => {
                self.release(victim);
                Erasure::Done
            }
        }
    }
}
