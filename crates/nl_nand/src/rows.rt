//! Examples of a medium. Each function stands for the example that its contract states.
ghost use Rattle.std.specs.Prelude.{◌≡◌, ℕ, ◌<◌, ◌∷◌, []};
ghost use Rattle.nl_field.specs.Page.{Page, erased, uncorrectable, Image, page_at};
ghost use Rattle.nl_nand.specs.Nand.{CanProgram, Cut};
ghost use Rattle.nl_nand.specs.Stop.{outcome_of, page_after};
ghost use Rattle.nl_nand.specs.declared.stop.Cut.TheVariants as cut;

/// A page before one that is not erased cannot be programmed.
pub fn not_before_a_written_page()
    ensures { CanProgram (record { blocks = 1; pages = 2; contents = erased ∷ uncorrectable ∷ [] }) 0 → ⊥ }
{}

/// A program of page 1 that is cut short leaves page 0.
pub fn a_cut_leaves_the_page_before()
    ensures { (value : Page) (old new : Image) → Cut 1 2 value old new → page_at new 0 ≡ page_at old 0 }
{}

/// The ternary digits of 7 are 1 and 2, the least first: the first page is finished, the second is lost, and the others stay.
pub fn mixed_by_seven()
    ensures first { (value old : Page) → page_after (outcome_of (cut.Mixed 7) 0) value old ≡ value }
    ensures second { (value old : Page) → page_after (outcome_of (cut.Mixed 7) 1) value old ≡ uncorrectable }
    ensures third { (value old : Page) → page_after (outcome_of (cut.Mixed 7) 2) value old ≡ old }
    ensures again { (value old : Page) → page_after (outcome_of (cut.Mixed 7) 41) value old ≡ uncorrectable }
{}
