// Which trees images represent, and which images open as a prefix of a run, computed from the definitions.
ghost use Rattle.std.specs.Prelude.{◌≡◌, ℕ, ⊤, ◌∷◌, []};
ghost use Rattle.nl_field.specs.Page.{uncorrectable};
ghost use Rattle.nl_field.specs.Examples.{fresh_image, short_page};
ghost use Rattle.nl_tree.specs.Tree.{Tree, empty_tree};
ghost use Rattle.nl_test_volume_format.specs.Examples.{image_of_a, hello_page, long_page};
ghost use Rattle.nl_spec_image.specs.Crash.{OpensAsPrefix, CrashesSafely};
ghost use Rattle.nl_test_volume_format.specs.Trees.{tree_with_a, run_of_a, run_from_two, after_one, after_two, opens_as};
ghost use Rattle.nl_spec_image.specs.Formatted.{IsFormatted};
ghost use Rattle.nl_spec_image.specs.Stands.{ImageRepresents, ConsistentAs, IsConsistentImage};

/// What `format 32 32` leaves opens as the tree with only the root, after no call.
pub fn fresh_stands()
    ensures { ConsistentAs fresh_image 0 empty_tree }
{}

/// The fresh image is as a format leaves it for these numbers, and for no others. An image with a file is not.
pub fn fresh_is_formatted()
    ensures formatted { IsFormatted 32 32 fresh_image }
    ensures other { IsFormatted 32 64 fresh_image → ⊥ }
    ensures used { IsFormatted 32 32 (image_of_a hello_page) → ⊥ }
{}

/// The root has one entry, of a file with one page.
pub fn a_stands()
    ensures { ConsistentAs (image_of_a hello_page) 2 tree_with_a }
{}

/// A page of five main bytes is no page, whatever else stands there.
pub fn no_short_pages()
    ensures { (count : ℕ) (tree : Tree) → ImageRepresents short_page count tree → ⊥ }
{}

/// Without the page of a pointer, or with bytes behind the file's size, an image is not sound.
pub fn damaged()
    ensures no_page { IsConsistentImage (image_of_a uncorrectable) → ⊥ }
    ensures behind { IsConsistentImage (image_of_a long_page) → ⊥ }
{}

/// A fresh image opens as no call of a list, unless a sync made one durable before.
pub fn prefixes()
    ensures none { OpensAsPrefix ConsistentAs (run_of_a []) 5 fresh_image }
    ensures later { OpensAsPrefix ConsistentAs (run_of_a (record { upto = 1; moment = 6 } ∷ [])) 5 fresh_image }
    ensures synced { OpensAsPrefix ConsistentAs (run_of_a (record { upto = 1; moment = 5 } ∷ [])) 5 fresh_image → ⊥ }
{}

/// Two calls after the second of a volume: an image opens so as the tree after 2, 3 or 4 calls, and not as that after more or fewer.
pub fn prefixes_of_two()
    ensures first { OpensAsPrefix opens_as (run_from_two []) 5 (2, tree_with_a) }
    ensures second { OpensAsPrefix opens_as (run_from_two []) 5 (3, after_one) }
    ensures third { OpensAsPrefix opens_as (run_from_two []) 5 (4, after_two) }
    ensures early { OpensAsPrefix opens_as (run_from_two []) 5 (1, tree_with_a) → ⊥ }
    ensures ahead { OpensAsPrefix opens_as (run_from_two []) 5 (5, after_two) → ⊥ }
    ensures other { OpensAsPrefix opens_as (run_from_two []) 5 (3, after_two) → ⊥ }
{}

/// What is left behind the last moment, or before the first, is not safely left.
pub fn moments()
    ensures within { CrashesSafely opens_as (λ m c. ⊥) (λ m c. (m ≡ 7) × (c ≡ (2, tree_with_a))) 7 7 (run_from_two []) }
    ensures too_late { CrashesSafely opens_as (λ m c. ⊥) (λ m c. (m ≡ 8) × (c ≡ (2, tree_with_a))) 7 7 (run_from_two []) → ⊥ }
    ensures too_early { CrashesSafely opens_as (λ m c. ⊥) (λ m c. (m ≡ 6) × (c ≡ (2, tree_with_a))) 7 7 (run_from_two []) → ⊥ }
{}
