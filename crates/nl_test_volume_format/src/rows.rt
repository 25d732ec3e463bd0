//! Rows: examples of what an opening tells of an image, and of an image that opens as new.
ghost use Rattle.std.specs.Prelude.{◌≡◌, ◌∷◌, [], false, true};
ghost use Rattle.nl_field.specs.Examples.{fresh_image};
ghost use Rattle.nl_field.specs.declared.spare.SpareRec.TheVariants.{Physical, Virtual};
ghost use Rattle.nl_volume_format.specs.Making.{OpensAsNew};
ghost use Rattle.nl_test_volume_format.specs.Examples.{hello_page, image_of_a};
ghost use Rattle.nl_test_volume_format.specs.Phases.{blank_image, consistent_image, copied, moved_page};
ghost use Rattle.nl_core_open.specs.Beginning.{stopped_by};
ghost use Rattle.nl_core_open.specs.Figures.{greatest_seen, is_moved, least_seen, pairs_of};

/// A pointer whose page was moved has a pair, and so has each whose page lies in the block that is kept as the spare one.
pub fn pairs()
    ensures none { pairs_of fresh_image ≡ 0 }
    ensures own { pairs_of consistent_image ≡ 0 }
    ensures moved { pairs_of moved_page ≡ 1 }
    ensures in_spare { pairs_of copied ≡ 2 }
{}

/// Which pointer is moved.
pub fn moved_pointers()
    ensures first { is_moved moved_page (record { name = 256; stamp = 3 }) ≡ false }
    ensures second { is_moved moved_page (record { name = 257; stamp = 4 }) ≡ true }
{}

/// Pages of both segments count, and none at all is 0.
pub fn wears()
    ensures no_least { least_seen [] ≡ 0 }
    ensures no_greatest { greatest_seen [] ≡ 0 }
    ensures least { least_seen (record { page = 3; rec = Virtual 0 1 5; zeros = 0; agrees = true } ∷ record { page = 300; rec = Physical (record { ino = 1; generation = 1; index = 0 }) 2 4; zeros = 0; agrees = true } ∷ record { page = 301; rec = Physical (record { ino = 1; generation = 1; index = 1 }) 3 9; zeros = 0; agrees = false } ∷ []) ≡ 4 }
    ensures greatest { greatest_seen (record { page = 3; rec = Virtual 0 1 5; zeros = 0; agrees = true } ∷ record { page = 300; rec = Physical (record { ino = 1; generation = 1; index = 0 }) 2 4; zeros = 0; agrees = true } ∷ record { page = 301; rec = Physical (record { ino = 1; generation = 1; index = 1 }) 3 9; zeros = 0; agrees = false } ∷ []) ≡ 9 }
{}

/// A volume is begun read-only only where its count of failed writes stands at its end.
pub fn begun_read_only()
    ensures none { stopped_by 0 ≡ 0 }
    ensures below { stopped_by 18446744073709551614 ≡ 0 }
    ensures at_end { stopped_by 18446744073709551615 ≡ 18446744073709551615 }
{}

/// An image without a readable page opens as new, and so does what `format 32 32` leaves. One with a file does not.
pub fn new_images()
    ensures blank { OpensAsNew blank_image }
    ensures fresh { OpensAsNew fresh_image }
    ensures used { OpensAsNew (image_of_a hello_page) → ⊥ }
{}
