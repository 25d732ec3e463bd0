//! Rows of the definitions: lines of a map, and which page is read under an address.
ghost use Rattle.std.specs.Prelude.{◌≡◌, ◌∷◌, [], codes, None, Some, true, false};
ghost use Rattle.nl_map.specs.Text.{block_text, first_text, last_text};
ghost use Rattle.nl_map_pages.specs.Looks.{read_under};
ghost use Rattle.nl_map_pages.specs.Marks.{is_page};
ghost use Rattle.nl_test_map.specs.Examples.{bad, copied, dead, erased, live, moved, old, unjudged};

/// A block with a live page is used, and one that has only dead pages is not; the wear is the greatest of its pages.
pub fn used_block()
    ensures line { block_text 8 false (live 3 ∷ dead 1 ∷ old 2 ∷ erased ∷ []) ≡ codes "block 8 physical used wear 3\n#-o.\n" }
    ensures dead { block_text 8 false (dead 0 ∷ []) ≡ codes "block 8 physical free wear 0\n-\n" }
{}

/// A block that is erased, one without a live page, one that was not judged, and one with no written page.
pub fn other_blocks()
    ensures erased { block_text 0 true (erased ∷ erased ∷ []) ≡ codes "block 0 virtual erased wear 0\n..\n" }
    ensures free { block_text 1 true (dead 4 ∷ erased ∷ []) ≡ codes "block 1 virtual free wear 4\n-.\n" }
    ensures written { block_text 9 false (unjudged 2 ∷ bad ∷ []) ≡ codes "block 9 physical written wear 2\n?x\n" }
    ensures bad { block_text 9 false (bad ∷ erased ∷ []) ≡ codes "block 9 physical free wear 0\nx.\n" }
{}

/// What each character says, and how many pages have it.
pub fn totals()
    ensures first { first_text (live 0 ∷ dead 0 ∷ live 1 ∷ erased ∷ bad ∷ []) ≡ codes ". erased 1\n- dead 1\n# live 2\n" }
    ensures last { last_text (live 0 ∷ dead 0 ∷ live 1 ∷ erased ∷ bad ∷ []) ≡ codes "o old copy 0\nx uncorrectable 1\n? not judged 0\n" }
{}

/// Of two pages with the same address and the same greatest sequence number the one outside the spare block is read, else the least; one
/// with a lower number never.
pub fn read_pages()
    ensures spare_is_first { read_under copied 32 (Some 0) 67 ≡ Some 40 }
    ensures spare_is_last { read_under copied 32 (Some 1) 67 ≡ Some 5 }
    ensures no_spare { read_under copied 32 None 67 ≡ Some 5 }
    ensures not_read { is_page 5 (read_under copied 32 (Some 0) 67) ≡ false }
    ensures newer { read_under moved 32 None 67 ≡ Some 41 }
    ensures no_page { read_under copied 32 None 68 ≡ None }
{}
