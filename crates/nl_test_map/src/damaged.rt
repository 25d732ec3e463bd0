//! Maps of volumes that do not open, by hand: pages are not judged there, uncorrectable ones are seen, and wear is told.
ghost use Rattle.std.specs.Prelude.{◌≡◌, ◌++◌, codes};
ghost use Rattle.nl_field.specs.Page.{uncorrectable};
ghost use Rattle.nl_map.specs.Text.{map_text};
ghost use Rattle.nl_test_map.specs.Examples.{erased_lines, volume, whole_data, whole_super};

/// The page of the file is uncorrectable.
pub fn no_data()
    ensures { map_text (volume whole_super uncorrectable)
        ≡ codes "damaged 1 pointer\nblock 0 virtual written wear 5\n???.............................\n" ++ erased_lines (codes " virtual") 1 7
        ++ codes "block 8 physical free wear 0\nx...............................\n" ++ erased_lines (codes " physical") 9 23
        ++ codes ". erased 1020\n- dead 0\n# live 0\no old copy 0\nx uncorrectable 1\n? not judged 3\n" }
{}

/// The super page is uncorrectable.
pub fn no_super_page()
    ensures { map_text (volume uncorrectable whole_data)
        ≡ codes "damaged 0 super\nblock 0 virtual written wear 5\n?x?.............................\n" ++ erased_lines (codes " virtual") 1 7
        ++ codes "block 8 physical written wear 0\n?...............................\n" ++ erased_lines (codes " physical") 9 23
        ++ codes ". erased 1020\n- dead 0\n# live 0\no old copy 0\nx uncorrectable 1\n? not judged 3\n" }
{}
