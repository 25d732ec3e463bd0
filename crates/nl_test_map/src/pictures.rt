//! Rows of the picture of a map: its parts, by hand.
ghost use Rattle.std.specs.Prelude.{◌≡◌, ◌∷◌, ◌++◌, [], bytes_eq, codes, false};
ghost use Rattle.nl_map.specs.Svg.{bars_text, brightness, entry_text, row_text};
ghost use Rattle.nl_map_pages.specs.declared.look.Mark.TheVariants.{Dead};
ghost use Rattle.nl_test_map.specs.Examples.{dead, live, old};

/// Pages in a row that are found alike stand as one bar, whatever their wear, and others do not.
pub fn bars()
    ensures three { bars_text (live 3 ∷ live 1 ∷ dead 0 ∷ live 0 ∷ [])
        ≡ codes "<rect class='l' x='0' width='12' height='6'/><rect class='d' x='12' width='6' height='6'/>"
        ++ codes "<rect class='l' x='18' width='6' height='6'/>" }
    ensures none { bars_text [] ≡ [] }
    ensures other { bytes_eq (bars_text (old 0 ∷ [])) (bars_text (live 0 ∷ [])) ≡ false }
{}

/// The box of a block is white where it was not worn, and black where none is worn more.
pub fn boxes()
    ensures white { brightness 0 4 ≡ 255 }
    ensures black { brightness 4 4 ≡ 0 }
    ensures half { brightness 2 4 ≡ 128 }
    ensures no_wear { brightness 0 0 ≡ 255 }
{}

/// A row has the words of its block, its label, its box and its bars, and a colour its words and a count.
pub fn lines()
    ensures row { row_text 8 false (live 3 ∷ dead 1 ∷ []) 3
        ≡ codes "<g transform='translate(44,204)'><title>block 8 physical used wear 3</title><text class='n' x='-12' y='6'>8 p</text>"
        ++ codes "<rect class='w' x='-10' width='8' height='6' fill='rgb(0,0,0)'/><rect class='l' x='0' width='6' height='6'/>"
        ++ codes "<rect class='d' x='6' width='6' height='6'/></g>\n" }
    ensures entry { entry_text 52 (codes "dead") Dead (dead 0 ∷ live 0 ∷ dead 1 ∷ [])
        ≡ codes "<g transform='translate(8,52)'><rect class='d' width='10' height='10'/><text x='16' y='9'>dead 2\n</text></g>\n" }
{}
