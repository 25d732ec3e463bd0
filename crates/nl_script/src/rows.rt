// Scripts with what they give: each contract is computed from the definition.
ghost use Rattle.std.specs.Prelude.{◌≡◌, ◌∷◌, [], ◌++◌, Ok, Err, codes};
ghost use Rattle.nl_script.specs.Script.{script};
ghost use Rattle.nl_script.specs.declared.refusal.ScriptRefusal.TheVariants.{Refused};
ghost use Rattle.nl_script.specs.declared.why.Why.TheVariants.{Long, Byte, Worker, Command, Path, Number, Hex, Missing, Extra};
ghost use Rattle.nl_tree.specs.declared.call.Call.TheVariants as call;

/// Four lines of worker 0, each with a call.
pub fn four_lines()
    ensures { script (codes "0 create /a\n0 write /a 0 68656c6c6f\n0 read /a 0 5\n0 sync\n")
        ≡ Ok (record { line = 1; round = 0; worker = 0; call = call.Create (codes "a" ∷ []) }
        ∷ record { line = 2; round = 0; worker = 0; call = call.Write (codes "a" ∷ []) 0 (codes "hello") }
        ∷ record { line = 3; round = 0; worker = 0; call = call.Read (codes "a" ∷ []) 0 5 }
        ∷ record { line = 4; round = 0; worker = 0; call = call.Sync } ∷ []) }
{}

// Blank lines, comments and barriers count in the numbers of the lines.
pub fn epochs()
    ensures { script (codes "  0 mkdir /d/e  \nbarrier\n# barrier\n\n7 rename /d / \nbarrier")
        ≡ Ok (record { line = 1; round = 0; worker = 0; call = call.Mkdir (codes "d" ∷ codes "e" ∷ []) }
        ∷ record { line = 5; round = 1; worker = 7; call = call.Rename (codes "d" ∷ []) [] } ∷ []) }
{}

/// Bytes in hexadecimal of either case, no bytes, a number with zeros in front, and the greatest number.
pub fn bytes_and_numbers()
    ensures { script (codes "3 fill /a 007 65536 fF\n3 write /a 0 -\n3 write /a 9223372036854775807 0aBC")
        ≡ Ok (record { line = 1; round = 0; worker = 3; call = call.Fill (codes "a" ∷ []) 7 65536 255 }
        ∷ record { line = 2; round = 0; worker = 3; call = call.Write (codes "a" ∷ []) 0 [] }
        ∷ record { line = 3; round = 0; worker = 3; call = call.Write (codes "a" ∷ []) 9223372036854775807 (10 ∷ 188 ∷ []) } ∷ []) }
{}

/// Refusals of half a byte, of a missing word, of a worker, and of a length.
pub fn four_refusals()
    ensures hex { script (codes "0 write /a 0 6\n") ≡ Err (Refused 1 14 Hex) }
    ensures missing { script (codes "0 write /a 0") ≡ Err (Refused 1 13 Missing) }
    ensures worker { script (codes "9 create /a\n") ≡ Err (Refused 1 1 Worker) }
    ensures long { script (codes "0 read /a 0 65537\n") ≡ Err (Refused 1 13 Long) }
{}

/// More refusals: of a command, of paths, of a word too many, of a number, of a byte, of a missing word, and of the first of two lines.
pub fn more_refusals()
    ensures command { script (codes "# note\n\n0 make /a\n") ≡ Err (Refused 3 3 Command) }
    ensures path { script (codes "0 create /a//b") ≡ Err (Refused 1 10 Path) }
    ensures dots { script (codes "0 create /a/../b") ≡ Err (Refused 1 10 Path) }
    ensures extra { script (codes "barrier now") ≡ Err (Refused 1 9 Extra) }
    ensures number { script (codes "0 truncate /a 9223372036854775808") ≡ Err (Refused 1 15 Number) }
    ensures byte { script (codes "0 sync" ++ 13 ∷ 13 ∷ 10 ∷ []) ≡ Err (Refused 1 7 Byte) }
    ensures returned { script (codes "0 write /a" ++ 13 ∷ 10 ∷ []) ≡ Err (Refused 1 11 Missing) }
    ensures first_of_two { script (codes "x make /a\n0 make") ≡ Err (Refused 1 1 Worker) }
{}
