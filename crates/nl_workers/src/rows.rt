//! The definitions of a table's rows, on worked rows.
ghost use Rattle.std.specs.Prelude.{⊤, ◌≡◌, ◌∷◌, [], true, false};
ghost use Rattle.nl_tree.specs.declared.reply.FaultReply.TheVariants.{Eio};
ghost use Rattle.nl_tree.specs.declared.reply.Reply.TheVariants.{Done, Dir, Fault};
ghost use Rattle.nl_tree.specs.declared.turn.Stage.TheVariants.{Staged, Whole};
ghost use Rattle.nl_turns.specs.Examples.{three_lines, from_five, five_turns};
ghost use Rattle.nl_turns.specs.Served.{stage_entry, effect_entry};
ghost use Rattle.nl_workers.specs.Examples.{first_row, has_staged_for, one_done, no_staging, nothing};
ghost use Rattle.nl_workers.specs.Heard.{HeardOfLines};
ghost use Rattle.nl_workers.specs.Placed.{EntryIsPlaced, KnowsLosses};
ghost use Rattle.nl_workers.specs.Rounds.{IsRowAt};

/// A row has the place, the number among the effects, the fault and the answer of its effect.
pub fn answers()
    ensures row { IsRowAt ⊤ from_five (five_turns 6) 0 (effect_entry 1 Done) (first_row 6 1 Done []) }
    ensures other_place { IsRowAt ⊤ from_five (five_turns 6) 0 (effect_entry 1 Done) (first_row 7 1 Done []) → ⊥ }
    ensures other_ordinal { IsRowAt ⊤ from_five (five_turns 6) 0 (effect_entry 1 Done) (first_row 6 2 Done []) → ⊥ }
    ensures other_fault { IsRowAt ⊤ from_five (five_turns 6) 0 (effect_entry 1 Done) (first_row 6 1 (Fault (Eio 1)) []) → ⊥ }
    ensures other_answer { IsRowAt ⊤ from_five (five_turns 6) 0 (effect_entry 1 Done) (first_row 6 1 (Dir 0) []) → ⊥ }
    ensures other_bytes { IsRowAt ⊤ from_five (five_turns 6) 0 (effect_entry 1 Done) (first_row 6 1 Done (97 ∷ [])) → ⊥ }
{}

/// A line stages behind the effects of all lines that have to precede it: line 3 behind line 1, which is of its worker.
pub fn stagings()
    ensures first { EntryIsPlaced three_lines 3 [] (stage_entry 1 Whole) }
    ensures too_early { EntryIsPlaced three_lines 3 [] (stage_entry 3 Whole) → ⊥ }
    ensures in_order { EntryIsPlaced three_lines 3 one_done (stage_entry 3 Whole) }
{}

/// An effect stands directly behind the end of its own staging, by its own seat.
pub fn effects()
    ensures staged { EntryIsPlaced three_lines 3 (has_staged_for 3 1 Whole) (effect_entry 1 Done) }
    ensures not_begun { EntryIsPlaced three_lines 3 [] (effect_entry 1 Done) → ⊥ }
    ensures not_whole { EntryIsPlaced three_lines 3 (has_staged_for 3 1 Staged) (effect_entry 1 Done) → ⊥ }
    ensures other_line { EntryIsPlaced three_lines 3 (has_staged_for 3 2 Whole) (effect_entry 1 Done) → ⊥ }
    ensures other_seat { EntryIsPlaced three_lines 3 (has_staged_for 4 1 Whole) (effect_entry 1 Done) → ⊥ }
{}

/// A lost page is known exactly where one was lost before, or the history has more of them.
pub fn lost_pages()
    ensures found { KnowsLosses false true 0 1 }
    ensures stays { KnowsLosses true true 1 1 }
    ensures hidden { KnowsLosses false false 0 1 → ⊥ }
    ensures forgotten { KnowsLosses true false 1 1 → ⊥ }
    ensures made_up { KnowsLosses false true 1 1 → ⊥ }
{}

/// A gate that heard of each line before its turns and after its effect heard of a history in which no page was staged, and not of one in
/// which one was. One that heard nothing heard of no history.
pub fn hearings()
    ensures quiet { HeardOfLines no_staging three_lines [] }
    ensures not_told { HeardOfLines no_staging three_lines (stage_entry 1 Staged ∷ []) → ⊥ }
    ensures deaf { HeardOfLines nothing three_lines [] → ⊥ }
{}
