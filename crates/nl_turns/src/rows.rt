//! The definitions of a history, on worked rows.
ghost use Rattle.std.specs.Prelude.{◌≡◌, true, false, ◌∷◌, [], Some, None};
ghost use Rattle.nl_tree.specs.Tree.{directory};
ghost use Rattle.nl_tree.specs.declared.call.Call.TheVariants.{Mkdir, Stat, Sync};
ghost use Rattle.nl_tree.specs.declared.reply.FaultReply.TheVariants.{Eio, Edamaged};
ghost use Rattle.nl_tree.specs.declared.reply.Reply.TheVariants.{Done, Dir, Synced, Fault};
ghost use Rattle.nl_tree.specs.declared.turn.Stage.TheVariants.{Lost};
ghost use Rattle.nl_tree.specs.declared.turn.DutyAnswer.TheVariants.{Lost as LostPage};
ghost use Rattle.nl_turns.specs.History.{effects, has_lost_page, place_of, effects_before, begun_at, marked_calls, tree_after, syncs_of, IsKnown, SyncsInRange};
ghost use Rattle.nl_turns.specs.Served.{stage_entry, effect_entry, duty_entry, place_due, outcome_due, IsLineOf};
ghost use Rattle.nl_turns.specs.Examples.{dir_a, from_five, five_turns};

/// Three of the turns are effects. They have the places 6, 7 and 8.
pub fn places()
    ensures effects { effects (five_turns 6) ≡ 3 }
    ensures first { place_of from_five (five_turns 6) 0 ≡ 6 }
    ensures second { place_of from_five (five_turns 6) 2 ≡ 7 }
    ensures third { place_of from_five (five_turns 6) 3 ≡ 8 }
{}

/// The calls in the order of their effects, each with its fault, and the tree after them.
pub fn calls_and_tree()
    ensures calls { marked_calls from_five (five_turns 6) ≡ (Mkdir dir_a, None) ∷ (Stat [], Some (Eio 1)) ∷ (Sync, None) ∷ [] }
    ensures tree { tree_after from_five (five_turns 6) ≡ ([], directory) ∷ (dir_a, directory) ∷ [] }
    ensures syncs { syncs_of (five_turns 6) ≡ record { upto = 6; moment = 40 } ∷ [] }
{}

/// The sync began behind the first effect, so it made safe at least 6 calls, and at most the 7 before its own place.
pub fn range_of_a_sync()
    ensures begun { begun_at (five_turns 6) 2 3 ≡ 1 }
    ensures before { effects_before (five_turns 6) 1 ≡ 1 }
    ensures least { SyncsInRange from_five (five_turns 6) }
    ensures most { SyncsInRange from_five (five_turns 7) }
    ensures too_few { SyncsInRange from_five (five_turns 5) → ⊥ }
    ensures too_many { SyncsInRange from_five (five_turns 8) → ⊥ }
{}

/// A line that no script has, a sync without its numbers, and numbers of what is no sync are not known.
pub fn strangers()
    ensures known { IsKnown from_five (effect_entry 2 (Synced 6 40)) }
    ensures failed { IsKnown from_five (effect_entry 2 (Fault (Eio 1))) }
    ensures no_line { IsKnown from_five (effect_entry 9 Done) → ⊥ }
    ensures no_numbers { IsKnown from_five (effect_entry 2 Done) → ⊥ }
    ensures no_sync { IsKnown from_five (effect_entry 1 (Synced 6 40)) → ⊥ }
{}

/// What is due next: `stat /` counts the new directory, at place 9, and a fault is due as it is.
pub fn due_next()
    ensures line { IsLineOf from_five 0 3 (Stat []) }
    ensures place { place_due from_five (five_turns 6) 3 (Dir 1) ≡ 9 }
    ensures reply { (outcome_due from_five (five_turns 6) (Stat []) (Dir 1)).reply ≡ Dir 1 }
    ensures fault { (outcome_due from_five (five_turns 6) (Stat []) (Fault (Eio 2))).reply ≡ Fault (Eio 2) }
{}

/// A page is lost in the turn of a staging or a background task that answered so. An effect tells it by its fault.
pub fn lost_pages()
    ensures none { has_lost_page (five_turns 6) ≡ false }
    ensures staging { has_lost_page (stage_entry 1 (Lost 4 0) ∷ []) ≡ true }
    ensures task { has_lost_page (effect_entry 1 Done ∷ duty_entry (LostPage 4 0) ∷ []) ≡ true }
    ensures effect { has_lost_page (effect_entry 1 (Fault (Edamaged 4 0)) ∷ []) ≡ false }
{}
