//! Which pages are in flight for a line, which goal a sync may have, and which moments, on worked rows.
ghost use Rattle.std.specs.Prelude.{◌≡◌, [], ◌∷◌};
ghost use Rattle.nl_turns.specs.Examples.{from_five};
ghost use Rattle.nl_volume_stage.specs.Examples.{at_opening, none_in_flight, one_in_flight, second_commit, third_page, three_turns};
ghost use Rattle.nl_volume_stage.specs.StagedPages.{KeepsLinePages, flight_for};
ghost use Rattle.nl_volume_stage.specs.Standing.{IsGoal, MomentsRise};

/// A page is in flight for the line of its worker, and for no other line.
pub fn page_of_one_line()
    ensures here { flight_for one_in_flight 0 5 ≡ (third_page, 40) ∷ [] }
    ensures elsewhere { flight_for one_in_flight 0 6 ≡ [] }
{}

/// A staging for another line leaves nothing of this one in flight: where the page stays, the pages of the line are not kept alone.
pub fn another_line_goes()
    ensures freed { KeepsLinePages 0 6 one_in_flight none_in_flight }
    ensures stays { KeepsLinePages 0 6 one_in_flight one_in_flight → ⊥ }
    ensures kept { KeepsLinePages 0 5 one_in_flight one_in_flight }
    ensures lost { KeepsLinePages 0 5 one_in_flight none_in_flight → ⊥ }
{}

/// Seven calls were answered, five of them before the opening. The sync of line 2 was staged behind the first of the other two: its goal is
/// at least 6, and at most 7. Line 3 was not staged, so it has no goal.
pub fn goals_of_a_sync()
    ensures least { IsGoal from_five three_turns 7 2 6 }
    ensures most { IsGoal from_five three_turns 7 2 7 }
    ensures too_few { IsGoal from_five three_turns 7 2 5 → ⊥ }
    ensures too_many { IsGoal from_five three_turns 7 2 8 → ⊥ }
    ensures unstaged { IsGoal from_five three_turns 7 3 7 → ⊥ }
{}

/// The opening had 5 calls at clock 30. A sync that finds them committed tells that clock, and one behind a commit page of clock 33 that one.
/// No sync tells a sixth call at clock 30, and moments do not fall.
pub fn moments_of_syncs()
    ensures opening { MomentsRise from_five (at_opening 5 ∷ []) 5 30 34 }
    ensures later { MomentsRise from_five (at_opening 5 ∷ second_commit ∷ []) 7 33 34 }
    ensures too_much { MomentsRise from_five (at_opening 6 ∷ []) 6 33 34 → ⊥ }
    ensures falls { MomentsRise from_five (second_commit ∷ at_opening 5 ∷ []) 7 33 34 → ⊥ }
    ensures begins { MomentsRise from_five [] 6 30 34 → ⊥ }
{}
