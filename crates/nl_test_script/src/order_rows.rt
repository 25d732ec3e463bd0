//! The definitions of orders, syncs, turns and faults, on worked rows.
ghost use Rattle.std.specs.Prelude.{⊤, ◌≡◌, true, false, ◌∷◌, [], Some, None, codes};
ghost use Rattle.nl_field.specs.CrashStates.{top};
ghost use Rattle.nl_tree.specs.Calls.{IsBounded, AreLines};
ghost use Rattle.nl_tree.specs.Causes.{DifferBelowTop, AreOneNumber, FaultIsDue};
ghost use Rattle.nl_tree.specs.Event.{left_to_stage};
ghost use Rattle.nl_tree.specs.Order.{IsOrderOf, AreSyncs, has_to_precede};
ghost use Rattle.nl_tree.specs.Replay.{answer_due};
ghost use Rattle.nl_tree.specs.Tree.{empty_tree};
ghost use Rattle.nl_test_script.specs.Examples.{small, a, before_a_sync, the_sync};
ghost use Rattle.nl_test_script.specs.OrderExamples.{IsInterleaving, beside_it, both_syncs, faults_so_far, line_before, lines_of_one, no_state, one_file, one_sync, read_only_state, sync_of, sync_under, three_lines, turns_of, two_answers, two_calls, two_syncs, worn_state};
ghost use Rattle.nl_tree.specs.declared.call.Call.TheVariants.{Create, Fill, Stat, Mkdir};
ghost use Rattle.nl_tree.specs.declared.reply.FaultReply.TheVariants.{Eio, Erofs, Eworn};
ghost use Rattle.nl_tree.specs.declared.reply.Reply.TheVariants.{Done, Dir, Fault};

/// Lines of one round and two workers may change places. A line of a later round may not come before them, and none may miss.
pub fn orders()
    ensures in_order { IsOrderOf three_lines (beside_it ∷ before_a_sync ∷ the_sync ∷ []) }
    ensures round { IsOrderOf three_lines (before_a_sync ∷ the_sync ∷ beside_it ∷ []) → ⊥ }
    ensures missing { IsOrderOf three_lines (before_a_sync ∷ the_sync ∷ []) → ⊥ }
    ensures twice { IsOrderOf three_lines (before_a_sync ∷ before_a_sync ∷ the_sync ∷ []) → ⊥ }
    ensures once_more { IsOrderOf three_lines (before_a_sync ∷ beside_it ∷ the_sync ∷ the_sync ∷ []) → ⊥ }
{}

/// Lines of one round and one worker are answered in their order.
pub fn orders_of_one_worker()
    ensures in_order { IsOrderOf lines_of_one (line_before ∷ beside_it ∷ []) }
    ensures turned { IsOrderOf lines_of_one (beside_it ∷ line_before ∷ []) → ⊥ }
    ensures precedes { has_to_precede line_before beside_it ≡ true }
    ensures not_behind { has_to_precede beside_it line_before ≡ false }
    ensures not_itself { has_to_precede line_before line_before ≡ false }
    ensures not_beside { has_to_precede before_a_sync beside_it ≡ false }
{}

/// A sync is listed with the number of its line.
pub fn syncs()
    ensures listed { AreSyncs 5 2 9 two_answers (sync_under 3) }
    ensures other_line { AreSyncs 5 2 9 two_answers (sync_under 0) → ⊥ }
    ensures too_late { AreSyncs 5 2 3 two_answers (sync_under 3) → ⊥ }
    ensures too_early { AreSyncs 5 5 9 two_answers (sync_under 3) → ⊥ }
    ensures alone { AreSyncs 5 2 9 (one_sync 5 4) (sync_of 5 4) }
    ensures below_opening { AreSyncs 5 2 9 (one_sync 4 4) (sync_of 4 4) → ⊥ }
    ensures beyond_place { AreSyncs 5 2 9 (one_sync 6 4) (sync_of 6 4) → ⊥ }
{}

/// The moments of syncs do not fall.
pub fn moments_of_syncs()
    ensures rise { AreSyncs 5 2 9 (two_syncs 3) (both_syncs 3) }
    ensures stand { AreSyncs 5 2 9 (two_syncs 4) (both_syncs 4) }
    ensures fall { AreSyncs 5 2 9 (two_syncs 5) (both_syncs 5) → ⊥ }
{}

/// The turns of a line are of one worker.
pub fn interleavings()
    ensures one_worker { IsInterleaving (turns_of 0) }
    ensures other_worker { IsInterleaving (turns_of 1) → ⊥ }
{}

/// What is in flight is not left to stage, a page in part never is, and nothing is where the path has no file.
pub fn left()
    ensures others { left_to_stage one_file (Fill a 0 12288 97) (1 ∷ []) ≡ 0 ∷ 2 ∷ [] }
    ensures in_part { left_to_stage one_file (Fill a 100 8192 97) [] ≡ 1 ∷ [] }
    ensures no_file { left_to_stage empty_tree (Fill a 0 12288 97) [] ≡ [] }
{}

/// Below the top each failed line has a number of its own, and refused lines have one number.
pub fn numbers_of_faults()
    ensures differ { DifferBelowTop (1 ∷ 2 ∷ top ∷ top ∷ []) }
    ensures same { DifferBelowTop (1 ∷ 2 ∷ 1 ∷ []) → ⊥ }
    ensures one { AreOneNumber (3 ∷ 3 ∷ []) }
    ensures two { AreOneNumber (3 ∷ 4 ∷ []) → ⊥ }
{}

/// A call that met a fault leaves the tree, and behind the calls nothing is due.
pub fn due()
    ensures fault { answer_due small empty_tree two_calls 0 ≡ Some (record { reply = Fault (Eio 1); bytes = []; tree = empty_tree }) }
    ensures next { answer_due small empty_tree two_calls 1 ≡ Some (record { reply = Dir 0; bytes = []; tree = empty_tree }) }
    ensures behind { answer_due small empty_tree two_calls 2 ≡ None }
{}

/// A fault is that of a count which rose within the call, with the sum behind it. The fault of an earlier call is none, and a
/// read-only or worn volume refuses just what changes it.
pub fn faults()
    ensures rose { FaultIsDue ⊤ no_state (faults_so_far 1) (faults_so_far 2) (Stat []) (Fault (Eio 2)) }
    ensures earlier { FaultIsDue ⊤ no_state (faults_so_far 1) (faults_so_far 1) (Stat []) (Fault (Eio 1)) → ⊥ }
    ensures other_sum { FaultIsDue ⊤ no_state (faults_so_far 1) (faults_so_far 2) (Stat []) (Fault (Eio 1)) → ⊥ }
    ensures read_only { FaultIsDue ⊤ read_only_state (faults_so_far 3) (faults_so_far 3) (Mkdir a) (Fault (Erofs 3)) }
    ensures passes { FaultIsDue ⊤ read_only_state (faults_so_far 3) (faults_so_far 3) (Mkdir a) Done → ⊥ }
    ensures looks { FaultIsDue ⊤ read_only_state (faults_so_far 3) (faults_so_far 3) (Stat []) (Dir 0) }
    ensures worn { FaultIsDue ⊤ worn_state (faults_so_far 3) (faults_so_far 3) (Mkdir a) (Fault Eworn) }
{}

/// Names of a call are names but for their length, and numbers of lines rise.
pub fn bounds()
    ensures name { IsBounded (Create a) }
    ensures no_name { IsBounded (Create (codes "a/b" ∷ [])) → ⊥ }
    ensures too_long { IsBounded (Fill a 0 65537 97) → ⊥ }
    ensures lines { AreLines three_lines }
    ensures twice { AreLines (the_sync ∷ the_sync ∷ []) → ⊥ }
{}
