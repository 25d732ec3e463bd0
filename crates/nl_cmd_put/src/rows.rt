//! What is said of the calls of a put and of its end, on worked rows.
ghost use Rattle.std.specs.Prelude.{◌≡◌, ◌∷◌, [], ⊤, None, Some, codes, false, true};
ghost use Rattle.nl_tree.specs.Tree.{empty_tree};
ghost use Rattle.nl_tree.specs.declared.call.Call.TheVariants.{Create, Rename, Stat, Sync, Write};
ghost use Rattle.nl_tree.specs.declared.reply.FaultReply.TheVariants.{Eio};
ghost use Rattle.nl_tree.specs.declared.reply.Refusal.TheVariants.{Eexist, Eisdir};
ghost use Rattle.nl_tree.specs.declared.reply.Reply.TheVariants.{Count, Done, Fault, No, Synced};
ghost use Rattle.nl_spec_headline.specs.Course.{calls_in, lines_in};
ghost use Rattle.nl_put_tree.specs.Examples.{a, own, small, with_empty, with_two};
ghost use Rattle.nl_put_tree.specs.Putting.{FitsVolume, IsPut, IsUnderWay, IsWriting};
ghost use Rattle.nl_cmd_put.specs.Asking.{MetFault, NamesOwn, course_of, own_of};
ghost use Rattle.nl_cmd_course.specs.Asking.{AreDue, lines_from, marked, tree_after};
ghost use Rattle.nl_cmd_put.specs.Cutting.{AreCut};
ghost use Rattle.nl_cmd_put.specs.Examples.{opened_empty, sync_and_create, sync_failed, three_asked};
ghost use Rattle.nl_cmd_put.specs.Naming.{IsMarked};
ghost use Rattle.nl_cmd_put.specs.OnVolume.{IsDurable};
ghost use Rattle.nl_cmd_put.specs.Phases.{EndsSynced, StopsAt, end_of_back, end_of_sync, is_count, joined, tried_by};
ghost use Rattle.nl_cmd_put.specs.Putting.{TellsEnd, put_text};
ghost use Rattle.nl_cmd_put.specs.declared.creating.Tried.TheVariants as tried;
ghost use Rattle.nl_cmd_put.specs.declared.ending.End.TheVariants as ends;
ghost use Rattle.nl_spec_headline.specs.Streams.{stream};

/// An empty file is put at a path: it is written, then renamed. Before, the path has nothing, and nothing else is there at the end.
pub fn trees()
    ensures fits { FitsVolume small empty_tree }
    ensures writing { IsWriting empty_tree own [] (with_empty own) }
    ensures not_begun { IsWriting empty_tree own [] empty_tree → ⊥ }
    ensures put { IsPut empty_tree a [] (with_empty a) }
    ensures not_renamed { IsPut empty_tree a [] (with_empty own) → ⊥ }
    ensures under_way { IsUnderWay empty_tree own a [] (with_empty own) }
    ensures other_bytes { IsUnderWay empty_tree own a [] with_two → ⊥ }
{}

/// The calls of that put, their lines and their course.
pub fn calls_of_a_put()
    ensures marked { marked three_asked ≡ (Create own, None) ∷ (Rename own a, None) ∷ (Sync, None) ∷ [] }
    ensures course { calls_in (course_of opened_empty three_asked) ≡ marked three_asked }
    ensures lines { lines_in (course_of opened_empty three_asked) ≡ lines_from 1 three_asked }
    ensures tree { tree_after opened_empty three_asked ≡ with_empty a }
    ensures due { AreDue small empty_tree three_asked }
    ensures not_due { AreDue small empty_tree ((Create own, No Eexist) ∷ []) → ⊥ }
    ensures fault { MetFault sync_failed }
    ensures no_fault { MetFault three_asked → ⊥ }
    ensures synced { EndsSynced three_asked }
    ensures not_synced { EndsSynced sync_failed → ⊥ }
{}

/// The path of its own in a call; a sync and a removal of another kind have none.
pub fn own_paths()
    ensures create { (NamesOwn (Create own)) × (own_of (Create own) ≡ own) }
    ensures write { (NamesOwn (Write own 3 [])) × (own_of (Write own 3 []) ≡ own) }
    ensures rename { (NamesOwn (Rename own a)) × (own_of (Rename own a) ≡ own) }
    ensures sync { NamesOwn Sync → ⊥ }
    ensures stat { NamesOwn (Stat own) → ⊥ }
{}

/// A name of its own begins so, and has no byte that no name may have; pieces are all of the bytes.
pub fn names_and_pieces()
    ensures marked { IsMarked (codes ".put-12") }
    ensures not_marked { IsMarked (codes "put-12") → ⊥ }
    ensures slash { IsMarked (codes ".put-/") → ⊥ }
    ensures joined { joined ((1 ∷ []) ∷ [] ∷ (2 ∷ 3 ∷ []) ∷ []) ≡ 1 ∷ 2 ∷ 3 ∷ [] }
    ensures cut { AreCut (1 ∷ 2 ∷ []) ((1 ∷ []) ∷ (2 ∷ []) ∷ []) }
    ensures less { AreCut (1 ∷ 2 ∷ []) ((1 ∷ []) ∷ []) → ⊥ }
{}

/// What the replies come to.
pub fn replies_end()
    ensures made { tried_by own Done ≡ tried.Own own }
    ensures taken { tried_by own (No Eexist) ≡ tried.Taken }
    ensures refused { tried_by own (No Eisdir) ≡ tried.Ended (ends.Refused Eisdir) }
    ensures failed { tried_by own (Fault (Eio 1)) ≡ tried.Ended ends.Fault }
    ensures count { is_count (Count 3) ≡ true }
    ensures no_count { is_count (No Eisdir) ≡ false }
    ensures back { end_of_back (No Eisdir) Done (Synced 2 9) ≡ ends.Refused Eisdir }
    ensures not_back { end_of_back (No Eisdir) (Fault (Eio 1)) (Synced 2 9) ≡ ends.Fault }
    ensures not_safe { end_of_back (No Eisdir) Done (Fault (Eio 1)) ≡ ends.Fault }
    ensures put { end_of_sync 3 (Synced 2 9) ≡ ends.Put 3 }
    ensures not_synced { end_of_sync 3 (Fault (Eio 1)) ≡ ends.Fault }
{}

/// A call that was not done met a fault, where its reply is no refusal.
pub fn calls_not_done()
    ensures fault { StopsAt ⊤ opened_empty own a [] sync_failed (Fault (Eio 1)) }
    ensures no_fault { StopsAt ⊤ opened_empty own a [] three_asked (Fault (Eio 1)) → ⊥ }
{}

/// What is told of an end.
pub fn ends_told()
    ensures text { put_text 12 ≡ codes "put 12\n" }
    ensures refused { TellsEnd (ends.Refused Eisdir) (stream (Some []) 0) (stream (Some []) 0) (Some Eisdir) 2 }
    ensures ended_well { TellsEnd (ends.Refused Eisdir) (stream (Some []) 0) (stream (Some []) 0) (Some Eisdir) 0 → ⊥ }
    ensures nothing_printed { TellsEnd (ends.Put 12) (stream (Some []) 0) (stream (Some []) 0) None 0 → ⊥ }
    ensures fault { TellsEnd ends.Fault (stream (Some []) 0) (stream (Some []) 0) None 5 }
{}

/// The sync is the last call and makes all before it safe, within the put.
pub fn durable()
    ensures within { IsDurable (course_of opened_empty three_asked) 8 9 }
    ensures later { IsDurable (course_of opened_empty three_asked) 10 12 → ⊥ }
    ensures none { IsDurable (course_of opened_empty sync_failed) 8 9 → ⊥ }
    ensures before_a_call { IsDurable (course_of opened_empty sync_and_create) 8 9 → ⊥ }
{}
