// What lists of calls answer on the tree of a small volume, computed from the definitions.
ghost use Rattle.std.specs.Prelude.{◌≡◌, ℕ, ⊤, ◌<◌, ◌∷◌, [], ◌++◌, Some, None, replicate, codes};
ghost use Rattle.std.specs.List.{range_with_len};
ghost use Rattle.nl_test_script.specs.Examples.{small, tiny, answers_to, write_and_read, over_a_page, far_write, cut_and_lengthen, largest_file, names_and_moves, of_no_length, full_tiny, calls_and_refusals, subtree_moves, order_of_names, paths_after, root, at, a, ax, pages_cut, save_a_note, long_names, few_nodes, nodes_run_out, few_meta, meta_runs_out, large, full_directory, sync_lines, the_sync};
ghost use Rattle.nl_tree.specs.declared.reply.Reply.TheVariants.{Done, Count, Content, Names, File, Dir, Synced, No};
ghost use Rattle.nl_tree.specs.declared.reply.Refusal.TheVariants.{Enoent, Eexist, Enotdir, Eisdir, Enotempty, Einval, Enametoolong, Efbig, Enospc};
ghost use Rattle.nl_tree.specs.declared.reply.Space.TheVariants.{Dir as DirSpace, Nodes, Meta, Pages};
ghost use Rattle.nl_tree.specs.declared.call.Call.{Call};
ghost use Rattle.nl_tree.specs.declared.call.Call.TheVariants.{Create, Write, Fill, Stat};
ghost use Rattle.nl_tree.specs.declared.reply.FaultReply.TheVariants.{Erofs, Eworn, Edamaged};
ghost use Rattle.nl_tree.specs.Event.{page_given};
ghost use Rattle.nl_tree.specs.Tree.{empty_tree};
ghost use Rattle.nl_tree.specs.Step.{step};
ghost use Rattle.nl_tree.specs.Replay.{Answers};
ghost use Rattle.nl_tree.specs.Order.{IsSyncAt};
ghost use Rattle.nl_tree.specs.declared.call.Call.TheVariants as call;
ghost use Rattle.nl_tree.specs.Causes.{Counts, HasCause, fault_sum};

/// Bytes that were written are read.
pub fn writes_and_reads()
    ensures { answers_to small write_and_read ≡ (Done, []) ∷ (Count 5, []) ∷ (Content, codes "hello") ∷ (Synced 0 0, []) ∷ [] }
{}

/// Bytes that cross the end of a page are read behind zeros.
pub fn crosses_a_page()
    ensures { answers_to small over_a_page ≡ (Done, []) ∷ (Count 10, []) ∷ (Content, 0 ∷ 0 ∷ range_with_len 0 10) ∷ (File 4100 2, []) ∷ [] }
{}

/// Before a byte that is written far behind the end of a file there are zeros, and no pages.
pub fn writes_far()
    ensures { answers_to small far_write ≡ (Done, []) ∷ (Count 1, []) ∷ (Content, replicate 4 0) ∷ (File 20001 1, []) ∷ [] }
{}

/// A file that is cut and lengthened has zeros behind the cut.
pub fn cuts_and_lengthens()
    ensures { answers_to small cut_and_lengthen
        ≡ (Done, []) ∷ (Count 5, []) ∷ (Done, []) ∷ (Done, []) ∷ (Content, codes "hel" ++ replicate 7 0) ∷ [] }
{}

/// Names move, and lose what stood there; of those that cannot the refusals.
pub fn moves_names()
    ensures { answers_to small names_and_moves
        ≡ (Done, []) ∷ (Done, []) ∷ (Done, []) ∷ (Count 1, []) ∷ (Done, []) ∷ (No Einval, []) ∷ (Done, []) ∷ (No Eisdir, [])
        ∷ (No Enotdir, []) ∷ (Content, 97 ∷ []) ∷ (Names 2, codes " b d/") ∷ (No Enoent, []) ∷ [] }
{}

/// A write and a read of no bytes.
pub fn no_length()
    ensures { answers_to small of_no_length
        ≡ (Done, []) ∷ (Count 0, []) ∷ (No Enoent, []) ∷ (Count 0, []) ∷ (File 0 0, []) ∷ (Content, []) ∷ [] }
{}

/// A volume with room for few pages of files is filled, and refuses the next page.
pub fn fills_up()
    ensures { answers_to tiny full_tiny ≡ (Done, []) ∷ (Count 16384, []) ∷ (No (Enospc Pages), []) ∷ (File 16384 4, []) ∷ [] }
{}

/// A file of the greatest size, and a byte behind it that is refused.
pub fn largest()
    ensures { answers_to small largest_file
        ≡ (Done, []) ∷ (Count 65536, []) ∷ (No Efbig, []) ∷ (File 16809984 16, []) ∷ (Content, replicate 4 97) ∷ [] }
{}

/// The refusals of the calls, each with its error.
pub fn refuses()
    ensures { answers_to small calls_and_refusals ≡ (Done, []) ∷ (Done, []) ∷ (Done, []) ∷ (Done, [])
        ∷ (No Eexist, []) ∷ (No Eexist, []) ∷ (No Einval, []) ∷ (No Eisdir, []) ∷ (No Einval, []) ∷ (No Einval, []) ∷ (No Eisdir, [])
        ∷ (No Eisdir, []) ∷ (No Eisdir, [])
        ∷ (No Eexist, []) ∷ (No Eexist, []) ∷ (No Enoent, []) ∷ (No Enotdir, []) ∷ (No Enotdir, []) ∷ (No Enoent, []) ∷ (No Enotdir, [])
        ∷ (No Enotempty, []) ∷ (No Enoent, []) ∷ (No Eisdir, [])
        ∷ (No Enoent, []) ∷ (No Enoent, []) ∷ (No Enotdir, []) ∷ (No Enotdir, []) ∷ (No Eisdir, []) ∷ (No Enotempty, []) ∷ (Done, [])
        ∷ (No Enoent, []) ∷ (No Eisdir, []) ∷ (No Eisdir, []) ∷ (No Enoent, []) ∷ (No Efbig, []) ∷ (No Enoent, []) ∷ (No Enotdir, [])
        ∷ (No Enoent, []) ∷ (No Enotdir, []) ∷ (Done, []) ∷ [] }
{}

/// A directory moves with what is under it.
pub fn moves_a_subtree()
    ensures { answers_to small subtree_moves ≡ (Done, []) ∷ (Done, []) ∷ (Done, []) ∷ (Count 1, []) ∷ (Done, []) ∷ (Dir 0, []) ∷ (Done, [])
        ∷ (Names 1, codes " d/") ∷ (Content, 97 ∷ []) ∷ (No Enoent, []) ∷ [] }
{}

/// The paths come in the order of their names, what is under a directory right behind it.
pub fn orders_names()
    ensures { paths_after small order_of_names ≡ root ∷ a ∷ ax ∷ (codes "a!" ∷ []) ∷ [] }
{}

/// Pages behind a cut are gone.
pub fn cuts_pages()
    ensures { answers_to small pages_cut
        ≡ (Done, []) ∷ (Count 5, []) ∷ (Count 1, []) ∷ (Done, []) ∷ (File 4096 1, []) ∷ (Done, []) ∷ (File 3 1, []) ∷ (Done, [])
        ∷ (File 5000 1, []) ∷ (Content, codes "hel" ++ replicate 2 0) ∷ (Done, []) ∷ (File 0 0, []) ∷ [] }
{}

/// A note is saved by a new file, syncs and a rename.
pub fn saves_a_note()
    ensures { answers_to small save_a_note
        ≡ (Done, []) ∷ (Done, []) ∷ (Done, []) ∷ (Count 3, []) ∷ (Synced 0 0, []) ∷ (Done, []) ∷ (Count 3, []) ∷ (Synced 0 0, [])
        ∷ (Done, []) ∷ (Synced 0 0, []) ∷ (Content, codes "new") ∷ (Names 1, codes " note") ∷ (Dir 1, []) ∷ [] }
{}

/// Names and paths that are too long are refused.
pub fn bounds_names()
    ensures { answers_to small long_names
        ≡ (Done, []) ∷ (No Enametoolong, []) ∷ (No Enotdir, []) ∷ (No Enametoolong, []) ∷ (No Enametoolong, []) ∷ [] }
{}

/// A volume whose nodes are used up refuses new ones, until one is free again.
pub fn runs_out_of_nodes()
    ensures { answers_to few_nodes nodes_run_out
        ≡ (Done, []) ∷ (Done, []) ∷ (No (Enospc Nodes), []) ∷ (No (Enospc Nodes), []) ∷ (Done, []) ∷ (Done, []) ∷ [] }
{}

/// A volume whose pages of entries and pointers are used up refuses calls that need one, until one is free again.
pub fn runs_out_of_meta()
    ensures { answers_to few_meta meta_runs_out
        ≡ (Done, []) ∷ (Done, []) ∷ (Count 1, []) ∷ (No (Enospc Meta), []) ∷ (Count 1, []) ∷ (No (Enospc Meta), []) ∷ (No (Enospc Meta), [])
        ∷ (Done, []) ∷ (Done, []) ∷ [] }
{}

/// A directory of 1024 entries takes no further one.
pub fn fills_a_directory()
    ensures { (step large full_directory (Create (at (120 ∷ [])))).reply ≡ No (Enospc DirSpace) }
{}

/// A call gives bytes to the pages that lie wholly in its range, and to no other.
pub fn pages_given()
    ensures inside { page_given (Fill [] 4000 8192 97) 1 ≡ Some (replicate 4096 97) }
    ensures out_of_range { page_given (Fill [] 0 10 97) 7 ≡ None }
    ensures in_part { page_given (Write [] 100 (1 ∷ 2 ∷ 3 ∷ [])) 0 ≡ None }
{}

/// A call that only looks is never refused for a worn or a read-only volume, and nothing is damaged where the medium tells.
pub fn no_causes()
    ensures worn { (before now : Counts) (next : ℕ) → HasCause ⊥ before now next (Stat []) Eworn → ⊥ }
    ensures read_only { (before now : Counts) (next n : ℕ) → HasCause ⊥ before now next (Stat []) (Erofs n) → ⊥ }
    ensures later_sum { (before now : Counts) (next n : ℕ) (call : Call) → fault_sum now < n → HasCause ⊥ before now next call (Erofs n)
        → ⊥ }
    ensures damaged { (before now : Counts) (next : ℕ) (call : Call) → HasCause ⊤ before now next call (Edamaged 1 2) → ⊥ }
{}

/// A sync is answered with any two numbers, and no bytes.
pub fn answers_of_sync()
    ensures numbers { Answers (step small empty_tree call.Sync) (Synced 3 4) [] }
    ensures bytes { Answers (step small empty_tree call.Sync) (Synced 3 4) (0 ∷ []) → ⊥ }
    ensures reply { Answers (step small empty_tree call.Sync) Done [] → ⊥ }
{}

/// A sync makes safe what has to come before it.
pub fn numbers_of_syncs()
    ensures safe { IsSyncAt 5 sync_lines 1 the_sync (record { upto = 6; moment = 0 }) }
    ensures too_few { IsSyncAt 5 sync_lines 1 the_sync (record { upto = 5; moment = 0 }) → ⊥ }
    ensures too_many { IsSyncAt 5 sync_lines 1 the_sync (record { upto = 7; moment = 0 }) → ⊥ }
{}
