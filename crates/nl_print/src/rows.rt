// Texts that are computed from their definitions.
ghost use Rattle.std.specs.Prelude.{◌≡◌, ◌∷◌, [], codes};
ghost use Rattle.nl_field.specs.Numbers.{shape_for};
ghost use Rattle.nl_field.specs.declared.place.What.TheVariants.{Pointer};
ghost use Rattle.nl_tree.specs.Tree.{directory, file};
ghost use Rattle.nl_tree.specs.declared.reply.Reply.TheVariants as reply;
ghost use Rattle.nl_tree.specs.declared.reply.Refusal.TheVariants as refusal;
ghost use Rattle.nl_tree.specs.declared.reply.FaultReply.TheVariants as fault;
ghost use Rattle.nl_tree.specs.declared.reply.Space.TheVariants.{Dir, Nodes, Meta, Pages};
ghost use Rattle.nl_print.specs.Texts.{run_text, tree_text, formatted_text, refused_text, damaged_text, findings_text, sound_text, report_text, soak_text};

/// A volume of 32 blocks of 32 pages was formatted.
pub fn formatted()
    ensures { formatted_text (shape_for 32 32) ≡ codes "formatted blocks 32 pages 32 data 480 nodes 64 meta 32\n" }
{}

/// The report of a fresh volume of 32 blocks of 32 pages.
pub fn fresh_report()
    ensures { report_text (shape_for 32 32) 0 0 1 0 0 0 0 3
        ≡ codes "opened 0\nblocks virtual 8 physical 24\npages data 0 of 480 nodes 1 of 64 meta 0 of 32\nremap 0\nwear least 0 greatest 0\nstamp 3\n" }
{}

/// The answers of a run that opens at count 0, one of each kind of result.
pub fn answers()
    ensures { run_text 0 ((1, reply.Done, []) ∷ (2, reply.Count 5, []) ∷ (3, reply.Content, codes "hello") ∷ (4, reply.Synced 3 7, [])
        ∷ (7, reply.Content, []) ∷ (8, reply.Names 2, codes " b d/") ∷ (9, reply.Names 0, []) ∷ (10, reply.File 4100 2, [])
        ∷ (11, reply.Dir 1, []) ∷ [])
        ≡ codes "opened 0\n1 @1 ok\n2 @2 ok 5\n3 @3 ok 68656c6c6f\n4 @4 ok 3\n7 @5 ok -\n8 @6 ok 2 b d/\n9 @7 ok 0\n10 @8 ok file 4100 2\n11 @9 ok dir 1\n" }
{}

/// The answers of a run that opens at count 33, all refused.
pub fn refusals()
    ensures { run_text 33 ((1, reply.No refusal.Einval, []) ∷ (2, reply.No refusal.Enametoolong, [])
        ∷ (3, reply.No (refusal.Enospc Dir), [])
        ∷ (4, reply.No (refusal.Enospc Nodes), []) ∷ (5, reply.No (refusal.Enospc Meta), [])
        ∷ (6, reply.No (refusal.Enospc Pages), []) ∷ [])
        ≡ codes "opened 33\n1 @34 EINVAL\n2 @35 ENAMETOOLONG\n3 @36 ENOSPC dir\n4 @37 ENOSPC nodes\n5 @38 ENOSPC meta\n6 @39 ENOSPC data\n" }
{}

/// The answers of a run that opens at count 0, all faults.
pub fn fault_replies()
    ensures { run_text 0 ((3, reply.Fault (fault.Eio 1), []) ∷ (5, reply.Fault (fault.Erofs 1), [])
        ∷ (6, reply.Fault fault.Eworn, []) ∷ (7, reply.Fault (fault.Edamaged 12 0), []) ∷ [])
        ≡ codes "opened 0\n3 @1 EIO 1\n5 @2 EROFS 1\n6 @3 EWORN\n7 @4 EDAMAGED 12 0\n" }
{}

/// The tree of a file of 4 bytes in a directory of a directory.
pub fn saved_note()
    ensures { tree_text 13 (([], directory) ∷ (codes "home" ∷ [], directory) ∷ (codes "home" ∷ codes "ann" ∷ [], directory)
        ∷ (codes "home" ∷ codes "ann" ∷ codes "note" ∷ [], file (record { size = 4; pages = (0, codes "new\n") ∷ [] })) ∷ [])
        ≡ codes "opened 13\nd / 1\nd /home 1\nd /home/ann 1\nf /home/ann/note 4 1\n" }
{}

/// A script refused, an image damaged, its findings, a sound image, and the sums of a soak.
pub fn endings()
    ensures refused { refused_text 1 14 (codes "hex") ≡ codes "script 1 14 hex\n" }
    ensures damaged { damaged_text (record { place = 1; what = Pointer }) ≡ codes "damaged 1 pointer\n" }
    ensures findings { findings_text (record { 0 = 33 }) ≡ codes "super\npointer\n" }
    ensures sound { sound_text 13 ≡ codes "sound 13\n" }
    ensures soak { soak_text 1608 1500 20 7 3 2 1
        ≡ codes "soak calls 1608 ok 1500 refused 108\nbytes written 20 read 7\ndata 3 nodes 2 meta 1\n" }
{}
