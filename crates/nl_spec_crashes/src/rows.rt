//! Runs of few calls and the trees of a volume along them, right ones and wrong ones.
ghost use Rattle.std.specs.Prelude.{◌≡◌};
ghost use Rattle.nl_tree.specs.Tree.{empty_tree};
ghost use Rattle.nl_spec_crashes.specs.Along.{SyncsAreCommitted, last_tree, tree_at};
ghost use Rattle.nl_spec_crashes.specs.Examples.{both_there, committed_at, one_there, two_made};

/// A volume that answered two calls runs as the tree after both, and a stop may leave that after none or one.
pub fn runs_after_all_calls()
    ensures last { last_tree two_made ≡ both_there }
    ensures first { tree_at two_made 1 ≡ one_there }
    ensures none { tree_at two_made 0 ≡ empty_tree }
{}

/// A volume with the tree after the first call committed has what its sync made durable.
pub fn commits_what_was_synced()
    ensures { SyncsAreCommitted two_made (committed_at (1, one_there)) }
{}

/// A volume with the tree before all calls committed has not, though it answered both.
pub fn commits_less_than_was_synced()
    ensures { SyncsAreCommitted two_made (committed_at (0, empty_tree)) → ⊥ }
{}
