//! Rows of what calls commit and program: worked examples, evaluated.
ghost use Rattle.std.specs.Prelude.{◌≡◌, [], false, true};
ghost use Rattle.nl_tree.specs.declared.call.Call.TheVariants.{Clean, Fill, Mkdir, Stat, Sync, Truncate};
ghost use Rattle.nl_calls.specs.Commits.{is_to_commit, most_dirtied, most_programmed};

/// A sync and a call for cleaning are there to commit; a fill is not. Two bytes over the end of a page program two pages, and a page of
/// bytes at the begin of one programs one. A truncate programs one page at most. A look makes no page dirty.
pub fn commits_in_rows()
    ensures sync { is_to_commit Sync ≡ true }
    ensures clean { is_to_commit Clean ≡ true }
    ensures fill { is_to_commit (Fill [] 4095 2 7) ≡ false }
    ensures over { most_programmed (Fill [] 4095 2 7) ≡ 2 }
    ensures within { most_programmed (Fill [] 4096 4096 7) ≡ 1 }
    ensures cut { most_programmed (Truncate [] 5000) ≡ 1 }
    ensures name { most_dirtied (Mkdir []) ≡ 9 }
    ensures look { most_dirtied (Stat []) ≡ 0 }
{}
