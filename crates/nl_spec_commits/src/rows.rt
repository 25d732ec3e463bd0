//! What may be acknowledged, and what awaits its free, on worked rows, right ones and wrong ones.
ghost use Rattle.std.specs.Prelude.{◌≡◌, ◌∷◌, [], ⊤, true, false, None, Some};
ghost use Rattle.nl_field.specs.Pointers.{no_pointer};
ghost use Rattle.nl_spec_commits.specs.Changes.{awaiting_then};
ghost use Rattle.nl_spec_commits.specs.Examples.{fourth_frozen, some_pointer};
ghost use Rattle.nl_spec_commits.specs.Held.{leaving_after};
ghost use Rattle.nl_spec_commits.specs.SettlingLaws.{MayAcknowledge};

/// While transaction 4 is written, callbacks that transactions up to 3 handled may be acknowledged.
pub fn acknowledges_what_counts()
    ensures { MayAcknowledge ⊤ fourth_frozen 3 }
{}

/// While transaction 4 is written, callbacks that it handled may not be acknowledged.
pub fn acknowledges_what_is_frozen()
    ensures { MayAcknowledge ⊤ fourth_frozen 4 → ⊥ }
{}

/// The page of a pointer that is replaced awaits its free, and nothing does where an index had no pointer.
pub fn awaits_what_is_replaced()
    ensures replaced { awaiting_then [] some_pointer ≡ some_pointer ∷ [] }
    ensures none { awaiting_then [] no_pointer ≡ [] }
{}

/// Three pages await their free, and the transaction that was frozen gives up one of them. A commit that froze the dirty pages gives up all
/// three, and none once their commit page was finished. One that was cut short before gives up that one still, and none once the commit
/// page of the earlier transaction was finished.
pub fn gives_up_after_a_commit()
    ensures froze { leaving_after true None None 3 1 ≡ 3 }
    ensures decided { leaving_after true None (Some 9) 3 1 ≡ 0 }
    ensures waits { leaving_after false None None 3 1 ≡ 1 }
    ensures earlier { leaving_after false (Some 8) None 3 1 ≡ 0 }
    ensures not_all { leaving_after false None None 3 1 ≡ 3 → ⊥ }
{}
