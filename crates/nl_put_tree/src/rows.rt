//! What is said of a file that is put, on worked rows.
ghost use Rattle.std.specs.Prelude.{◌≡◌, ◌∷◌, [], None, Some, codes, true, false};
ghost use Rattle.nl_tree.specs.Tree.{directory, empty_tree, file};
ghost use Rattle.nl_tree.specs.declared.call.Call.TheVariants.{Create};
ghost use Rattle.nl_tree.specs.declared.reply.FaultReply.TheVariants.{Eio};
ghost use Rattle.nl_tree.specs.declared.reply.Refusal.TheVariants.{Eexist, Eisdir, Enoent};
ghost use Rattle.nl_tree.specs.declared.reply.Reply.TheVariants.{Done, Fault, No};
ghost use Rattle.nl_put_tree.specs.Examples.{a, own, small, two_zeros, with_empty};
ghost use Rattle.nl_put_tree.specs.Putting.{CanBeNamed, HoldsBytes, IsBeside, IsContentOf, IsDue, Refuses, after, is_fault};

/// A file has its bytes, and no others; what is no file has none.
pub fn contents()
    ensures whole { IsContentOf two_zeros (0 ∷ 0 ∷ []) }
    ensures short { IsContentOf two_zeros (0 ∷ []) → ⊥ }
    ensures other { IsContentOf two_zeros (0 ∷ 1 ∷ []) → ⊥ }
    ensures of_file { HoldsBytes (Some (file two_zeros)) (0 ∷ 0 ∷ []) }
    ensures of_directory { HoldsBytes (Some directory) [] → ⊥ }
    ensures of_nothing { HoldsBytes None [] → ⊥ }
{}

/// A name of its own stands in the same directory, begins so, and is another one; a file can have a path that nothing has.
pub fn names()
    ensures beside { IsBeside a own }
    ensures itself { IsBeside own own → ⊥ }
    ensures elsewhere { IsBeside a (codes "d" ∷ codes ".put-0" ∷ []) → ⊥ }
    ensures unmarked { IsBeside own a → ⊥ }
    ensures free { CanBeNamed empty_tree own }
    ensures taken { CanBeNamed (with_empty own) own → ⊥ }
    ensures no_directory { CanBeNamed empty_tree (codes "d" ∷ codes ".put-0" ∷ []) → ⊥ }
{}

/// What is due to a call, and the tree after it.
pub fn answers()
    ensures due { IsDue small empty_tree (Create own) Done }
    ensures not_due { IsDue small empty_tree (Create own) (No Eexist) → ⊥ }
    ensures fault_due { IsDue small empty_tree (Create own) (Fault (Eio 1)) }
    ensures made { after small empty_tree (Create own) Done ≡ with_empty own }
    ensures not_made { after small empty_tree (Create own) (Fault (Eio 1)) ≡ empty_tree }
    ensures fault { is_fault (Fault (Eio 1)) ≡ true }
    ensures no_fault { is_fault Done ≡ false }
{}

/// The root is refused, and a path in a directory that is not there.
pub fn refusals()
    ensures root { Refuses small empty_tree own [] [] Eisdir }
    ensures no_directory { Refuses small empty_tree (codes "d" ∷ codes ".put-0" ∷ []) (codes "d" ∷ codes "a" ∷ []) [] Enoent }
{}
