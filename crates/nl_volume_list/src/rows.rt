// What a walk has to give of a small tree, computed from the definitions.
ghost use Rattle.std.specs.Prelude.{◌≡◌, ◌∷◌, [], codes};
ghost use Rattle.nl_volume_list.specs.Examples.{small_tree};
ghost use Rattle.nl_volume_list.specs.Items.{items_behind, items_of};
ghost use Rattle.nl_volume_list.specs.declared.item.TreeItem.TheVariants as item;

/// All paths: each directory before what is under it, and names by their bytes.
pub fn all_items()
    ensures { items_of small_tree ≡ ([], item.Dir 3) ∷ (codes "a" ∷ [], item.Dir 1) ∷ (codes "a" ∷ codes "x" ∷ [], item.File 4 1)
        ∷ (codes "a!" ∷ [], item.File 8192 0) ∷ (codes "b" ∷ [], item.Dir 0) ∷ [] }
{}

/// What is left behind a file, behind a directory, and behind the last path.
pub fn left_items()
    ensures file { items_behind (codes "a" ∷ codes "x" ∷ []) (items_of small_tree)
        ≡ (codes "a!" ∷ [], item.File 8192 0) ∷ (codes "b" ∷ [], item.Dir 0) ∷ [] }
    ensures directory { items_behind (codes "a" ∷ []) (items_of small_tree)
        ≡ (codes "a" ∷ codes "x" ∷ [], item.File 4 1) ∷ (codes "a!" ∷ [], item.File 8192 0) ∷ (codes "b" ∷ [], item.Dir 0) ∷ [] }
    ensures last { items_behind (codes "b" ∷ []) (items_of small_tree) ≡ [] }
{}
