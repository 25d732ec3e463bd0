//! Laws of the definitions. Each function stands for the law that its contract names.
ghost use Rattle.nl_put_tree.specs.Laws.{PutLaws};

/// What each call of a put does to the tree, and what it answers.
pub fn put_laws()
    ensures { PutLaws }
{}
