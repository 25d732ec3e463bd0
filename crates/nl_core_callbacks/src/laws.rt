//! The law of the tree where only names of pages change. A function stands for it.
ghost use Rattle.nl_core_callbacks.specs.Laws.{TreesStay};

/// Where only names of pages change, the nodes stand for the tree that they stood for.
pub fn trees_stay()
    ensures { TreesStay }
{}
