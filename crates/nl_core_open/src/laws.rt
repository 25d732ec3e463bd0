//! The law of a sound image: it has a readable page. A function stands for it.
ghost use Rattle.nl_core_open.specs.Laws.{ConsistentIsReadable};

/// An image that is sound as a tree is not blank: it has a readable page.
pub fn sound_is_readable()
    ensures { ConsistentIsReadable }
{}
