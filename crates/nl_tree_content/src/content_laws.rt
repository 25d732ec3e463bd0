//! Laws of one file's content. Each function stands for the laws that its contract names.
ghost use Rattle.nl_tree_content.specs.ContentLaws.{ByteLaws, CutLaws, WriteLaws};

/// Where a file's bytes lie in its pages.
pub fn bytes_of_content()
    ensures { ByteLaws }
{}

/// The size, the bytes and the pages of a file after a write.
pub fn content_after_write()
    ensures { WriteLaws }
{}

/// The size, the bytes and the pages of a file after a cut, or after it was lengthened.
pub fn content_after_cut()
    ensures { CutLaws }
{}
