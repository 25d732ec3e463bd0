//! Laws of pointers that are stored: the change of one file, and of no other node. A function stands for each law.
ghost use Rattle.nl_indirect.specs.FileLaws.{FileOfNode, OnePointerStored, OtherNodes, ResidentPointers, StoredFile};
ghost use Rattle.nl_indirect.specs.PageLaws.{StoringChangesPages, TruncatingChangesPages};

/// A page of pointers is its file's alone: nodes, and files and directories without its address, are as before.
pub fn other_nodes()
    ensures { OtherNodes }
{}

/// What was stored is found again, each address of the file is still one of the pool that spells pointers, and a page is given back
/// exactly where its range lost its last pointer.
pub fn stored_file()
    ensures { StoredFile }
{}

/// What calls need of a file holds of each file of a volume whose addresses are right, where the page is resident.
pub fn file_of_node()
    ensures node { FileOfNode }
    ensures pages { ResidentPointers }
{}

/// Once the record is written back, one pointer of one file changed, and nothing of any other node.
pub fn one_pointer_stored()
    ensures { OnePointerStored }
{}

/// The calls lose no page of those in memory, and thaw none.
pub fn calls_change_pages()
    ensures storing { StoringChangesPages }
    ensures truncating { TruncatingChangesPages }
{}
