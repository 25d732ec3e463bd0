//! Laws of nodes and of what is free: it stays what the pages do not use, and no page in memory is lost. A function stands for each law.
ghost use Rattle.nl_inode.specs.FreeLaws.{FreeIsUnused};
ghost use Rattle.nl_inode.specs.PageLaws.{NodesChangePages};

use nl_iface::VirtualPages;

/// Where what is free is exactly what the pages do not use, it stays so as nodes and addresses are taken and given.
pub fn free_is_unused()
    ensures { FreeIsUnused }
{}

/// The calls lose no page of those in memory, and thaw none.
pub fn nodes_change_pages<D: VirtualPages>()
    ensures { NodesChangePages D.Counts }
{}
