//! What is free for a new node or a new page of a directory, and what there is not enough of.
ghost use Rattle.std.specs.Prelude.{◌≡◌, ◌≤◌, IfErr, IfOk, MatchBool, MatchOption};
ghost use Rattle.nl_inode.specs.Free.{IsLeastFreeNumber, NoneFree};
ghost use Rattle.nl_namespace.specs.Entering.{HasFreeAddress};
ghost use Rattle.nl_namespace.specs.Making.{HasRoomForNode};
ghost use Rattle.nl_namespace.specs.Naming.{IsFull};

use nl_inode::Nodes;
use nl_tree::Space;

/// The most entries of a directory.
const MOST: u64 = 1024;

/// The least free node, which stays free.
pub(crate) fn least_node(nodes: &mut Nodes) -> Option<u32>
    ensures least { MatchOption result (NoneFree nodes.old.nodes) (λ n. IsLeastFreeNumber n nodes.old.nodes) }
    ensures same { nodes.new ≡ nodes.old }
{
    let least = nodes.take_node();
    if let Some(ino) = least {
        nodes.give_node(ino);
    }
    least
}

/// Whether an address of the pool is free.
pub(crate) fn has_address(nodes: &mut Nodes) -> bool
    ensures free { MatchBool result (HasFreeAddress nodes.old) (NoneFree nodes.old.pool) }
    ensures same { nodes.new ≡ nodes.old }
{
    match nodes.take_pool() {
        Some(vaddr) => {
            nodes.give_pool(vaddr);
            true
        }
        None => false,
    }
}

/// The least free node, where a directory of so many entries has room for it; or what there is not enough of.
pub(crate) fn room_for(nodes: &mut Nodes, count: u64) -> Result<u32, Space>
    requires { count ≤ 1024 }
    ensures spare { IfOk result (HasRoomForNode nodes.old count) }
    ensures full { IfErr result (IsFull nodes.old count) }
    ensures same { nodes.new ≡ nodes.old }
{
    if count == MOST {
        return Err(Space::Dir);
    }
    match least_node(nodes) {
        Some(ino) => {
            if count % 64 == 0 && !has_address(nodes) {
                Err(Space::Meta)
            } else {
                Ok(ino)
            }
        }
        None => Err(Space::Nodes),
    }
}
