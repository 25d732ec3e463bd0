// A node that has lost its name becomes unused, and its addresses and its number free.
ghost use Rattle.std.specs.Prelude.{◌≡◌, ◌<◌, IsSome, [], true, length};
ghost use Rattle.nl_files.specs.Cutting.{AreOfPool, GivesBackAddresses};
ghost use Rattle.nl_inode.specs.Nodes.{page_of_node};
ghost use Rattle.nl_meta.specs.Nodes.{inode_at};
ghost use Rattle.nl_meta.specs.Pages.{has_room, page_of};
ghost use Rattle.nl_calls_names.specs.Dropping.{DropsNode, HasOfPool, unused_as};

use nl_field::{InodeRec, Kind, Pointer};
use nl_inode::Nodes;
use nl_meta::Meta;

const SLOTS: usize = 16;

/// Makes a node without a name unused: its page, which is resident and may become dirty, says so, and its addresses and its number are
/// free. What its pointers lead to is not freed here.
pub(crate) fn drop_node(meta: &mut Meta, nodes: &mut Nodes, ino: u32)
    requires there { IsSome (page_of meta.old (page_of_node ino)) }
    requires spelled { IsSome (inode_at (page_of meta.old) ino) }
    requires room { has_room meta.old (page_of_node ino) ≡ true }
    requires below { ino < length nodes.old.nodes }
    requires pool { HasOfPool ino meta.old nodes.old }
    ensures { DropsNode ino meta.old meta.new nodes.old nodes.new }
{
    let rec = nodes.get(meta, ino);
    let _ = nodes.put(meta, ino, &unused(rec.generation));
    give_all(nodes, &rec.addresses);
    nodes.give_node(ino);
}

// The record of a node that is unused from now on.
fn unused(generation: u32) -> InodeRec
    ensures { result ≡ unused_as generation }
{
    InodeRec {
        kind: Kind::Unused,
        generation,
        size: 0,
        direct: [Pointer { name: 0, stamp: 0 }; 8],
        addresses: [0; 16],
    }
}

// The addresses are free that are not 0.
fn give_all(nodes: &mut Nodes, addresses: &[u32; 16])
    requires pool { AreOfPool nodes.old addresses.now }
    ensures { GivesBackAddresses addresses.now [] nodes.old nodes.new }
{
    for slot in 0..SLOTS {
        if addresses[slot] != 0 {
            nodes.give_pool(addresses[slot]);
        }
    }
}
