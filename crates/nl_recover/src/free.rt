//! The free nodes and the free addresses of a volume, gathered from its records.
ghost use Rattle.std.specs.Prelude.{◌≡◌, ◌<◌, ◌∷◌, [], IfOk, true};
ghost use Rattle.nl_field.specs.Numbers.{ShapeBounds};
ghost use Rattle.nl_inode.specs.Nodes.{AreFree};
ghost use Rattle.nl_meta.specs.Nodes.{inode_at};
ghost use Rattle.nl_meta.specs.Pages.{page_of};
ghost use Rattle.nl_recover.specs.Freeing.{SpacesOf, TakesAddresses, TakesNode, taken_by};
ghost use Rattle.nl_recover.specs.Reaching.{is_used_record};

use crate::look::inode;
use nl_field::{Kind, Memory, Shape};
use nl_inode::Nodes;
use nl_meta::Meta;
use std::alloc::Global;

/// The free nodes and the free addresses of the pool: those that no used node has.
pub fn free_lists(alloc: Global, shape: &Shape, meta: &Meta) -> Result<Nodes, Memory>
    requires { ShapeBounds shape.now }
    ensures free { IfOk result (AreFree shape.now (page_of meta.now)) }
    ensures spaces { IfOk result (SpacesOf shape.now) }
{
    let mut nodes = Nodes::new(alloc, *shape)?;
    for ino in 0..shape.nodes {
        use_node(&mut nodes, shape, meta, ino);
    }
    Ok(nodes)
}

// The node and its addresses are in use, where it is a used one.
fn use_node(nodes: &mut Nodes, shape: &Shape, meta: &Meta, ino: u32)
    requires bounds { ShapeBounds shape.now }
    requires spaces { SpacesOf shape.now nodes.old }
    requires below { ino < shape.now.nodes }
    ensures { TakesNode shape.now ino (is_used_record (inode_at (page_of meta.now) ino))
        (taken_by (inode_at (page_of meta.now) ino)) nodes.old nodes.new }
{
    match inode(meta, ino) {
        Some(rec) => match rec.kind {
            Kind::Unused => {}
            Kind::File => use_both(nodes, shape, ino, &rec.addresses),
            Kind::Dir => use_both(nodes, shape, ino, &rec.addresses),
        },
        None => {}
    }
}

fn use_both(nodes: &mut Nodes, shape: &Shape, ino: u32, addresses: &[u32])
    requires bounds { ShapeBounds shape.now }
    requires spaces { SpacesOf shape.now nodes.old }
    requires below { ino < shape.now.nodes }
    ensures { TakesNode shape.now ino true addresses.now nodes.old nodes.new }
{
    use_addresses(nodes, shape, addresses);
    nodes.use_node(ino);
}

// The addresses of the pool among these are in use.
fn use_addresses(nodes: &mut Nodes, shape: &Shape, addresses: &[u32])
    requires bounds { ShapeBounds shape.now }
    requires spaces { SpacesOf shape.now nodes.old }
    ensures { TakesAddresses shape.now addresses.now nodes.old nodes.new }
{
    for address in addresses {
        use_address(nodes, shape, *address);
    }
}

fn use_address(nodes: &mut Nodes, shape: &Shape, address: u32)
    requires bounds { ShapeBounds shape.now }
    requires spaces { SpacesOf shape.now nodes.old }
    ensures { TakesAddresses shape.now (address ∷ []) nodes.old nodes.new }
{
    if address < 67 + shape.inode_pages {
        return;
    }
    if shape.vaddrs <= address {
        return;
    }
    nodes.use_pool(address);
}
