//! An entry is put into a directory or taken out, with the record written back and the address of its last page taken or given.
ghost use Rattle.std.specs.Prelude.{◌≡◌, IsSome, IsTrue};
ghost use Rattle.nl_field.specs.Inode.{is_inode};
ghost use Rattle.nl_meta.specs.Pages.{has_room, page_of};
ghost use Rattle.nl_inode.specs.Nodes.{PutsNode, page_of_node};
ghost use Rattle.nl_namespace.specs.Entering.{FitsBehind, HasNamed, PutsIn, TakesOut};

use nl_dir::{insert, remove};
use nl_field::{EntryRec, InodeRec};
use nl_inode::Nodes;
use nl_meta::Meta;

/// Puts an entry behind those of a directory. Where its last page is full it takes the least free address of the pool for a new one.
pub(crate) fn put_in(meta: &mut Meta, nodes: &mut Nodes, dir: u32, entry: &EntryRec)
    requires { FitsBehind dir entry.now meta.old nodes.old }
    ensures { PutsIn dir entry.now meta.old meta.new nodes.old nodes.new }
{
    let mut rec = nodes.get(meta, dir);
    let fresh = if rec.size % 64 == 0 {
        nodes.take_pool()
    } else {
        None
    };
    insert(&mut rec, meta, entry, fresh);
    put(meta, nodes, dir, &rec);
}

/// Removes the entry of a name from a directory. The address of a page that is given up is free.
pub(crate) fn take_out(meta: &mut Meta, nodes: &mut Nodes, dir: u32, name: &[u8])
    requires { HasNamed dir name.now meta.old nodes.old }
    ensures { TakesOut dir name.now meta.old meta.new nodes.old nodes.new }
{
    let mut rec = nodes.get(meta, dir);
    let given = remove(&mut rec, meta, name);
    put(meta, nodes, dir, &rec);
    if let Some(vaddr) = given {
        nodes.give_pool(vaddr);
    }
}

/// Gives a node a record, where there is room for its page.
pub(crate) fn put(meta: &mut Meta, nodes: &mut Nodes, ino: u32, rec: &InodeRec)
    requires there { IsSome (page_of meta.old (page_of_node ino)) }
    requires spelled { IsTrue (is_inode rec.now) }
    requires room { IsTrue (has_room meta.old (page_of_node ino)) }
    ensures done { PutsNode ino rec.now meta.old meta.new }
    ensures spaces { nodes.new ≡ nodes.old }
{
    let _done = nodes.put(meta, ino, rec);
}
