//! A free node gets a record and a name.
ghost use Rattle.std.specs.Prelude.{◌≡◌, ◌≢◌, ◌&&◌, nat_le, IsTrue, length};
ghost use Rattle.nl_field.specs.Names.{is_name};
ghost use Rattle.nl_field.specs.Numbers.{max_name};
ghost use Rattle.nl_namespace.specs.Making.{FitsNew, MakesIn};

use crate::entering::{put, put_in};
use nl_field::{EntryRec, Kind, Name};
use nl_inode::{Nodes, taken};
use nl_meta::Meta;

/// A free node is used from now on, with an empty record of the generation after its last one, under a name of a directory.
pub(crate) fn name_node(
    meta: &mut Meta,
    nodes: &mut Nodes,
    dir: u32,
    ino: u32,
    kind: Kind,
    name: Name,
)
    requires fits { FitsNew dir ino name meta.old nodes.old }
    requires used { kind ≢ Kind.Unused }
    ensures { MakesIn dir ino kind name meta.old meta.new nodes.old nodes.new }
{
    let rec = taken(kind, nodes.get(meta, ino).generation);
    let generation = rec.generation;
    put(meta, nodes, ino, &rec);
    nodes.use_node(ino);
    let entry = EntryRec {
        ino,
        generation,
        name,
    };
    put_in(meta, nodes, dir, &entry);
}

/// The name of these bytes, which are one.
pub(crate) fn name_of(bytes: &[u8]) -> Name
    requires { IsTrue (is_name bytes.now && nat_le (length bytes.now) max_name) }
    ensures { result ≡ bytes.now }
{
    match Name::of(bytes) {
        Some(name) => name,
        None => unreachable!(),
    }
}
