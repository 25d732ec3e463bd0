ghost use Rattle.std.specs.Prelude.{◌≡◌, ◌<◌, ◌≤◌, ◌+◌, ◌/◌, ◌^◌, ◌++◌, [], if◌then◌else◌, is_some, IfSome, IsSome, length};
ghost use Rattle.nl_inode.specs.Nodes.{page_of_node};
ghost use Rattle.nl_indirect.specs.Ranges.{HasRange, IsFileRecord};
ghost use Rattle.nl_meta.specs.Committed.{VirtualMap};
ghost use Rattle.nl_meta.specs.Nodes.{pointer_at, slots_of};
ghost use Rattle.nl_meta.specs.Pages.{page_of};
ghost use Rattle.nl_meta.specs.Running.{running_over};
ghost use Rattle.nl_files.specs.Cutting.{AreOfPool, IsPartial};
ghost use Rattle.nl_files.specs.Spans.{as_list};
ghost use Rattle.nl_calls_files.specs.Cutting.{CutsTo};
ghost use Rattle.nl_calls_files.specs.Taking.{HasRoomToTake};

use nl_field::{InodeRec, Pointer, PointerList};
use nl_files::cut;
use nl_inode::Nodes;
use nl_meta::Meta;

/// Cuts a file to a size, and writes the record of its node back. The pages of the record and of the pointer of the index in which the file
/// ends are resident. `partial` becomes that pointer, and the one that it was stands behind those of a list that has room for it.
pub fn cut_back(
    meta: &mut Meta,
    nodes: &mut Nodes,
    rec: &mut InodeRec,
    ino: u32,
    size: u64,
    partial: Option<Pointer>,
    freeing: &mut PointerList,
)
    requires size { size ≤ 16809984 }
    requires file { IsFileRecord rec.old }
    requires there { IsSome (page_of meta.old (page_of_node ino)) }
    requires range { HasRange (page_of meta.old) rec.old (size / 4096) }
    requires room { HasRoomToTake meta.old rec.old ino (size / 4096) }
    requires pool { AreOfPool nodes.old (slots_of rec.old) }
    requires partial { IfSome partial (IsPartial size rec.old) }
    requires place { IsSome partial → 0 < freeing.old.room }
    requires few { IsSome partial → length freeing.old.items + 1 < 2 ^ 32 }
    ensures cut { CutsTo ino size partial rec.old rec.new meta.old meta.new nodes.old nodes.new }
    ensures freeing { (device : VirtualMap)
        → freeing.new.items ≡ freeing.old.items
        ++ (if is_some partial then as_list (pointer_at (running_over device meta.old) rec.old (size / 4096)) else []) }
    ensures left { length freeing.old.items + freeing.old.room ≤ length freeing.new.items + freeing.new.room }
{
    cut(meta, nodes, rec, size, partial, freeing);
    let _ = nodes.put(meta, ino, rec);
}
