ghost use Rattle.std.specs.Prelude.{◌≡◌, ◌<◌, ◌≤◌, ◌+◌, ◌^◌, ◌++◌, IsSome, IsTrue, Some, length};
ghost use Rattle.nl_field.specs.Spelling.{is_stamp};
ghost use Rattle.nl_inode.specs.Nodes.{page_of_node};
ghost use Rattle.nl_indirect.specs.Ranges.{HasRange, IsFileRecord};
ghost use Rattle.nl_indirect.specs.Storing.{BeginsRange};
ghost use Rattle.nl_meta.specs.Committed.{VirtualMap};
ghost use Rattle.nl_meta.specs.Nodes.{pointer_at};
ghost use Rattle.nl_meta.specs.Pages.{page_of};
ghost use Rattle.nl_meta.specs.Running.{running_over};
ghost use Rattle.nl_files.specs.Installing.{FreeAreNewToFile, HasFree};
ghost use Rattle.nl_files.specs.Spans.{as_list};
ghost use Rattle.nl_calls_files.specs.Taking.{HasRoomToTake, TakesPage};

use nl_field::{InodeRec, Pointer, PointerList};
use nl_files::install;
use nl_inode::Nodes;
use nl_meta::Meta;

/// Gives a page index of a file a pointer, and the file a size, and writes the record of its node back. The pages of the record and of the
/// pointer are resident. The pointer that the index had stands behind those of a list that has room for it.
pub fn take_page(
    meta: &mut Meta,
    nodes: &mut Nodes,
    rec: &mut InodeRec,
    ino: u32,
    index: u32,
    to: Pointer,
    size: u64,
    freeing: &mut PointerList,
)
    requires within { index < 4104 }
    requires file { IsFileRecord rec.old }
    requires size { size ≤ 16809984 }
    requires there { IsSome (page_of meta.old (page_of_node ino)) }
    requires range { HasRange (page_of meta.old) rec.old index }
    requires to { IsTrue (is_stamp to.stamp) }
    requires room { HasRoomToTake meta.old rec.old ino index }
    requires free { FreeAreNewToFile nodes.old meta.old rec.old }
    requires fresh { BeginsRange rec.old index (Some to) → HasFree nodes.old }
    requires place { 0 < freeing.old.room }
    requires few { length freeing.old.items + 1 < 2 ^ 32 }
    ensures taken { TakesPage ino index to size rec.old rec.new meta.old meta.new nodes.old nodes.new }
    ensures freeing { (device : VirtualMap)
        → freeing.new.items ≡ freeing.old.items ++ as_list (pointer_at (running_over device meta.old) rec.old index) }
    ensures left { length freeing.old.items + freeing.old.room ≤ length freeing.new.items + freeing.new.room }
{
    install(meta, nodes, rec, index, to, freeing);
    rec.size = size;
    let _ = nodes.put(meta, ino, rec);
}
