//! A file gets a size, and the pointers behind it are taken away.
ghost use Rattle.std.specs.Prelude.{◌≡◌, ◌≢◌, ◌<◌, ◌≤◌, ◌+◌, ◌/◌, ◌^◌, ◌++◌, [], if◌then◌else◌, is_some, IfSome, IsSome, true, length};
ghost use Rattle.nl_meta.specs.Committed.{VirtualMap};
ghost use Rattle.nl_meta.specs.Nodes.{pointer_at, slots_of};
ghost use Rattle.nl_meta.specs.Pages.{has_room, page_of};
ghost use Rattle.nl_meta.specs.Running.{running_over};
ghost use Rattle.nl_indirect.specs.Ranges.{HasRange, IsFileRecord, address_of};
ghost use Rattle.nl_files.specs.Cutting.{AreOfPool, Cuts, GivesBackAddresses, IsPartial};
ghost use Rattle.nl_files.specs.Spans.{as_list};

use crate::installing::replace;
use nl_field::{InodeRec, Pointer, PointerList};
use nl_indirect::truncate;
use nl_inode::Nodes;
use nl_meta::Meta;

const PAGE: u64 = 4096;

const RANGES: usize = 16;

/// Gives a file a size of at most 16,809,984 bytes, and takes away the pointers of the page indexes wholly behind it: what they lead
/// to is not freed here. The page of the index in which the file ends is resident and may become dirty. `partial` becomes the pointer
/// of this index, and the one that it had stands behind those of a list that has room for it. The addresses of ranges that have no
/// pointer any more are free. The node's page is not written.
pub fn cut(
    meta: &mut Meta,
    nodes: &mut Nodes,
    rec: &mut InodeRec,
    size: u64,
    partial: Option<Pointer>,
    freeing: &mut PointerList,
)
    requires size { size ≤ 16809984 }
    requires file { IsFileRecord rec.old }
    requires range { HasRange (page_of meta.old) rec.old (size / 4096) }
    requires room { address_of rec.old (size / 4096) ≢ 0 → has_room meta.old (address_of rec.old (size / 4096)) ≡ true }
    requires pool { AreOfPool nodes.old (slots_of rec.old) }
    requires partial { IfSome partial (IsPartial size rec.old) }
    requires place { IsSome partial → 0 < freeing.old.room }
    requires few { IsSome partial → length freeing.old.items + 1 < 2 ^ 32 }
    ensures cut { Cuts size partial rec.old rec.new meta.old meta.new nodes.old nodes.new }
    ensures freeing { (device : VirtualMap) → freeing.new.items
        ≡ freeing.old.items ++ (if is_some partial then as_list (pointer_at (running_over device meta.old) rec.old (size / 4096)) else []) }
    ensures left { length freeing.old.items + freeing.old.room ≤ length freeing.new.items + freeing.new.room }
{
    let before = rec.addresses;
    if let Some(to) = partial {
        replace(meta, rec, (size / PAGE) as u32, to, None, freeing);
    }
    truncate(rec, meta, size.div_ceil(PAGE) as u32);
    give_back(nodes, &before, &rec.addresses);
    rec.size = size;
}

// The addresses are free that stood in the first list, and in whose places the second has none.
fn give_back(nodes: &mut Nodes, was: &[u32; 16], is: &[u32; 16])
    requires pool { AreOfPool nodes.old was.now }
    ensures { GivesBackAddresses was.now is.now nodes.old nodes.new }
{
    for range in 0..RANGES {
        if was[range] != 0 && is[range] == 0 {
            nodes.give_pool(was[range]);
        }
    }
}
