// Files and directories that are made one after the other in the running pages.
ghost use Rattle.std.specs.Prelude.{◌≡◌, ◌≢◌, ◌≤◌, length};
ghost use Rattle.nl_iface.specs.Calls.{OnlyReads};
ghost use Rattle.nl_test_namespace.specs.Volumes.{IsOpen};

use crate::paths::{Series, path_at};
use nl_field::Kind;
use nl_iface::VirtualPages;
use nl_inode::Nodes;
use nl_meta::Meta;
use nl_namespace::{Change, make};
use nl_tree::Refusal;
use std::alloc::Global;

/// How far the making of a series came, and why it ended: None where pages are to be written first, or a call answers otherwise.
#[derive(Clone, Copy)]
pub struct Made {
    pub count: u32,
    pub refusal: Option<Refusal>,
}

/// Makes the paths of a series from a number on, files of one directory or nested directories.
pub fn makes<D: VirtualPages>(
    alloc: Global,
    device: &mut D,
    meta: &mut Meta,
    nodes: &mut Nodes,
    series: Series,
    number: u32,
) -> Made
    requires formed { D.formed device.old }
    requires volume { IsOpen D.Counts device.old meta.old nodes.old }
    ensures formed { D.formed device.new }
    ensures reads { OnlyReads D.Counts device.old device.new }
    ensures volume { IsOpen D.Counts device.new meta.new nodes.new }
{
    if number >= 2000 || meta.dirty() > 50 {
        return Made {
            count: number,
            refusal: None,
        };
    }
    match make_one(alloc, device, meta, nodes, series, number) {
        One::Made => makes(alloc, device, meta, nodes, series, number + 1),
        One::No(refusal) => Made {
            count: number,
            refusal: Some(refusal),
        },
        One::Else => Made {
            count: number,
            refusal: None,
        },
    }
}

/// What came of one path.
#[derive(Clone, Copy)]
enum One {
    Made,
    No(Refusal),
    Else,
}

fn make_one<D: VirtualPages>(
    alloc: Global,
    device: &mut D,
    meta: &mut Meta,
    nodes: &mut Nodes,
    series: Series,
    number: u32,
) -> One
    requires formed { D.formed device.old }
    requires volume { IsOpen D.Counts device.old meta.old nodes.old }
    requires few { length meta.old.dirty ≤ 50 }
    ensures formed { D.formed device.new }
    ensures reads { OnlyReads D.Counts device.old device.new }
    ensures volume { IsOpen D.Counts device.new meta.new nodes.new }
{
    let Some(path) = path_at(alloc, series, number) else {
        return One::Else;
    };
    let answer = make(device, meta, nodes, &path, kind_of(series));
    one_of(answer)
}

fn one_of(answer: Change) -> One {
    match answer {
        Change::Changed { .. } => One::Made,
        Change::No(refusal) => One::No(refusal),
        _ => One::Else,
    }
}

fn kind_of(series: Series) -> Kind
    ensures { result ≢ Kind.Unused }
{
    match series {
        Series::In(_) => Kind::File,
        Series::Nested => Kind::Dir,
    }
}
