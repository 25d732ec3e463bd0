// Tables of steps on a file of a blank volume, with what is read of it at the end.
ghost use Rattle.std.specs.Prelude.{◌≡◌, [], IfOk};
ghost use Rattle.nl_field.specs.Numbers.{ShapeBounds, shape_for};
ghost use Rattle.nl_field.specs.declared.inode.Kind.TheVariants.{File};
ghost use Rattle.nl_inode.specs.Nodes.{taken_as};
ghost use Rattle.nl_test_namespace.specs.Files.{HasFile};

use crate::device::{Stamps, blank};
use crate::files::{Step, do_all, ends};
use nl_device::{Device, Started};
use nl_field::{Kind, Memory, PageBuf, PointerList, Shape, shape_of};
use nl_iface::Counts;
use nl_inode::{Nodes, taken};
use nl_meta::Meta;
use nl_nand::MemNand;
use std::alloc::Global;
use std::test::Fail;

/// What is read at the end, behind zeros, and the size, the number of pages and of pointers that were replaced.
#[derive(Clone, Copy, PartialEq)]
struct Ended {
    size: u64,
    pages: u32,
    replaced: u32,
    bytes: [u8; 12],
}

fn started(alloc: Global) -> Result<Device<MemNand>, Memory>
    ensures formed { IfOk result (λ d. ⟦<Device<MemNand> as Counts>⟧.formed d) }
    ensures numbers { IfOk result (λ d. ⟦<Device<MemNand> as Counts>⟧.shape d ≡ shape_for 32 32) }
    ensures idle { IfOk result (λ d. (⟦<Device<MemNand> as Counts>⟧.names d).pending ≡ []) }
{
    let media = blank(alloc, 32, 32)?;
    match Device::start(alloc, media) {
        Started::Ready(device, _) => Ok(device),
        _ => Err(Memory),
    }
}

/// A file of a blank volume after the steps of a row, and what is read of it. None where something else came.
fn outcome<D: Stamps>(
    alloc: Global,
    device: &mut D,
    shape: Shape,
    row: &Row,
) -> Result<Option<Ended>, Memory>
    requires formed { D.formed device.old }
    requires numbers { D.shape device.old ≡ shape_for 32 32 }
    requires idle { (D.names device.old).pending ≡ [] }
    requires shape { shape ≡ shape_for 32 32 }
    requires bounds { ShapeBounds shape }
{
    let mut meta = Meta::new(alloc, shape)?;
    let mut nodes = Nodes::new(alloc, shape)?;
    let mut page = PageBuf::new(alloc)?;
    let mut freeing = PointerList::new(alloc);
    Ok(end_of(device, &mut meta, &mut nodes, &mut page, &mut freeing, row))
}

fn end_of<D: Stamps>(
    device: &mut D,
    meta: &mut Meta,
    nodes: &mut Nodes,
    page: &mut PageBuf,
    freeing: &mut PointerList,
    row: &Row,
) -> Option<Ended>
    requires formed { D.formed device.old }
    requires file { HasFile D.Counts device.old meta.old nodes.old (taken_as File 0) }
{
    let mut rec = taken(Kind::File, 0);
    if !do_all(device, meta, nodes, &mut rec, row.steps, page, freeing) {
        return None;
    }
    let mut bytes = [0; 12];
    if row.count > 12 {
        return None;
    }
    let (size, pages) = ends(
        device,
        meta,
        nodes,
        &rec,
        row.at,
        &mut bytes[..row.count],
        page,
    )?;
    Some(Ended {
        size,
        pages,
        replaced: freeing.len(),
        bytes,
    })
}

/// What the file of a row ends as, over a device in memory.
fn outcome_in_memory(alloc: Global, row: &Row) -> Result<Option<Ended>, Memory> {
    let mut device = started(alloc)?;
    match shape_of(32, 32) {
        Some(shape) => outcome(alloc, &mut device, shape, row),
        None => Err(Memory),
    }
}

/// Steps, from where so many bytes are read, and what the file has.
struct Row {
    steps: &'static [Step],
    at: u64,
    count: usize,
    want: Ended,
}

const ROWS: [Row; 10] = [
    // ten bytes over the border of two pages
    Row {
        steps: &[
            Step::Size(4100),
            Step::Page(0, 4090, &[0, 1, 2, 3, 4, 5]),
            Step::Page(1, 0, &[6, 7, 8, 9]),
        ],
        at: 4088,
        count: 12,
        want: Ended {
            size: 4100,
            pages: 2,
            replaced: 0,
            bytes: [0, 0, 0, 1, 2, 3, 4, 5, 6, 7, 8, 9],
        },
    },
    // the pages before a page that was written read as zeros
    Row {
        steps: &[Step::Size(20001), Step::Page(4, 3616, &[1])],
        at: 0,
        count: 4,
        want: Ended {
            size: 20001,
            pages: 1,
            replaced: 0,
            bytes: [0; 12],
        },
    },
    Row {
        steps: &[Step::Size(20001), Step::Page(4, 3616, &[1])],
        at: 19998,
        count: 3,
        want: Ended {
            size: 20001,
            pages: 1,
            replaced: 0,
            bytes: [0, 0, 1, 0, 0, 0, 0, 0, 0, 0, 0, 0],
        },
    },
    // cut to three bytes and grown to ten
    Row {
        steps: &[
            Step::Size(5),
            Step::Page(0, 0, b"hello"),
            Step::Cut(3, b"hel"),
            Step::Size(10),
        ],
        at: 0,
        count: 10,
        want: Ended {
            size: 10,
            pages: 1,
            replaced: 1,
            bytes: *b"hel\0\0\0\0\0\0\0\0\0",
        },
    },
    // the last sixteen pages of the longest file
    Row {
        steps: &[Step::Size(16_809_984), Step::Fill(4088, 16, b'a')],
        at: 16_809_980,
        count: 4,
        want: Ended {
            size: 16_809_984,
            pages: 16,
            replaced: 0,
            bytes: *b"aaaa\0\0\0\0\0\0\0\0",
        },
    },
    // the last page of the node, and the first of a page of pointers
    Row {
        steps: &[
            Step::Size(36_864),
            Step::Page(7, 4094, b"xy"),
            Step::Page(8, 0, b"z"),
            Step::Page(7, 4095, b"w"),
        ],
        at: 32_766,
        count: 3,
        want: Ended {
            size: 36_864,
            pages: 2,
            replaced: 1,
            bytes: *b"\0wz\0\0\0\0\0\0\0\0\0",
        },
    },
    // pages wholly behind the size are gone, also once it grows again
    Row {
        steps: &[
            Step::Size(36_864),
            Step::Page(0, 0, b"a"),
            Step::Page(8, 0, b"z"),
            Step::Size(32_768),
            Step::Size(36_864),
        ],
        at: 32_764,
        count: 8,
        want: Ended {
            size: 36_864,
            pages: 1,
            replaced: 0,
            bytes: [0; 12],
        },
    },
    // nothing is written
    Row {
        steps: &[Step::Size(0), Step::Fill(7, 0, b'a')],
        at: 0,
        count: 0,
        want: Ended {
            size: 0,
            pages: 0,
            replaced: 0,
            bytes: [0; 12],
        },
    },
    // the pool of 32 addresses: one for entries, 16 for the pointers of a first file, and 15 for those of a second one
    Row {
        steps: &[
            Step::Entries,
            Step::Spread(16, b'a'),
            Step::Next,
            Step::Spread(15, b'a'),
            Step::NoPlace(3848),
            Step::Page(0, 0, b"b"),
            Step::Size(14_712_833),
        ],
        at: 14_712_832,
        count: 1,
        want: Ended {
            size: 14_712_833,
            pages: 16,
            replaced: 0,
            bytes: *b"a\0\0\0\0\0\0\0\0\0\0\0",
        },
    },
    // a file that is cut to nothing gives its addresses back
    Row {
        steps: &[
            Step::Entries,
            Step::Spread(16, b'a'),
            Step::Next,
            Step::Spread(15, b'a'),
            Step::NoPlace(3848),
            Step::Size(0),
            Step::Page(3848, 0, b"b"),
            Step::Size(15_761_409),
        ],
        at: 15_761_408,
        count: 1,
        want: Ended {
            size: 15_761_409,
            pages: 1,
            replaced: 0,
            bytes: *b"b\0\0\0\0\0\0\0\0\0\0\0",
        },
    },
];

#[test]
fn contents_are_changed(rt: HostRuntime) -> Result<(), Fail> {
    for row in &ROWS {
        let got = outcome_in_memory(rt.alloc(), row)?;
        assert!(rt; got == Some(row.want));
    }
    Ok(())
}
