// Rows of calls on nodes and addresses that are free, and records of nodes in their pages.
ghost use Rattle.std.specs.Prelude.{◌≡◌, ◌<◌, length};

use crate::asserting::assert_none_differs;
use crate::least::SHAPE;
use nl_field::{Kind, Memory};
use nl_inode::{Nodes, taken};
use nl_meta::Meta;
use std::alloc::Global;

#[derive(Clone, Copy)]
enum Step {
    TakeNode,
    TakePool,
    GiveNode(u32),
    GivePool(u32),
    /// So many takings of nodes, and of addresses, of which the last one is seen.
    TakeNodes(u32),
    TakePools(u32),
}

fn run(nodes: &mut Nodes, step: Step) -> Option<u32>
    requires nodes { length nodes.old.nodes ≡ 64 }
    requires first { nodes.old.first ≡ 71 }
    requires pool { length nodes.old.pool ≡ 32 }
    ensures nodes { length nodes.new.nodes ≡ 64 }
    ensures first { nodes.new.first ≡ 71 }
    ensures pool { length nodes.new.pool ≡ 32 }
{
    match step {
        Step::TakeNode => nodes.take_node(),
        Step::TakePool => nodes.take_pool(),
        Step::GiveNode(ino) => {
            if ino < 64 {
                nodes.give_node(ino);
            }
            None
        }
        Step::GivePool(vaddr) => {
            if vaddr >= 71 && vaddr < 103 {
                nodes.give_pool(vaddr);
            }
            None
        }
        Step::TakeNodes(count) => take_nodes(nodes, count),
        Step::TakePools(count) => take_pools(nodes, count),
    }
}

fn take_nodes(nodes: &mut Nodes, count: u32) -> Option<u32>
    requires nodes { length nodes.old.nodes ≡ 64 }
    requires first { nodes.old.first ≡ 71 }
    requires pool { length nodes.old.pool ≡ 32 }
    ensures nodes { length nodes.new.nodes ≡ 64 }
    ensures first { nodes.new.first ≡ 71 }
    ensures pool { length nodes.new.pool ≡ 32 }
{
    let mut last = None;
    for _ in 0..count {
        last = nodes.take_node();
    }
    last
}

fn take_pools(nodes: &mut Nodes, count: u32) -> Option<u32>
    requires nodes { length nodes.old.nodes ≡ 64 }
    requires first { nodes.old.first ≡ 71 }
    requires pool { length nodes.old.pool ≡ 32 }
    ensures nodes { length nodes.new.nodes ≡ 64 }
    ensures first { nodes.new.first ≡ 71 }
    ensures pool { length nodes.new.pool ≡ 32 }
{
    let mut last = None;
    for _ in 0..count {
        last = nodes.take_pool();
    }
    last
}

// The first row that is answered otherwise.
fn differs(nodes: &mut Nodes, rows: &[(Step, Option<u32>)]) -> Option<usize>
    requires nodes { length nodes.old.nodes ≡ 64 }
    requires first { nodes.old.first ≡ 71 }
    requires pool { length nodes.old.pool ≡ 32 }
{
    for row in 0..rows.len() {
        let (step, want) = rows[row];
        if run(nodes, step) != want {
            return Some(row);
        }
    }
    None
}

const TAKEN: [(Step, Option<u32>); 22] = [
    (Step::TakeNode, Some(0)),
    (Step::TakeNode, Some(1)),
    (Step::TakeNode, Some(2)),
    (Step::GiveNode(1), None),
    (Step::TakeNode, Some(1)),
    (Step::TakeNodes(60), Some(62)),
    (Step::TakeNode, Some(63)),
    (Step::TakeNode, None),
    (Step::GiveNode(63), None),
    (Step::GiveNode(17), None),
    (Step::TakeNode, Some(17)),
    (Step::TakeNode, Some(63)),
    (Step::TakeNode, None),
    (Step::TakePool, Some(71)),
    (Step::TakePools(30), Some(101)),
    (Step::TakePool, Some(102)),
    (Step::TakePool, None),
    (Step::GivePool(102), None),
    (Step::GivePool(88), None),
    (Step::TakePool, Some(88)),
    (Step::TakePool, Some(102)),
    (Step::TakePool, None),
];

fn nodes_differ(alloc: Global) -> Result<Option<usize>, Memory> {
    let mut nodes = Nodes::new(alloc, SHAPE)?;
    let row = differs(&mut nodes, &TAKEN);
    drop(nodes);
    Ok(row)
}

// The least is taken, up to the last one; what is given is taken again.
#[test]
fn the_least_is_taken(rt: HostRuntime) {
    assert_none_differs(&rt, nodes_differ(rt.alloc()));
}

// Makes the node taken, in a fresh page of its own, and gives the kind and the first byte of the generation that stand at a byte of the page.
fn shown(meta: &mut Meta, nodes: &mut Nodes, ino: u32, at: usize) -> Option<(u8, u8)>
    requires count { length meta.old.running ≡ 103 }
    requires node { ino < 64 }
    requires at { at < 4092 }
{
    let page = 67 + ino / 16;
    if !meta.fresh(page) || !nodes.put(meta, ino, &taken(Kind::File, 6)) {
        return None;
    }
    let main = meta.page(page).main();
    Some((main[at], main[at + 4]))
}

fn bytes_in(alloc: Global, meta: &mut Meta, ino: u32, at: usize) -> Result<Option<(u8, u8)>, Memory>
    requires count { length meta.old.running ≡ 103 }
    requires node { ino < 64 }
    requires at { at < 4092 }
{
    let mut nodes = Nodes::new(alloc, SHAPE)?;
    let found = shown(meta, &mut nodes, ino, at);
    drop(nodes);
    Ok(found)
}

fn bytes_at(alloc: Global, ino: u32, at: usize) -> Result<Option<(u8, u8)>, Memory>
    requires node { ino < 64 }
    requires at { at < 4092 }
{
    let mut meta = Meta::new(alloc, SHAPE)?;
    let found = bytes_in(alloc, &mut meta, ino, at);
    drop(meta);
    found
}

// A node that is taken, a byte of its page, and the bytes there and four bytes on.
const STAND: [(u32, usize, (u8, u8)); 5] = [
    (0, 0, (1, 7)),
    (15, 3840, (1, 7)),
    (16, 0, (1, 7)),
    (17, 0, (0, 0)),
    (63, 3840, (1, 7)),
];

fn stand_differs(alloc: Global) -> Result<Option<usize>, Memory> {
    for row in 0..5usize {
        let (ino, at, want) = STAND[row];
        if ino >= 64 || at >= 4092 || bytes_at(alloc, ino, at)? != Some(want) {
            return Ok(Some(row));
        }
    }
    Ok(None)
}

// Sixteen nodes to a page, 256 bytes each: the kind first, and the generation from byte 4 on.
#[test]
fn nodes_stand_in_pages(rt: HostRuntime) {
    assert_none_differs(&rt, stand_differs(rt.alloc()));
}
