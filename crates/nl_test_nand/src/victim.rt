// Rows of three blocks, with the victims among them.
ghost use Rattle.std.specs.Prelude.{IsTrue};
ghost use Rattle.nl_blocks.specs.Table.{HasBlock, HasPage};

use nl_blocks::{BlockState, Blocks};
use nl_victim::{coldest, most_dead};
use std::alloc::Global;

fn has(blocks: &Blocks, block: u32) -> bool
    ensures { IsTrue result → HasBlock blocks.now block }
{
    let count = blocks.count();
    blocks.first() <= block && block - blocks.first() < count
}

fn mark(blocks: &mut Blocks, page: u32) {
    let _ = blocks.count();
    if has(blocks, page / blocks.pages()) {
        blocks.mark_live(page);
    }
}

// Gives a Free block this wear, makes its first pages live, and seals it.
fn fill(blocks: &mut Blocks, block: u32, wear: u32, live: u32, sealed: bool) {
    if !has(blocks, block) || !matches!(blocks.state(block), BlockState::Free) {
        return;
    }
    blocks.found(block, wear, 0);
    for at in 0..live {
        if let Some(page) = block.checked_mul(4)
            && let Some(page) = page.checked_add(at)
        {
            mark(blocks, page);
        }
    }
    if sealed && has(blocks, block) {
        blocks.seal(block);
    }
}

/// The wear of a block, how many of its pages are live, and whether it is Sealed.
type Filled = (u32, u32, bool);

/// The victims among three blocks of 4 pages with numbers from 8 on: the one with the most dead pages, and the coldest one.
fn victims_of(alloc: Global, rows: &[Filled; 3]) -> Option<(Option<u32>, Option<u32>)> {
    let mut blocks = Blocks::new(alloc, 8, 3, 4).ok()?;
    fill_all(&mut blocks, rows);
    Some((most_dead(&blocks), coldest(&blocks)))
}

fn fill_all(blocks: &mut Blocks, rows: &[Filled; 3]) {
    for place in 0..3u32 {
        let (wear, live, sealed) = rows[place as usize];
        fill(blocks, 8 + place, wear, live, sealed);
    }
}

const VICTIMS: [([Filled; 3], Option<u32>, Option<u32>); 8] = [
    ([(0, 4, false), (0, 4, false), (0, 0, false)], None, None),
    // No dead page is in a Sealed block.
    ([(0, 4, true), (40, 1, false), (40, 4, true)], None, Some(8)),
    // The most dead pages; of equals the least number.
    ([(3, 3, true), (3, 2, true), (3, 2, true)], Some(9), None),
    ([(3, 0, false), (3, 3, true), (3, 2, true)], Some(10), None),
    // The greatest wear exceeds the least of the Sealed by 15, and by 16.
    ([(7, 4, true), (5, 3, true), (20, 2, true)], Some(10), None),
    (
        [(7, 4, true), (5, 3, true), (21, 2, false)],
        Some(9),
        Some(9),
    ),
    (
        [(5, 4, true), (5, 3, true), (21, 2, true)],
        Some(10),
        Some(8),
    ),
    ([(0, 4, false), (5, 4, true), (20, 4, false)], None, None),
];

/// The first row with another victim.
fn differs(alloc: Global, table: &[([Filled; 3], Option<u32>, Option<u32>)]) -> Option<usize> {
    for row in 0..table.len() {
        let (blocks, dead, cold) = table[row];
        if victims_of(alloc, &blocks) != Some((dead, cold)) {
            return Some(row);
        }
    }
    None
}

#[test]
fn victims(rt: HostRuntime) {
    assert_eq!(rt; differs(rt.alloc(), &VICTIMS), None);
}
