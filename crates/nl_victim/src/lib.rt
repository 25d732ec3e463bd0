//! Which block the cleaner takes: the one that gives most, or the one that has rested longest.
#![tactic(auto)]

ghost use Rattle.std.specs.Prelude.{◌≡◌, ℕ, ◌+◌, ◌-◌, ◌<◌, ◌≤◌, IfSome, IfNone};
ghost use Rattle.nl_blocks.specs.Table.{HasBlock, block_at, dead_count, wear_of};
ghost use Rattle.nl_victim.specs.Search.{ColdestBelow, MostDeadBelow, WornBelow};
ghost use Rattle.nl_victim.specs.Victims.{IsColdest, IsLevel, IsMostDead, IsSealed};

use nl_blocks::{BlockState, Blocks};

/// The Sealed block with the most dead pages, of equals the one with the least number. None exactly where no Sealed
/// block has a dead page.
pub fn most_dead(blocks: &Blocks) -> Option<u32>
    ensures some { IfSome result (IsMostDead blocks.now) }
    ensures none { IfNone result ((block : ℕ) → IsSealed blocks.now block → dead_count (block_at blocks.now block) ≡ 0) }
{
    let first = blocks.first();
    let mut best = None;
    for i in 0..blocks.count() {
        best = deader(blocks, best, first + i);
    }
    best
}

/// The better of the best block so far and this one.
fn deader(blocks: &Blocks, best: Option<u32>, block: u32) -> Option<u32>
    requires has { HasBlock blocks.now block }
    requires so_far { MostDeadBelow blocks.now block best }
    ensures { MostDeadBelow blocks.now (block + 1) result }
{
    if !matches!(blocks.state(block), BlockState::Sealed) {
        return best;
    }
    let dead = blocks.dead(block);
    if dead == 0 {
        return best;
    }
    let Some(b) = best else {
        return Some(block);
    };
    if blocks.dead(b) < dead {
        Some(block)
    } else {
        Some(b)
    }
}

/// The Sealed block with the least wear, of equals the one with the least number. None exactly where no block is
/// Sealed, or no block's wear exceeds that one's by at least 16.
pub fn coldest(blocks: &Blocks) -> Option<u32>
    ensures some { IfSome result (IsColdest blocks.now) }
    ensures worn { IfSome result
        (λ block. (other : ℕ) × HasBlock blocks.now other
        × (wear_of (block_at blocks.now block) + 16 ≤ wear_of (block_at blocks.now other))) }
    ensures none { IfNone result ((block : ℕ) → IsSealed blocks.now block → IsLevel blocks.now (wear_of (block_at blocks.now block))) }
{
    let first = blocks.first();
    let mut best = None;
    let mut most = first;
    for i in 0..blocks.count() {
        best = colder(blocks, best, first + i);
        most = worn(blocks, most, first + i);
    }
    let least = best?;
    if blocks.wear(most) - blocks.wear(least) < 16 {
        return None;
    }
    Some(least)
}

/// The better of the best block so far and this one.
fn colder(blocks: &Blocks, best: Option<u32>, block: u32) -> Option<u32>
    requires has { HasBlock blocks.now block }
    requires so_far { ColdestBelow blocks.now block best }
    ensures { ColdestBelow blocks.now (block + 1) result }
{
    if !matches!(blocks.state(block), BlockState::Sealed) {
        return best;
    }
    let Some(b) = best else {
        return Some(block);
    };
    if blocks.wear(block) < blocks.wear(b) {
        Some(block)
    } else {
        Some(b)
    }
}

/// The one of two blocks that has more wear. The first may be none of the table where the other is the first of all.
fn worn(blocks: &Blocks, most: u32, block: u32) -> u32
    requires has { HasBlock blocks.now block }
    requires so_far { blocks.now.first < block → WornBelow blocks.now block most }
    ensures { WornBelow blocks.now (block + 1) result }
{
    if block == blocks.first() || blocks.wear(most) < blocks.wear(block) {
        block
    } else {
        most
    }
}
