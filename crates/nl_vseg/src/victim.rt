// Which block is cleaned.
ghost use Rattle.std.specs.Prelude.{◌≡◌, ◌⊎◌, ℕ, ◌+◌, ◌*◌, ◌/◌, ◌<◌, ◌≤◌, length, true, false, Some, IfSome};
ghost use Rattle.nl_blocks.specs.Table.{block_at, dead_count, free_count, is_sealed, page_at};
ghost use Rattle.nl_vseg.specs.Places.{AreBelow, IsUnmapped, place_of};
ghost use Rattle.nl_vseg.specs.declared.place.Place.{Place as PlaceOf};
ghost use Rattle.nl_vseg.specs.Layout.{block_is_free, wears_of};
ghost use Rattle.nl_victim.specs.Victims.{IsMostDead};
ghost use Rattle.nl_vseg.specs.Used.{IsClosed, KeepsUsed, used_of};
ghost use Rattle.nl_vseg.specs.Copying.{mapped_in, HasHole, MarksPlace, IsSettled, SameStates, SameFreeBlocks};

use crate::place::Place;
use crate::used::has_room;
use nl_blocks::{BlockState, Blocks, PageState};
use nl_victim::most_dead;

/// Seals the block where it is in use.
pub fn seal_used(blocks: &mut Blocks, block: u32)
    requires first { blocks.old.first ≡ 0 }
    requires within { block < length blocks.old.blocks }
    ensures used { IsClosed block blocks.old blocks.new }
    ensures states { SameFreeBlocks blocks.old blocks.new }
    ensures here { block_is_free blocks.new block ≡ false → is_sealed (block_at blocks.new block) ≡ true }
    ensures wear { (other : ℕ) → (block_at blocks.new other).wear ≡ (block_at blocks.old other).wear }
    ensures wears { wears_of blocks.new ≡ wears_of blocks.old }
    ensures others { (other : ℕ) → (other ≡ block → ⊥) → block_at blocks.new other ≡ block_at blocks.old other }
{
    if matches!(blocks.state(block), BlockState::Free) {
        return;
    }
    blocks.seal(block);
}

/// Seals a block in use where each of its pages is used.
pub fn seal_full(blocks: &mut Blocks, block: u32)
    requires first { blocks.old.first ≡ 0 }
    requires within { block < length blocks.old.blocks }
    requires in_use { block_is_free blocks.old block ≡ false }
    ensures used { KeepsUsed blocks.old blocks.new }
    ensures states { SameFreeBlocks blocks.old blocks.new }
    ensures sealed { used_of blocks.new block ≡ blocks.new.size → is_sealed (block_at blocks.new block) ≡ true }
    ensures wear { (other : ℕ) → (block_at blocks.new other).wear ≡ (block_at blocks.old other).wear }
    ensures wears { wears_of blocks.new ≡ wears_of blocks.old }
{
    if has_room(blocks, block) {
        return;
    }
    seal_used(blocks, block);
}

/// Each block in use is Sealed: also the active one, which is left where no other block is Free.
fn seal_all(blocks: &mut Blocks)
    requires { blocks.old.first ≡ 0 }
    ensures states { SameFreeBlocks blocks.old blocks.new }
    ensures wears { wears_of blocks.new ≡ wears_of blocks.old }
    ensures sealed { (block : ℕ) → block < length blocks.new.blocks → block_is_free blocks.new block ≡ false
        → is_sealed (block_at blocks.new block) ≡ true }
{
    for block in 0..blocks.count() {
        seal_used(blocks, block);
    }
}

/// Each page is Dead.
fn mark_dead(blocks: &mut Blocks)
    requires { blocks.old.first ≡ 0 }
    ensures states { SameStates blocks.old blocks.new }
    ensures pages { (page : ℕ) → page < length blocks.new.blocks * blocks.new.size → (page_at blocks.new page).state ≡ PageState.Dead }
{
    let end = blocks.count() * blocks.pages();
    for page in 0..end {
        blocks.mark_dead(page);
    }
}

/// The page of this place is Live.
fn mark_place(blocks: &mut Blocks, place: Option<Place>)
    requires first { blocks.old.first ≡ 0 }
    requires some { 0 < blocks.old.size }
    requires rows { (block : ℕ) → block < length blocks.old.blocks → length (block_at blocks.old block).pages ≡ blocks.old.size }
    requires below { IfSome place (λ p. p.page < length blocks.old.blocks * blocks.old.size) }
    ensures { MarksPlace place blocks.old blocks.new }
{
    let Some(place) = place else {
        return;
    };
    blocks.mark_live(place.page);
}

/// The page of each address is Live.
fn mark_live(blocks: &mut Blocks, places: &Vec<Option<Place>>)
    requires first { blocks.old.first ≡ 0 }
    requires below { AreBelow (length blocks.old.blocks * blocks.old.size) places.now.items }
    requires pages { (page : ℕ) → page < length blocks.old.blocks * blocks.old.size → (page_at blocks.old page).state ≡ PageState.Dead }
    ensures states { SameStates blocks.old blocks.new }
    ensures rows { (block : ℕ) → block < length blocks.new.blocks → length (block_at blocks.new block).pages ≡ blocks.new.size }
    ensures counted { (block : ℕ) → block < length blocks.new.blocks
        → blocks.new.size ≤ mapped_in blocks.new.size block places.now.items + dead_count (block_at blocks.new block) }
    ensures live { (v : ℕ) (place : PlaceOf) → place_of places.now.items v ≡ Some place
        → (page_at blocks.new place.page).state ≡ PageState.Live }
{
    let _ = blocks.count();
    for v in 0..places.len() {
        mark_place(blocks, places[v]);
    }
}

/// Brings the table in line with the map: each block in use is Sealed, and a page is Live where it is that of an address.
fn settle(blocks: &mut Blocks, places: &Vec<Option<Place>>)
    requires first { blocks.old.first ≡ 0 }
    requires below { AreBelow (length blocks.old.blocks * blocks.old.size) places.now.items }
    ensures states { SameFreeBlocks blocks.old blocks.new }
    ensures wears { wears_of blocks.new ≡ wears_of blocks.old }
    ensures settled { IsSettled places.now.items blocks.new }
{
    seal_all(blocks);
    mark_dead(blocks);
    mark_live(blocks, places);
}

/// The block with the most dead pages of those in use, where a page is dead that no address has: it has one. At most one block
/// is Free.
pub fn choose(blocks: &mut Blocks, places: &Vec<Option<Place>>) -> u32
    requires some { 0 < blocks.old.size }
    requires first { blocks.old.first ≡ 0 }
    requires below { AreBelow (length blocks.old.blocks * blocks.old.size) places.now.items }
    requires few { length places.now.items + 4 * blocks.old.size ≤ length blocks.old.blocks * blocks.old.size }
    requires free { free_count blocks.old ≤ 1 }
    ensures states { SameFreeBlocks blocks.old blocks.new }
    ensures wears { wears_of blocks.new ≡ wears_of blocks.old }
    ensures settled { IsSettled places.now.items blocks.new }
    ensures most { IsMostDead blocks.new result }
    ensures within { result < length blocks.old.blocks }
    ensures in_use { block_is_free blocks.old result ≡ false }
    ensures hole { HasHole blocks.old.size result places.now.items }
    ensures unmapped { free_count blocks.old ≡ 0 → (block : ℕ) → block < length blocks.old.blocks
        → IsUnmapped blocks.old.size places.now.items block → IsUnmapped blocks.old.size places.now.items result }
{
    settle(blocks, places);
    match most_dead(blocks) {
        Some(block) => block,
        None => unreachable!(),
    }
}
