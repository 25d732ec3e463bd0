// Steps on the table of blocks.
ghost use Rattle.std.specs.Prelude.{◌≡◌, ◌*◌, ◌/◌, ◌≤◌, ◌<◌, ◌+◌, ◌-◌, ◌^◌, ℕ, cond, true, false, IfSome, IfNone};
ghost use Rattle.nl_blocks.specs.Table.{HasBlock, IsLeastWornFree, after_erase, block_at, free_count, in_state, is_retired_state, names_of, with_block, with_page, worn};
ghost use Rattle.nl_blocks.specs.Used.{is_active_state, is_target_state, used_in, SameUsed};
ghost use Rattle.nl_pseg_blocks.specs.Uses.{use_in, ActiveAndTargetAreRisen, MarksPage, IsPut, SetsWear, IsUpTo, SetsUse, SameFill, SameMarks, SameNumbers, SameUse, CountsUsedPage, aside_state, told_state};

use nl_blocks::{BlockState, Blocks, PageState};

/// Whether a block is Free.
pub fn is_free(blocks: &Blocks, block: u32) -> bool
    requires { HasBlock blocks.now block }
    ensures { result ≡ (use_in blocks.now block).is_free }
{
    matches!(blocks.state(block), BlockState::Free)
}

/// The page that is used next for a new name in this block, where it is Active and has one that is not used.
pub fn next_page(blocks: &Blocks, block: u32) -> Option<u32>
    requires { HasBlock blocks.now block }
    ensures some { IfSome result
        (λ page. (used_in is_active_state blocks.now block < blocks.now.size)
        × (page ≡ block * blocks.now.size + used_in is_active_state blocks.now block)) }
    ensures none { IfNone result (used_in is_active_state blocks.now block ≡ blocks.now.size) }
{
    let _ = blocks.count();
    match blocks.state(block) {
        BlockState::Active => blocks.next_page(block),
        _ => None,
    }
}

/// The page that is used next for a copy in this block, where it is a Target and has one that is not used.
pub fn next_copy(blocks: &Blocks, block: u32) -> Option<u32>
    requires { HasBlock blocks.now block }
    ensures some { IfSome result
        (λ page. (used_in is_target_state blocks.now block < blocks.now.size)
        × (page ≡ block * blocks.now.size + used_in is_target_state blocks.now block)) }
    ensures none { IfNone result (used_in is_target_state blocks.now block ≡ blocks.now.size) }
{
    let _ = blocks.count();
    match blocks.state(block) {
        BlockState::Target => blocks.next_page(block),
        _ => None,
    }
}

/// Takes the least worn Free block, of equals the one with the least number. Another one stays Free.
pub fn take(blocks: &mut Blocks) -> u32
    requires { 2 ≤ free_count blocks.old }
    ensures has { HasBlock blocks.old result }
    ensures was_free { (use_in blocks.old result).is_free ≡ true }
    ensures least { IsLeastWornFree blocks.old result }
    ensures active { (block_at blocks.new result).state ≡ BlockState.Active }
    ensures taken { SetsUse result false (use_in blocks.old result).wear blocks.old blocks.new }
    ensures used { used_in is_active_state blocks.new result ≡ 0 }
    ensures filled { (block : ℕ) → HasBlock blocks.old block → SameUsed is_target_state block blocks.old blocks.new }
{
    match blocks.take_free() {
        Some(block) => block,
        None => unreachable!(),
    }
}

/// Takes the least worn Free block for copies, of equals the one with the least number.
pub fn take_target(blocks: &mut Blocks) -> u32
    requires { 1 ≤ free_count blocks.old }
    ensures has { HasBlock blocks.old result }
    ensures was_free { (use_in blocks.old result).is_free ≡ true }
    ensures least { IsLeastWornFree blocks.old result }
    ensures target { (block_at blocks.new result).state ≡ BlockState.Target }
    ensures taken { SetsUse result false (use_in blocks.old result).wear blocks.old blocks.new }
    ensures filled { used_in is_target_state blocks.new result ≡ 0 }
    ensures used { (block : ℕ) → HasBlock blocks.old block → SameUsed is_active_state block blocks.old blocks.new }
{
    match blocks.take_reserve() {
        Some(block) => block,
        None => unreachable!(),
    }
}

/// Marks a page live or dead, which is used, or is the next one of its block.
pub fn mark(blocks: &mut Blocks, page: u32, live: bool)
    requires has { HasBlock blocks.old (page / blocks.old.size) }
    requires rising { ActiveAndTargetAreRisen blocks.old }
    requires used { IsUpTo is_active_state page blocks.old }
    requires filled { IsUpTo is_target_state page blocks.old }
    ensures same { SameUse blocks.old blocks.new }
    ensures states { (block : ℕ) → (block_at blocks.new block).state ≡ (block_at blocks.old block).state }
    ensures marked { MarksPage page (cond live PageState.Live PageState.Dead) blocks.old blocks.new }
    ensures table { blocks.new ≡ with_page blocks.old page (cond live PageState.Live PageState.Dead) }
    ensures uses { CountsUsedPage is_active_state page blocks.old blocks.new }
    ensures fills { CountsUsedPage is_target_state page blocks.old blocks.new }
{
    let _ = blocks.count();
    if live {
        blocks.mark_live(page);
    } else {
        blocks.mark_dead(page);
    }
}

/// Seals a block that is in use, where it is full.
pub fn seal_full(blocks: &mut Blocks, block: u32)
    requires has { HasBlock blocks.old block }
    requires active { (block_at blocks.old block).state ≡ BlockState.Active }
    ensures same { SameUse blocks.old blocks.new }
    ensures marks { SameMarks blocks.old blocks.new }
    ensures fill { SameFill blocks.old blocks.new }
    ensures more { used_in is_active_state blocks.old block < blocks.old.size → (block_at blocks.new block).state ≡ BlockState.Active }
    ensures sealed { used_in is_active_state blocks.old block ≡ blocks.old.size → (block_at blocks.new block).state ≡ BlockState.Sealed }
    ensures others { (other : ℕ) → HasBlock blocks.old other → (other ≡ block → ⊥)
        → (block_at blocks.new other).state ≡ (block_at blocks.old other).state }
{
    let _ = blocks.count();
    if blocks.next_page(block).is_none() {
        blocks.seal(block);
    }
}

/// Seals a block for copies, where it is full.
pub fn seal_filled(blocks: &mut Blocks, block: u32)
    requires has { HasBlock blocks.old block }
    requires target { (block_at blocks.old block).state ≡ BlockState.Target }
    ensures same { SameUse blocks.old blocks.new }
    ensures marks { SameMarks blocks.old blocks.new }
    ensures fill { SameFill blocks.old blocks.new }
    ensures more { used_in is_target_state blocks.old block < blocks.old.size → (block_at blocks.new block).state ≡ BlockState.Target }
    ensures sealed { used_in is_target_state blocks.old block ≡ blocks.old.size → (block_at blocks.new block).state ≡ BlockState.Sealed }
    ensures others { (other : ℕ) → HasBlock blocks.old other → (other ≡ block → ⊥)
        → (block_at blocks.new other).state ≡ (block_at blocks.old other).state }
{
    let _ = blocks.count();
    if blocks.next_page(block).is_none() {
        blocks.seal(block);
    }
}

/// Makes a Sealed block the victim.
pub fn choose(blocks: &mut Blocks, block: u32)
    requires has { HasBlock blocks.old block }
    requires sealed { (block_at blocks.old block).state ≡ BlockState.Sealed }
    ensures same { SameUse blocks.old blocks.new }
    ensures marks { SameMarks blocks.old blocks.new }
    ensures fill { SameFill blocks.old blocks.new }
    ensures here { (block_at blocks.new block).state ≡ BlockState.Victim }
    ensures table { blocks.new ≡ with_block blocks.old block (in_state (block_at blocks.old block) BlockState.Victim) }
    ensures others { (other : ℕ) → HasBlock blocks.old other → (other ≡ block → ⊥)
        → (block_at blocks.new other).state ≡ (block_at blocks.old other).state }
{
    blocks.choose(block);
}

/// One name of a block that waits is gone: on the last one it is Free.
pub fn end_name(blocks: &mut Blocks, block: u32)
    requires has { HasBlock blocks.old block }
    requires retired { is_retired_state (block_at blocks.old block).state ≡ true }
    ensures numbers { SameNumbers blocks.old blocks.new }
    ensures kept { (other : ℕ) → (use_in blocks.new other).is_kept ≡ (use_in blocks.old other).is_kept }
    ensures wears { (other : ℕ) → (use_in blocks.new other).wear ≡ (use_in blocks.old other).wear }
    ensures uses { (other : ℕ) → (other ≡ block → ⊥) → use_in blocks.new other ≡ use_in blocks.old other }
    ensures here { (block_at blocks.new block).state ≡ after_erase (names_of (block_at blocks.old block).state - 1) }
    ensures others { (other : ℕ) → HasBlock blocks.old other → (other ≡ block → ⊥)
        → (block_at blocks.new other).state ≡ (block_at blocks.old other).state }
    ensures marks { SameMarks blocks.old blocks.new }
    ensures fill { SameFill blocks.old blocks.new }
{
    blocks.name_gone(block);
}

/// The block is Free again. It was not erased.
pub fn give_back(blocks: &mut Blocks, block: u32)
    requires { HasBlock blocks.old block }
    ensures { SetsUse block true (use_in blocks.old block).wear blocks.old blocks.new }
{
    blocks.freed(block, 0);
}

/// A block that is in use was erased before its pages are used.
pub fn wear_out(blocks: &mut Blocks, block: u32)
    requires has { HasBlock blocks.old block }
    requires used { (use_in blocks.old block).is_kept ≡ false }
    ensures worn { SetsUse block false (worn (use_in blocks.old block).wear) blocks.old blocks.new }
    ensures state { (block_at blocks.new block).state ≡ (block_at blocks.old block).state }
    ensures fill { SameFill blocks.old blocks.new }
{
    blocks.reerased(block);
}

/// The block is Sealed.
pub fn shut(blocks: &mut Blocks, block: u32)
    requires { HasBlock blocks.old block }
    ensures restated { SetsUse block false (use_in blocks.old block).wear blocks.old blocks.new }
    ensures state { (block_at blocks.new block).state ≡ BlockState.Sealed }
{
    blocks.seal(block);
}

/// A block that is Free has this wear.
fn free_with(blocks: &mut Blocks, block: u32, wear: u32)
    requires has { HasBlock blocks.old block }
    requires free { (block_at blocks.old block).state ≡ BlockState.Free }
    ensures { SetsUse block true wear blocks.old blocks.new }
{
    blocks.found(block, wear, 0);
}

/// The block is Sealed, with this wear.
fn shut_with(blocks: &mut Blocks, block: u32, wear: u32)
    requires { HasBlock blocks.old block }
    ensures restated { SetsUse block false wear blocks.old blocks.new }
    ensures state { (block_at blocks.new block).state ≡ BlockState.Sealed }
{
    blocks.freed(block, 0);
    blocks.found(block, wear, 0);
    blocks.seal(block);
}

/// The wear of a block that waits.
fn wait_with(blocks: &mut Blocks, block: u32, wear: u32, names: u32)
    requires has { HasBlock blocks.old block }
    requires retired { (block_at blocks.old block).state ≡ BlockState.Retired names }
    ensures told { SetsWear block wear blocks.old blocks.new }
    ensures state { (block_at blocks.new block).state ≡ BlockState.Retired names }
{
    let _ = blocks.count();
    blocks.found(block, wear, names);
}

/// The block was erased so often. One that is neither Free nor waits is Sealed.
pub fn tell(blocks: &mut Blocks, block: u32, wear: u32)
    requires { HasBlock blocks.old block }
    ensures told { SetsWear block wear blocks.old blocks.new }
    ensures state { (block_at blocks.new block).state ≡ told_state (block_at blocks.old block).state }
{
    match blocks.state(block) {
        BlockState::Free => free_with(blocks, block, wear),
        BlockState::Retired(names) => wait_with(blocks, block, wear, names),
        _ => shut_with(blocks, block, wear),
    }
}

/// The block waits for one old name more, where it is Free or waits. Another one that is in use takes no more pages.
pub fn set_aside(blocks: &mut Blocks, block: u32)
    requires has { HasBlock blocks.old block }
    requires few { names_of (block_at blocks.old block).state + 1 < 2 ^ 32 }
    ensures { IsPut block (aside_state (block_at blocks.old block).state) blocks.old blocks.new }
{
    match blocks.state(block) {
        BlockState::Free => blocks.freed(block, 1),
        BlockState::Retired(names) => blocks.freed(block, names + 1),
        BlockState::Active | BlockState::Target => blocks.seal(block),
        BlockState::Sealed | BlockState::Victim => {}
    }
}
