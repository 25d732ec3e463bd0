// Which pages of the block that is written to are used: the table marks them.
ghost use Rattle.std.specs.Prelude.{◌≡◌, ◌+◌, ◌*◌, ◌<◌, length, true, false};
ghost use Rattle.nl_blocks.specs.Table.{block_at};
ghost use Rattle.nl_vseg.specs.Layout.{wears_of};
ghost use Rattle.nl_vseg.specs.Copying.{SameFreeBlocks};
ghost use Rattle.nl_vseg.specs.Used.{OpenBlocksAreRisen, UsesNext, is_open_state, used_of};

use nl_blocks::{BlockState, Blocks};

/// The block was taken, and can be programmed.
fn is_open(blocks: &Blocks, block: u32) -> bool
    requires first { blocks.now.first ≡ 0 }
    requires within { block < length blocks.now.blocks }
    ensures { result ≡ is_open_state (block_at blocks.now block).state }
{
    matches!(blocks.state(block), BlockState::Active | BlockState::Target)
}

/// Some page of the block is not used.
pub fn has_room(blocks: &Blocks, block: u32) -> bool
    requires first { blocks.now.first ≡ 0 }
    requires within { block < length blocks.now.blocks }
    ensures room { result ≡ true → used_of blocks.now block < blocks.now.size }
    ensures full { result ≡ false → used_of blocks.now block ≡ blocks.now.size }
{
    let _ = blocks.count();
    if !is_open(blocks, block) {
        return false;
    }
    match blocks.next_page(block) {
        Some(_) => true,
        None => false,
    }
}

/// The first page of the block that is not used. It is used from now on; whether it is that of an address is told before a
/// block is chosen to be cleaned.
pub fn use_next(blocks: &mut Blocks, block: u32) -> u32
    requires first { blocks.old.first ≡ 0 }
    requires within { block < length blocks.old.blocks }
    requires rising { OpenBlocksAreRisen blocks.old }
    requires room { used_of blocks.old block < blocks.old.size }
    ensures page { result ≡ block * blocks.old.size + used_of blocks.old block }
    ensures used { UsesNext block blocks.old blocks.new }
    ensures states { SameFreeBlocks blocks.old blocks.new }
    ensures wears { wears_of blocks.new ≡ wears_of blocks.old }
{
    let _ = blocks.count();
    match blocks.next_page(block) {
        Some(page) => {
            blocks.mark_dead(page);
            page
        }
        None => unreachable!(),
    }
}
