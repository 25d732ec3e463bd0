// The same soak line after line on a volume of its own, whose pairs are looked at behind each, and on both volumes of a comparison.
ghost use Rattle.std.specs.Prelude.{◌<◌, ◌≤◌, []};
ghost use Rattle.nl_cmd_compare.specs.Both.{HasAnswered};
ghost use Rattle.nl_field.specs.Numbers.{shape_for};

use nl_cmd_compare::{Comparison, Numbers, answer_all, ask, new_volume};
use nl_cmd_words::drawn_lines;
use nl_field::{FailList, Memory};
use nl_nand::{MemNand, Nand};
use nl_tree::{Lines, ReplyBuf};
use nl_turns::Kept;
use nl_volume::Volume;
use std::alloc::Global;
use std::test::Fail;

fn unformed(alloc: Global) -> MemNand {
    MemNand::new(alloc, FailList::new(alloc), FailList::new(alloc), None)
}

// The most pairs that a volume has behind each of the lines.
fn most_pairs<M: Nand>(alloc: Global, volume: &mut Volume<M>, lines: &Lines) -> Result<u32, Memory>
    requires { HasAnswered ⟦<Volume<M> as Kept>⟧.stands M.tells (shape_for 32 32) [] volume.old }
{
    let mut out = ReplyBuf::new(alloc)?;
    let mut most = 0u32;
    'lines: for at in 0..lines.len() {
        let _ = ask(volume, at + 1, &lines.get(at).call, &mut out);
        most = most.max(volume.pairs());
    }
    Ok(most)
}

// The most pairs of a volume of its own on the lines.
fn own_pairs(alloc: Global, lines: &Lines) -> Result<u32, Memory> {
    let mut volume = new_volume(alloc, unformed(alloc), 32, 32)?;
    let most = most_pairs(alloc, &mut volume, lines);
    drop(volume.into_media());
    most
}

// What a comparison tells of the lines.
fn compared(alloc: Global, lines: &Lines) -> Result<Option<Numbers>, Memory> {
    let mut both = Comparison::make(alloc, unformed(alloc), unformed(alloc), 32, 32)?;
    let whole = answer_all(&mut both, lines);
    let numbers = both.numbers();
    drop(both.into_media());
    Ok(if whole { Some(numbers) } else { None })
}

// Whether both tell the same number of pairs, which is this one, on the soak of a seed.
fn agree(alloc: Global, seed: u64, count: u32, pairs: u32) -> Result<bool, Memory>
    requires { (0 < count) × (count ≤ 20000) }
{
    let Some(lines) = drawn_lines(alloc, seed, count, 8) else {
        return Err(Memory);
    };
    let own = own_pairs(alloc, &lines)?;
    match compared(alloc, &lines)? {
        Some(numbers) => Ok(own == pairs && numbers.pairs == own && numbers.calls == lines.len()),
        None => Err(Memory),
    }
}

#[test]
fn short(rt: HostRuntime) -> Result<(), Fail> {
    let same = agree(rt.alloc(), 7, 200, 1)?;
    assert!(rt; same);
    Ok(())
}
