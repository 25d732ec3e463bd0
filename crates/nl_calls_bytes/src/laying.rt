// The path, the offset and the count of the bytes that a call writes, and those bytes laid over a page.
ghost use Rattle.std.specs.Prelude.{◌≡◌, ◌≤◌, length, true};
ghost use Rattle.nl_field.specs.FileContent.{overlaid};
ghost use Rattle.nl_field.specs.Numbers.{max_bytes};
ghost use Rattle.nl_calls_bytes.specs.Ranges.{IsWriting, data_of, from_of, is_written, len_of, path_of};

use nl_tree::{Call, Path};

const PAGE: u64 = 4096;

/// The path of the file that a call writes.
pub fn path_written(call: &Call) -> &Path
    requires writing { IsWriting call.now }
    ensures { result.now ≡ path_of call.now }
{
    match call {
        Call::Write(path, _, _) => path,
        Call::Fill(path, _, _, _) => path,
        _ => unreachable!(),
    }
}

/// The offset of the bytes that a call writes.
pub fn offset_of(call: &Call) -> u64
    requires writing { IsWriting call.now }
    ensures { result ≡ from_of call.now }
{
    match call {
        Call::Write(_, from, _) => *from,
        Call::Fill(_, from, _, _) => *from,
        _ => unreachable!(),
    }
}

/// How many bytes a call writes.
pub fn length_of(call: &Call) -> u64
    requires writing { IsWriting call.now }
    ensures { result ≡ len_of call.now }
{
    match call {
        Call::Write(_, _, bytes) => bytes.bytes().len() as u64,
        Call::Fill(_, _, len, _) => u64::from(*len),
        _ => unreachable!(),
    }
}

/// Lays the bytes of a call that lie in the page of an index over the bytes of that page.
pub fn lay_over(page: &mut [u8], call: &Call, index: u32)
    requires writing { IsWriting call.now }
    requires whole { length page.old ≡ 4096 }
    requires few { len_of call.now ≤ max_bytes }
    requires written { is_written call.now index ≡ true }
    ensures { page.new ≡ overlaid page.old index (from_of call.now) (data_of call.now) }
{
    let start = PAGE * u64::from(index);
    let from = offset_of(call);
    let before = from.saturating_sub(start) as usize;
    let skipped = start.saturating_sub(from) as usize;
    let rest = length_of(call) as usize - skipped;
    let room = PAGE as usize - before;
    let count = if rest < room { rest } else { room };
    match call {
        Call::Write(_, _, bytes) => page[before..before + count].copy_from_slice(
            &bytes.bytes()[skipped..skipped + count],
        ),
        Call::Fill(_, _, _, byte) => page[before..before + count].fill(*byte),
        _ => {}
    }
}
