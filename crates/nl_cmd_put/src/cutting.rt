// Bytes are cut into pieces that a call may write.
ghost use Rattle.std.specs.Prelude.{◌≤◌, length, IfOk};
ghost use Rattle.nl_cmd_put.specs.Cutting.{AreCut};
ghost use Rattle.nl_field.specs.Numbers.{max_file_size};

use nl_field::{Memory, Text};
use std::alloc::Global;

/// The most bytes that a call may write.
const PIECE: usize = 65_536;

/// The bytes in pieces that a call may write.
pub(crate) fn cut(alloc: Global, bytes: &[u8]) -> Result<Vec<Text>, Memory>
    requires few { length bytes.now ≤ max_file_size }
    ensures { IfOk result (λ pieces. AreCut bytes.now pieces.items) }
{
    let mut pieces = Vec::new(alloc);
    let mut from = 0usize;
    'cut: while from < bytes.len() {
        let to = (from + PIECE).min(bytes.len());
        let piece = Text::of(alloc, &bytes[from..to])?;
        pieces.push(piece)?;
        from = to;
    }
    Ok(pieces)
}
