// Reads a source to its end.
ghost use Rattle.std.specs.Prelude.{◌≡◌, ◌≤◌, ◌<◌, ◌^◌};
ghost use Rattle.nl_field.specs.CrashStates.{Rose};
ghost use Rattle.nl_cmd_words.specs.Input.{ReadsAll};

use nl_field::Text;
use nl_io::{Source, SourceAnswer};
use std::alloc::Global;

/// The most bytes of one read.
const PIECE: usize = 65_536;

/// What reading a source to its end gives.
#[derive(Debug, Drop)]
pub enum Input {
    /// All bytes that were left, no more than were wanted.
    All(Text),
    /// More bytes were left.
    TooLong,
    /// A read failed.
    Failed,
    Memory,
}

/// All that a source has left, where that is no more than so many bytes. At most one byte more is read, and nothing after a read that failed.
pub fn read_all<S: Source>(alloc: Global, src: &mut S, limit: usize) -> Input
    requires limit { limit < 2 ^ 32 }
    ensures bytes { ReadsAll limit (S.left src.old) (S.left src.new) result }
    ensures never_falls { S.faults src.old ≤ S.faults src.new }
    ensures cause { result ≡ Input.Failed → Rose (S.faults src.old) (S.faults src.new) }
{
    let mut bytes = Vec::new(alloc);
    let mut piece = [0u8; PIECE];
    'piece: loop {
        if bytes.len() > limit {
            return Input::TooLong;
        }
        let most = (limit + 1 - bytes.len()).min(PIECE);
        match src.read(&mut piece[..most]) {
            SourceAnswer::Got(count) => {
                if bytes.extend_from_slice(&piece[..count as usize]).is_err() {
                    return Input::Memory;
                }
            }
            SourceAnswer::End => return Input::All(Text::from_vec(bytes)),
            SourceAnswer::Failed => return Input::Failed,
        }
    }
}
