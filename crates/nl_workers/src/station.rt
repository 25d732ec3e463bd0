//! What one worker has in hand while it answers its lines.
ghost use Rattle.std.specs.Prelude.{◌≡◌, ◌||◌};

use crate::desk::Desk;
use nl_tree::ReplyBuf;

/// What one worker has in hand: its answers, a buffer for the reply to come, and whether a staging found a page without the wanted
/// stamp.
#[derive(Drop)]
pub(crate) struct Station {
    pub(crate) desk: Desk,
    pub(crate) out: ReplyBuf,
    pub(crate) lost: bool,
}

/// Whether one of the two holds.
pub(crate) fn either(a: bool, b: bool) -> bool
    ensures { result ≡ (a || b) }
{
    a || b
}
