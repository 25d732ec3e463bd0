// The status of a call, and the endings that print one line.
ghost use Rattle.std.specs.Prelude.{◌≡◌, ◌⊎◌, ◌↔◌, [], ◌∷◌, ◌++◌, false, IsTrue, None};
ghost use Rattle.nl_field.specs.CrashStates.{Rose};
ghost use Rattle.nl_spec_headline.specs.Streams.{Prints, sink_seen};
ghost use Rattle.nl_cmd_words.specs.Ends.{IsStatusOf};

use nl_io::{Sink, SinkAnswer};
use nl_nand::Nand;
use nl_print::word_line;
use nl_spec_headline::{OrderList, SyncList};
use nl_tree::Refusal;
use std::alloc::Global;

/// What a call of the store leaves: its status, the medium, the syncs that were answered ok and the answered lines, in the order of their
/// places.
pub struct Done<M> {
    pub status: u8,
    /// Why the tree refuses what a command on one path was to do; None for every other ending.
    pub refused: Option<Refusal>,
    pub media: M,
    pub syncs: SyncList,
    pub order: OrderList,
}

/// An ending at which no line was run.
pub fn without_lines<M>(alloc: Global, status: u8, media: M) -> Done<M>
    ensures status { result.status ≡ status }
    ensures refused { result.refused ≡ None }
    ensures media { result.media ≡ media }
    ensures order { result.order.items ≡ [] }
    ensures syncs { result.syncs.items ≡ [] }
{
    Done {
        status,
        refused: None,
        media,
        syncs: SyncList::new(alloc),
        order: OrderList::new(alloc),
    }
}

/// Ends with a status and a line of text, before any line was run.
pub fn ended<K: Sink, M>(alloc: Global, status: u8, text: &[u8], sink: &mut K, media: M) -> Done<M>
    ensures status { result.status ≡ status }
    ensures refused { result.refused ≡ None }
    ensures media { result.media ≡ media }
    ensures order { result.order.items ≡ [] }
    ensures syncs { result.syncs.items ≡ [] }
    ensures prints { Prints (sink_seen K.Sink sink.old) (sink_seen K.Sink sink.new) (text.now ++ 10 ∷ []) }
{
    let _ = word_line(sink, text);
    without_lines(alloc, status, media)
}

/// The counts of faults of a medium.
#[derive(Clone, Copy, Debug, PartialEq, Eq)]
pub struct Faults {
    pub reads: u64,
    pub writes: u64,
}

/// The counts of faults of a medium now.
pub fn faults_of<M: Nand>(media: &M) -> Faults
    ensures { (result.reads ≡ M.read_faults media.now) × (result.writes ≡ M.write_faults media.now) }
{
    Faults {
        reads: media.read_faults(),
        writes: media.write_faults(),
    }
}

// Whether a count has risen, or stands at its type's end.
fn has_risen(before: u64, now: u64) -> bool
    ensures { IsTrue result ↔ Rose before now }
{
    now > before || now == u64::MAX
}

/// Whether a count of faults of the medium has risen since, or stands at its type's end.
pub fn has_failed<M: Nand>(media: &M, before: Faults) -> bool
    ensures yes { IsTrue result → Rose before.reads (M.read_faults media.now) ⊎ Rose before.writes (M.write_faults media.now) }
    ensures no { Rose before.reads (M.read_faults media.now) ⊎ Rose before.writes (M.write_faults media.now) → IsTrue result }
{
    has_risen(before.reads, media.read_faults()) || has_risen(before.writes, media.write_faults())
}

/// The status of a command that was carried out and whose text was printed: 5 where it failed, else 4 where the sink did not take the text.
pub fn status_of(failed: bool, answer: SinkAnswer) -> u8
    ensures five { IsTrue failed → result ≡ 5 }
    ensures four { failed ≡ false → answer ≡ SinkAnswer.Failed → result ≡ 4 }
    ensures zero { failed ≡ false → answer ≡ SinkAnswer.Took → result ≡ 0 }
    ensures done { IsStatusOf result (IsTrue failed) answer }
{
    if failed {
        return 5;
    }
    match answer {
        SinkAnswer::Took => 0,
        SinkAnswer::Failed => 4,
    }
}

/// Ends a command that was carried out and whose text was printed, before any line was run: with status 5 where a count of faults of the
/// medium has risen since, else 4 where the sink did not take the text.
pub fn carried_out<M: Nand>(alloc: Global, before: Faults, answer: SinkAnswer, media: M) -> Done<M>
    ensures status { IsStatusOf result.status (Rose before.reads (M.read_faults media) ⊎ Rose before.writes (M.write_faults media)) answer }
    ensures refused { result.refused ≡ None }
    ensures media { result.media ≡ media }
    ensures order { result.order.items ≡ [] }
    ensures syncs { result.syncs.items ≡ [] }
{
    let failed = has_failed(&media, before);
    without_lines(alloc, status_of(failed, answer), media)
}
