// The command that checks what a medium holds.
ghost use Rattle.std.specs.Prelude.{◌≡◌, ◌≢◌, ◌⊎◌, ◌≤◌, ℕ, [], None};
ghost use Rattle.nl_field.specs.CrashStates.{Rose};
ghost use Rattle.nl_field.specs.FindingBits.{bits_of};
ghost use Rattle.nl_field.specs.Page.{Image};
ghost use Rattle.nl_spec_headline.specs.Status.{DoneStatus};
ghost use Rattle.nl_spec_headline.specs.Streams.{Prints, medium_seen, sink_seen};
ghost use Rattle.nl_print.specs.Texts.{findings_text, sound_text};
ghost use Rattle.nl_cmd_words.specs.Ends.{CheckEnds};

use crate::status::{Done, Faults, carried_out, ended, faults_of, without_lines};
use nl_check::{Checked, findings};
use nl_field::Findings;
use nl_io::Sink;
use nl_nand::Nand;
use nl_print::{findings_lines, number_line};
use nl_spec_image::laws::walk_finds_consistency;
use std::alloc::Global;

/// Prints what a check finds on a medium: that it is sound after so many calls, with status 0, or what is at fault, with status 8. Of a
/// medium that is blank it says so, with status 7. The medium is only read.
pub fn check<K: Sink, M: Nand>(alloc: Global, sink: &mut K, media: M) -> Done<M>
    ensures ended { CheckEnds M.tells (sink_seen K.Sink sink.old) (sink_seen K.Sink sink.new)
        (medium_seen M.Nand media) (medium_seen M.Nand result.media)
        result.order.items result.syncs.items result.status }
    ensures refused { result.refused ≡ None }
    ensures left { M.tells → (m : ℕ) (c : Image) → M.left result.media m c → M.left media m c }
{
    walk_finds_consistency();
    let before = faults_of(&media);
    let (checked, media) = findings(alloc, media);
    match checked {
        Checked::Found { bits, count } => print_found(alloc, bits, count, before, sink, media),
        Checked::Blank => ended(alloc, 7, b"blank", sink, media),
        Checked::Fault => ended(alloc, 5, b"medium fault", sink, media),
        Checked::Memory => ended(alloc, 6, b"memory", sink, media),
    }
}

// Prints what was found.
fn print_found<K: Sink, M: Nand>(
    alloc: Global,
    bits: Findings,
    count: u64,
    before: Faults,
    sink: &mut K,
    media: M,
) -> Done<M>
    requires reads { before.reads ≤ M.read_faults media }
    requires writes { before.writes ≤ M.write_faults media }
    ensures sound { bits_of bits ≡ 0 → Prints (sink_seen K.Sink sink.old) (sink_seen K.Sink sink.new) (sound_text count)
        × DoneStatus result.status (Rose before.reads (M.read_faults media) ⊎ Rose before.writes (M.write_faults media))
        (sink_seen K.Sink sink.old) (sink_seen K.Sink sink.new) (sound_text count) }
    ensures faults { bits_of bits ≢ 0 → (result.status ≡ 8)
        × Prints (sink_seen K.Sink sink.old) (sink_seen K.Sink sink.new) (findings_text bits) }
    ensures refused { result.refused ≡ None }
    ensures media { result.media ≡ media }
    ensures order { result.order.items ≡ [] }
    ensures syncs { result.syncs.items ≡ [] }
{
    if !bits.is_none() {
        let _ = findings_lines(sink, bits);
        return without_lines(alloc, 8, media);
    }
    let answer = number_line(sink, b"sound", count);
    carried_out(alloc, before, answer, media)
}
