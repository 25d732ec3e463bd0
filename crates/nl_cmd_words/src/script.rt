// The script of a source, and the one that is drawn from a seed.
ghost use Rattle.std.specs.Prelude.{◌≡◌, ◌<◌, ◌≤◌, List, Ok, IfSome};
ghost use Rattle.nl_gen.specs.Soak.{soak_text};
ghost use Rattle.nl_spec_headline.specs.Streams.{source_seen};
ghost use Rattle.nl_script.specs.Script.{script};
ghost use Rattle.nl_tree.specs.declared.call.Line.{Line};
ghost use Rattle.nl_cmd_words.specs.Input.{GivesScript, IsReadAs};

use crate::input::{Input, read_all};
use nl_gen::soak_script;
use nl_io::Source;
use nl_script::{ScriptRefusal, Why, script_of};
use nl_tree::Lines;
use std::alloc::Global;

/// The most bytes of a script.
const MAX_SCRIPT: usize = 16_777_216;

/// What a source has left, as a script.
#[derive(Debug, Drop)]
pub enum Script {
    Lines(Lines),
    Refused { line: u32, column: u32, why: Why },
    /// A read failed.
    Failed,
    Memory,
}

/// The lines that a source has left, or the first refusal. Nothing is read after a read that failed.
pub fn read_script<S: Source>(alloc: Global, src: &mut S) -> Script
    ensures script { GivesScript (source_seen S.Source src.old) (source_seen S.Source src.new) result }
    ensures never_falls { S.faults src.old ≤ S.faults src.new }
{
    match read_all(alloc, src, MAX_SCRIPT) {
        Input::All(bytes) => lines_of(alloc, bytes.bytes()),
        Input::TooLong => Script::Refused {
            line: 0,
            column: 0,
            why: Why::Size,
        },
        Input::Failed => Script::Failed,
        Input::Memory => Script::Memory,
    }
}

// The lines of a script, or its first refusal.
fn lines_of(alloc: Global, bytes: &[u8]) -> Script
    ensures { IsReadAs bytes.now result }
{
    match script_of(alloc, bytes) {
        Ok(lines) => Script::Lines(lines),
        Err(ScriptRefusal::Refused { line, column, why }) => Script::Refused { line, column, why },
        Err(ScriptRefusal::Memory) => Script::Memory,
    }
}

/// The lines that are drawn from a seed, so many for each of so many workers. They are always a script; None comes for want of memory.
pub fn drawn_lines(alloc: Global, seed: u64, count: u32, workers: u8) -> Option<Lines>
    requires count { (0 < count) × (count ≤ 20000) }
    requires workers { (0 < workers) × (workers ≤ 8) }
    ensures { (lines : List Line) × (script (soak_text seed count workers) ≡ Ok lines) × IfSome result (λ drawn. drawn ≡ lines) }
{
    match soak_script(alloc, seed, count, workers) {
        Ok(text) => script_of(alloc, text.bytes()).ok(),
        Err(_) => None,
    }
}
