// Reads the lines of a whole script, or finds the first line at fault.
ghost use Rattle.std.specs.Prelude.{◌≡◌, ◌≤◌, ◌<◌, ◌∷◌, length, IfOk, IfErr, ◌⊎◌, Ok, Err};
ghost use Rattle.nl_script.specs.Script.{script, max_calls, max_total, read_total};
ghost use Rattle.nl_script.specs.Words.{lines_of};
ghost use Rattle.nl_script.specs.declared.refusal.ScriptRefusal.TheVariants.{Memory as OutOfMemory};

use crate::cut::cut;
use crate::reading::{Place, read_line};
use crate::{ScriptRefusal, Why};
use nl_tree::Lines;
use std::alloc::Global;

const MAX_SCRIPT: usize = 16777216;

// The first line, and the bytes behind its line feed.
fn first_line(rest: &[u8]) -> (&[u8], &[u8])
    requires { 0 < length rest.now }
    ensures lines { lines_of rest.now ≡ result.0.now ∷ lines_of result.1.now }
    ensures shorter { length result.1.now < length rest.now }
{
    let (line, after) = cut(rest, b'\n');
    match after {
        Some(after) => (line, after),
        None => (line, &[]),
    }
}

/// The lines of a script: at most 1,000,000 calls, whose read lengths have a sum of at most 268,435,456, where each listing
/// counts 65,536. A refusal names the first line at fault with its column and cause. `Memory` is answered only
/// where memory runs out.
pub fn script_of(alloc: Global, bytes: &[u8]) -> Result<Lines, ScriptRefusal>
    ensures lines { IfOk result (λ lines. script bytes.now ≡ Ok lines) }
    ensures few { IfOk result (λ lines. length lines ≤ max_calls) }
    ensures total { IfOk result (λ lines. read_total lines ≤ max_total) }
    ensures refusal { IfErr result (λ e. (e ≡ OutOfMemory) ⊎ (script bytes.now ≡ Err e)) }
{
    if bytes.len() > MAX_SCRIPT {
        return Err(ScriptRefusal::Refused {
            line: 0,
            column: 0,
            why: Why::Size,
        });
    }
    let mut lines = Lines::new(alloc);
    let mut at = Place {
        number: 0,
        round: 0,
        total: 0,
    };
    let mut rest = bytes;
    'script: while !rest.is_empty() {
        let (line, after) = first_line(rest);
        at = read_line(alloc, line, at, &mut lines)?;
        rest = after;
    }
    Ok(lines)
}
