// Reads one line behind others.
ghost use Rattle.std.specs.Prelude.{◌≡◌, ◌<◌, ◌≤◌, ◌+◌, ◌∷◌, ◌++◌, [], length, All, IfOk, IfErr, OnOk, ◌⊎◌, Err, List, ℕ};
ghost use Rattle.nl_tree.specs.Calls as calls_of;
ghost use Rattle.nl_tree.specs.Calls.{IsBounded};
ghost use Rattle.nl_script.specs.Script as spec;
ghost use Rattle.nl_script.specs.Script.{max_calls, max_total};
ghost use Rattle.nl_script.specs.Reading.{read_on, IsReadScript};
ghost use Rattle.nl_script.specs.declared.refusal.ScriptRefusal.TheVariants.{Refused, Memory as OutOfMemory};
ghost use Rattle.nl_script.specs.declared.why.Why.{Why};

use crate::grammar::line_says;
use crate::said::Said;
use crate::{ScriptRefusal, Why};
use nl_field::{MAX_BYTES, Memory};
use nl_tree::{Call, Line, Lines};
use std::alloc::Global;

const MAX_CALLS: u32 = 1000000;

const MAX_TOTAL: u64 = 268435456;

// The number of the last line, its epoch between barriers, and the sum of the read lengths.
#[derive(Clone, Copy)]
pub(crate) struct Place {
    pub(crate) number: u32,
    pub(crate) round: u32,
    pub(crate) total: u64,
}

fn read_length(call: &Call) -> u32
    ensures { result ≡ calls_of.read_length call.now }
{
    match call {
        Call::Read(_, _, count) => *count,
        Call::List(_) => MAX_BYTES as u32,
        _ => 0,
    }
}

// The sum of the read lengths with one more call.
#[tactic(auto, unfolding(crate::specs::Script::with_read_total))]
fn counted(calls: u32, total: u64, call: &Call) -> Result<u64, Why>
    requires { total ≤ max_total }
    ensures sum { result ≡ spec.with_read_total calls total call.now }
    ensures calls { OnOk result (calls < max_calls) }
    ensures total { IfOk result (λ sum. (sum ≤ max_total) × (sum ≡ total + calls_of.read_length call.now)) }
{
    if calls >= MAX_CALLS {
        return Err(Why::Lines);
    }
    let sum = total + u64::from(read_length(call));
    if sum > MAX_TOTAL {
        return Err(Why::Total);
    }
    Ok(sum)
}

// Reads the line behind a place.
pub(crate) fn read_line(
    alloc: Global,
    raw: &[u8],
    at: Place,
    lines: &mut Lines,
) -> Result<Place, ScriptRefusal>
    requires read { IsReadScript at lines.old }
    requires number { at.number < 16777216 }
    ensures goes_on { IfOk result (λ next. (rest : List (List ℕ)) → read_on at lines.old (raw.now ∷ rest) ≡ read_on next lines.new rest) }
    ensures read { IfOk result (λ next. IsReadScript next lines.new) }
    ensures number { IfOk result (λ next. next.number ≡ at.number + 1) }
    ensures refusal { IfErr result (λ e. (e ≡ OutOfMemory) ⊎ ((rest : List (List ℕ)) → read_on at lines.old (raw.now ∷ rest) ≡ Err e)) }
{
    let number = at.number + 1;
    let Ok(said) = line_says(alloc, raw) else {
        return Err(ScriptRefusal::Memory);
    };
    match said {
        Err(fault) => Err(ScriptRefusal::Refused {
            line: number,
            column: fault.column,
            why: fault.why,
        }),
        Ok(Said::Nothing) => Ok(Place { number, ..at }),
        Ok(Said::Barrier) => Ok(Place {
            number,
            round: at.round + 1,
            total: at.total,
        }),
        Ok(Said::CallOf(worker, call)) => add_call(lines, number, at, worker, call),
    }
}

// Adds the call of the line behind a place.
fn add_call(
    lines: &mut Lines,
    number: u32,
    at: Place,
    worker: u8,
    call: Call,
) -> Result<Place, ScriptRefusal>
    requires read { IsReadScript at lines.old }
    requires number { number ≡ at.number + 1 }
    requires worker { worker ≤ 7 }
    requires bounded { IsBounded call }
    ensures counted { IfOk result (λ next. spec.with_read_total (length lines.old) at.total call ≡ Ok next.total) }
    ensures place { IfOk result (λ next. (next.number ≡ number) × (next.round ≡ at.round)) }
    ensures added { OnOk result (lines.new ≡ lines.old ++ record { line = number; round = at.round; worker = worker; call = call } ∷ []) }
    ensures read { IfOk result (λ next. IsReadScript next lines.new) }
    ensures refusal { IfErr result (λ e. (e ≡ OutOfMemory)
        ⊎ ((why : Why) × (spec.with_read_total (length lines.old) at.total call ≡ Err why) × (e ≡ Refused number 1 why))) }
{
    match counted(lines.len(), at.total, &call) {
        Err(why) => Err(ScriptRefusal::Refused {
            line: number,
            column: 1,
            why,
        }),
        Ok(total) => {
            let line = Line {
                line: number,
                round: at.round,
                worker,
                call,
            };
            match lines.push(line) {
                Ok(()) => Ok(Place {
                    number,
                    round: at.round,
                    total,
                }),
                Err(Memory) => Err(ScriptRefusal::Memory),
            }
        }
    }
}
