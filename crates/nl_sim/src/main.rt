//! A program that runs drawn scripts on volumes in memory, with stops and failing calls of the medium, and compares all that is told and
//! left with a plain tree of files.
#![tactic(auto)]

mod answer;
mod dice;
mod drawer;
mod history;
mod judge;
mod kind;
mod look;
mod order;
mod plan;
mod trial;
mod wrong;

use nl_field::Memory;
use std::process::ExitCode;
use std::rt::Env;
use std::sync::Wait;
use std::thread::Threads;
use std::{env, io};
use trial::{Tally, difference};

/// How often it tells how far it is.
const PAUSE: u64 = 1000;

const USAGE: &str = "nl_sim SEED COUNT: runs so many trials, of the seeds from SEED on";

/// How many trials were made, and in how many of them something differs.
#[derive(Clone, Copy)]
struct Sum {
    runs: u64,
    differ: u64,
}

fn number_of(word: Option<String>) -> Option<u64> {
    let word = word?;
    let number = word.as_str().parse::<u64>().ok();
    drop(word);
    number
}

// The two numbers of the command line, the first seed and the count of trials.
fn asked<Rt: Env + AllocGlobal>(rt: &Rt) -> Result<Option<(u64, u64)>, Memory> {
    let mut args = match env::args(rt) {
        Ok(args) => args.skip(1),
        Err(error) if error.kind() == io::ErrorKind::OutOfMemory => return Err(Memory),
        Err(_) => return Ok(None),
    };
    let seed = number_of(args.next());
    let count = number_of(args.next());
    let more = args.next().is_some();
    match (seed, count, more) {
        (Some(seed), Some(count), false) => Ok(Some((seed, count))),
        _ => Ok(None),
    }
}

// Prints how far it is, with what the trials met.
fn print_pause<Rt: Print>(rt: &Rt, sum: Sum, tally: Tally) -> Result<(), io::Error> {
    let Sum { runs, differ } = sum;
    let Tally {
        scripts,
        failed,
        lost,
    } = tally;
    println!(rt;
        "{runs} runs, {differ} differ; {scripts} scripts, {failed} with a fault, {lost} calls lost"
    )
}

// Makes the trial of a seed, and prints what differs. It gives 0, or the status of a program that could not go on.
fn try_one<Rt: Threads + Wait + Sync + Print + AllocGlobal>(
    rt: &Rt,
    seed: u64,
    sum: &mut Sum,
    tally: &mut Tally,
) -> u8 {
    match difference(rt, rt.alloc(), seed, tally) {
        Ok(None) => {}
        Ok(Some(line)) => {
            sum.differ = sum.differ.saturating_add(1);
            if println!(rt; "{line}").is_err() {
                return 4;
            }
        }
        Err(_) => return 6,
    }
    sum.runs = sum.runs.saturating_add(1);
    if sum.runs % PAUSE == 0 && print_pause(rt, *sum, *tally).is_err() {
        return 4;
    }
    0
}

// Makes so many trials, and prints their sum. It gives 1 where something differs, 4 where printing fails, and 6 for want of memory.
fn simulate<Rt: Threads + Wait + Sync + Print + AllocGlobal>(rt: &Rt, seed: u64, count: u64) -> u8 {
    let mut sum = Sum { runs: 0, differ: 0 };
    let mut tally = Tally {
        scripts: 0,
        failed: 0,
        lost: 0,
    };
    for number in 0..count {
        let status = try_one(rt, seed.wrapping_add(number), &mut sum, &mut tally);
        if status != 0 {
            return status;
        }
    }
    let Sum { runs, differ } = sum;
    if println!(rt; "{runs} runs, {differ} differ").is_err() {
        return 4;
    }
    if differ == 0 { 0 } else { 1 }
}

fn main(rt: HostRuntime) -> ExitCode {
    let status = match asked(&rt) {
        Ok(Some((seed, count))) => simulate(&rt, seed, count),
        Ok(None) => {
            let _ = eprintln!(rt; "{USAGE}");
            2
        }
        Err(_) => 6,
    };
    ExitCode::from(status)
}
