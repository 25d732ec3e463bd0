//! A program over the store, as somebody writes one for a flash of their own: it makes a volume, runs two scripts on it, and looks at what
//! each stop within the second one leaves.
#![tactic(auto)]

mod store;

use nl_field::Memory;
use nl_nand::{Cut, MemNand, Stop};
use std::alloc::Global;
use std::process::ExitCode;
use std::sync::Wait;
use std::thread::Threads;
use store::{blank, tell};

const FIRST: &str = "0 create /a\n0 write /a 0 68656c6c6f\n0 sync\n0 read /a 0 9\n";

const SECOND: &str = "0 write /a 0 48\n0 sync\n0 read /a 0 9\n";

// More programs than the second script makes.
const MOST: u64 = 40;

// A medium on which a volume was made and the first script was run, and what both printed.
fn begun<Rt: Threads + Wait + Sync>(
    rt: &Rt,
    alloc: Global,
    text: &mut String,
) -> Result<MemNand, Memory> {
    let (_, media) = tell(rt, alloc, "format 32 32", "", blank(alloc), text)?;
    let (_, media) = tell(rt, alloc, "run", FIRST, media, text)?;
    Ok(media)
}

// What a check finds after a stop within the program of that number of the second script, and None where the script came to its end before.
fn stopped<Rt: Threads + Wait + Sync>(
    rt: &Rt,
    alloc: Global,
    program: u64,
) -> Result<Option<String>, Memory> {
    let mut unused = String::new(alloc);
    let media = begun(rt, alloc, &mut unused)?;
    let stop = Stop {
        operation: program,
        cut: Cut::Spoilt,
    };
    let (status, media) = tell(
        rt,
        alloc,
        "run",
        SECOND,
        media.restart(Some(stop)),
        &mut unused,
    )?;
    if status == 0 {
        return Ok(None);
    }
    let mut found = String::new(alloc);
    let (_, media) = tell(rt, alloc, "check", "", media.restart(None), &mut found)?;
    drop(media);
    Ok(Some(found))
}

// What the program prints.
fn story<Rt: Threads + Wait + Sync>(rt: &Rt, alloc: Global) -> Result<String, Memory> {
    let mut text = String::new(alloc);
    let media = begun(rt, alloc, &mut text)?;
    let (_, media) = tell(rt, alloc, "run", SECOND, media, &mut text)?;
    drop(media);
    let mut last = String::new(alloc);
    for program in 1..MOST {
        match stopped(rt, alloc, program)? {
            None => return Ok(text),
            Some(found) => {
                if found != last {
                    text.push_str("a stop leaves ")?;
                    text.push_str(found.as_str())?;
                }
                last = found;
            }
        }
    }
    text.push_str("and there are more programs\n")?;
    Ok(text)
}

fn main(rt: HostRuntime) -> ExitCode {
    let status = match story(&rt, rt.alloc()) {
        Ok(text) => match print!(rt; "{text}") {
            Ok(()) => 0,
            Err(_) => 4,
        },
        Err(_) => 6,
    };
    ExitCode::from(status)
}
