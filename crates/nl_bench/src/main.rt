//! The plain tree of files behind the store's scripts, to measure the store beside: it reads a script from standard input, runs its lines
//! one after the other on a tree in memory that has the room of a volume of B blocks of P pages, and prints the answers as `run` prints
//! them. It has no flash and no workers, and keeps nothing.
#![tactic(auto)]

mod ended;
mod lines;
mod playing;

use ended::Ended;
use nl_field::shape_of;
use nl_io::StdSink;
use playing::play;
use std::env;
use std::io::{self, Read};
use std::process::ExitCode;

// One byte more than a script may have: so much is read, and a script that has it is refused.
const MOST_READ: u64 = 16_777_217;

// What standard input has, up to that many bytes.
fn text_of_input(rt: &HostRuntime) -> io::Result<Vec<u8>> {
    let mut text = Vec::new(rt.alloc());
    rt.stdin().take(MOST_READ).read_to_end(&mut text)?;
    Ok(text)
}

// The two numbers of the command line, where these are all its words.
fn numbers_of(rt: &HostRuntime) -> io::Result<Option<(u32, u32)>> {
    let mut words = env::args(rt)?.skip(1);
    let (blocks, pages, more) = (words.next(), words.next(), words.next());
    match (blocks, pages, more) {
        (Some(blocks), Some(pages), None) => Ok(blocks.parse().ok().zip(pages.parse().ok())),
        _ => Ok(None),
    }
}

// Plays the script of standard input for the numbers of the command line.
fn run(rt: &HostRuntime) -> Ended {
    let numbers = match numbers_of(rt) {
        Ok(numbers) => numbers,
        Err(error) if error.kind() == io::ErrorKind::OutOfMemory => return Ended::Memory,
        Err(_) => None,
    };
    let Some((blocks, pages)) = numbers else {
        return Ended::Words;
    };
    let Some(shape) = shape_of(blocks, pages) else {
        return Ended::Words;
    };
    match text_of_input(rt) {
        Ok(text) => {
            let mut sink = StdSink::new(rt.stdout());
            play(rt.alloc(), shape, &text, &mut sink)
        }
        Err(error) if error.kind() == io::ErrorKind::OutOfMemory => Ended::Memory,
        Err(_) => Ended::NotRead,
    }
}

fn main(rt: HostRuntime) -> ExitCode {
    let ended = run(&rt);
    if ended == Ended::Words {
        let _ = eprintln!(rt; "words: nl_bench B P");
    }
    ExitCode::from(ended.status())
}
