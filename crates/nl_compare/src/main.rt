//! Compares the tables of both devices while they answer a script that is drawn from a seed: `nl_compare B P SEED N W EVERY` runs the soak of
//! SEED with N lines for each of W workers on two volumes of B blocks of P pages in memory, and prints behind each EVERY calls, and behind the
//! last, how many calls were answered, the most pairs and the most entries so far.
#![tactic(auto)]

mod running;
mod words;

use nl_io::StdSink;
use running::{Ended, run};
use std::process::ExitCode;
use words::words_of;

fn main(rt: HostRuntime) -> ExitCode {
    let ended = match words_of(&rt) {
        Some(words) => {
            let mut sink = StdSink::new(rt.stdout());
            run(rt.alloc(), &words, &mut sink)
        }
        None => Ended::Words,
    };
    if ended == Ended::Words {
        let _ = eprintln!(rt; "words: nl_compare B P SEED N W EVERY");
    }
    ExitCode::from(ended.status())
}
