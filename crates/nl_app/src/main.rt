//! A flash store in an image file: answers the words of a command line, from standard input to standard output.
#![tactic(auto)]

ghost use Rattle.std.specs.Prelude.{◌≡◌, ◌⊎◌};
ghost use Rattle.nl_app_process.specs.declared.notice.Notice.TheVariants.{Words, MediumFault, MediumInUse, Memory};

use nl_app_file::{Ending, answer};
use nl_app_process::{HELP, Notice, Request, VERSION, refusal_name, request_of};
use nl_io::{StdSink, StdSource};
use std::process::ExitCode;

const NOT_PRINTED: u8 = 4;

// Prints a text that was asked for. Where standard output does not take it, the status says so.
fn print(rt: &HostRuntime, text: &str) -> u8
    ensures { (result ≡ 0) ⊎ (result ≡ 4) }
{
    match println!(rt; "{text}") {
        Ok(()) => 0,
        Err(_) => NOT_PRINTED,
    }
}

// What the program prints by itself, and its status.
fn noticed(rt: &HostRuntime, notice: Notice) -> u8
    ensures words { notice ≡ Words → result ≡ 2 }
    ensures medium_fault { notice ≡ MediumFault → result ≡ 5 }
    ensures medium_in_use { notice ≡ MediumInUse → result ≡ 5 }
    ensures memory { notice ≡ Memory → result ≡ 6 }
{
    let text = notice.text();
    let _ = eprintln!(rt; "{text}");
    notice.status()
}

// Tells the refusal of the tree with which a command on a path ended, and gives the status.
fn told(rt: &HostRuntime, ending: Ending) -> u8
    ensures { result ≡ ending.status }
{
    if let Some(refusal) = ending.refused {
        let name = refusal_name(refusal);
        let _ = eprintln!(rt; "{name}");
    }
    ending.status
}

fn main(rt: HostRuntime) -> ExitCode {
    let status = match request_of(&rt) {
        Ok(Request::Help) => print(&rt, HELP),
        Ok(Request::Version) => print(&rt, VERSION),
        Ok(Request::Nothing) => noticed(&rt, Notice::Words),
        Ok(Request::Image { path, words }) => {
            let mut source = StdSource::new(rt.stdin());
            let mut sink = StdSink::new(rt.stdout());
            match answer(&rt, path.as_str(), &words, &mut source, &mut sink) {
                Ok(ending) => told(&rt, ending),
                Err(notice) => noticed(&rt, notice),
            }
        }
        Err(_) => noticed(&rt, Notice::Memory),
    };
    ExitCode::from(status)
}
