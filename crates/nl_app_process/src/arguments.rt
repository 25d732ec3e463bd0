// The words of the process.
use nl_field::Memory;
use nl_io::Words;
use std::rt::Env;
use std::{env, io};

/// The most words that are kept. No command has as many.
const MOST_WORDS: u32 = 1000;

/// What the process was asked for.
#[derive(Drop)]
pub enum Request {
    Help,
    Version,
    /// There is no word, or one that is not UTF-8.
    Nothing,
    /// The words behind the path of an image file.
    Image { path: String, words: Words },
}

/// What the process was asked for, by its words.
pub fn request_of<Rt: Env + AllocGlobal>(rt: &Rt) -> Result<Request, Memory> {
    let mut args = match env::args(rt) {
        Ok(args) => args.skip(1),
        Err(error) if error.kind() == io::ErrorKind::OutOfMemory => return Err(Memory),
        Err(_) => return Ok(Request::Nothing),
    };
    let Some(first) = args.next() else {
        return Ok(Request::Nothing);
    };
    let mut words = Words::new(rt.alloc());
    for word in args {
        if words.len() < MOST_WORDS {
            words.push(word.as_bytes())?;
        }
    }
    if words.len() == 0 && first.as_str() == "--help" {
        return Ok(Request::Help);
    }
    if words.len() == 0 && first.as_str() == "--version" {
        return Ok(Request::Version);
    }
    Ok(Request::Image { path: first, words })
}
