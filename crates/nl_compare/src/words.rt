// The words of the command line.
use std::{env, io};

/// What is to be compared.
#[derive(Drop)]
pub(crate) struct Asked {
    pub blocks: u32,
    pub pages: u32,
    pub seed: u64,
    pub lines: u32,
    pub workers: u8,
    pub every: u32,
}

// All six numbers, where these are the words.
fn numbers_of(rt: &HostRuntime) -> io::Result<Option<Asked>> {
    let mut words = env::args(rt)?.skip(1);
    let (blocks, pages, seed) = (words.next(), words.next(), words.next());
    let (lines, workers, every) = (words.next(), words.next(), words.next());
    if words.next().is_some() {
        return Ok(None);
    }
    match (blocks, pages, seed, lines, workers, every) {
        (Some(blocks), Some(pages), Some(seed), Some(lines), Some(workers), Some(every)) => {
            match (
                blocks.parse(),
                pages.parse(),
                seed.parse(),
                lines.parse(),
                workers.parse(),
                every.parse(),
            ) {
                (Ok(blocks), Ok(pages), Ok(seed), Ok(lines), Ok(workers), Ok(every)) => {
                    Ok(Some(Asked {
                        blocks,
                        pages,
                        seed,
                        lines,
                        workers,
                        every,
                    }))
                }
                _ => Ok(None),
            }
        }
        _ => Ok(None),
    }
}

/// The numbers of the command line; None where these are not all its words.
pub(crate) fn words_of(rt: &HostRuntime) -> Option<Asked> {
    numbers_of(rt).unwrap_or(None)
}
