// A script of many lines, and the text that it is to have.
use crate::play::Step;
use nl_field::Memory;
use std::alloc::Global;
use std::fmt::Write;

/// The lines of a script, and their answers by place.
#[derive(Drop)]
pub struct Built {
    script: String,
    text: String,
    line: u64,
    place: u64,
}

impl Built {
    /// No lines, for a volume after so many calls.
    pub fn new(alloc: Global, opened: u64) -> Result<Built, Memory> {
        Ok(Built {
            script: String::new(alloc),
            text: format!(in alloc; "opened {opened}\n")?,
            line: 0,
            place: opened,
        })
    }

    /// A line of worker 0, and its answer.
    pub fn add(&mut self, call: &str, answer: &str) -> Result<(), Memory> {
        self.line = self.line.saturating_add(1);
        self.place = self.place.saturating_add(1);
        let line = self.line;
        let place = self.place;
        write!(self.script, "0 {call}\n")?;
        write!(self.text, "{line} @{place} {answer}\n")
    }

    /// Lines of worker 0, each with its answer.
    pub fn add_all(&mut self, lines: &[(&str, &str)]) -> Result<(), Memory> {
        for line in lines {
            let (call, answer) = *line;
            self.add(call, answer)?;
        }
        Ok(())
    }

    /// The lines behind it wait for all before it.
    pub fn barrier(&mut self) -> Result<(), Memory> {
        self.line = self.line.saturating_add(1);
        self.script.push_str("barrier\n")
    }

    /// So many lines that fill a file page by page with a byte, 16 pages each.
    pub fn fill(
        &mut self,
        alloc: Global,
        file: &str,
        count: u32,
        byte: &str,
    ) -> Result<(), Memory> {
        for at in 0..count {
            let from = u64::from(at) * 65536;
            let call = format!(in alloc; "fill {file} {from} 65536 {byte}")?;
            self.add(call.as_str(), "ok 65536")?;
        }
        Ok(())
    }

    /// The run of these lines, which has no fault.
    pub fn step(&self) -> Step<'_> {
        ("run", self.script.as_str(), 0, self.text.as_str())
    }
}

/// The pages of one file are all the 480 that a volume of 32 blocks of 32 pages has for files. It makes 33 calls.
pub fn full(alloc: Global) -> Result<Built, Memory> {
    let mut built = Built::new(alloc, 0)?;
    built.add("create /a", "ok")?;
    built.fill(alloc, "/a", 30, "61")?;
    built.add_all(&[
        ("write /a 1966080 62", "ENOSPC data"),
        ("stat /a", "ok file 1966080 480"),
    ])?;
    Ok(built)
}
