// Commands one after the other on one medium, and what they are to tell.
use crate::program::{Rig, Told};
use nl_field::Memory;
use std::alloc::Global;
use std::fmt::Write;
use std::sync::Wait;
use std::thread::Threads;

/// The words, the script, and what is to be told: a status and a text.
pub type Step<'a> = (&'a str, &'a str, u8, &'a str);

/// Makes a volume of 32 blocks of 32 pages.
pub const FORMAT: Step<'static> = (
    "format 32 32",
    "",
    0,
    "formatted blocks 32 pages 32 data 480 nodes 64 meta 32\n",
);

/// The answers of a run on a volume after so many calls, where so many lines come before the first that is answered.
pub fn answered(
    alloc: Global,
    opened: u64,
    before: u64,
    answers: &[&str],
) -> Result<String, Memory> {
    let mut text = format!(in alloc; "opened {opened}\n")?;
    let mut line = before;
    let mut place = opened;
    for answer in answers {
        line = line.saturating_add(1);
        place = place.saturating_add(1);
        write!(text, "{line} @{place} {answer}\n")?;
    }
    Ok(text)
}

impl<'a, Rt: Threads + Wait + Sync> Rig<'a, Rt> {
    /// Whether what was told is what this step wants. What is not is noted.
    pub fn is_told(&mut self, told: &Told, step: &Step<'_>) -> Result<bool, Memory> {
        let (words, _, status, text) = *step;
        if told.is(status, text) {
            return Ok(true);
        }
        self.note_told(words, told)
    }

    fn step(&mut self, step: &Step<'_>) -> Result<bool, Memory> {
        let (words, script, _, _) = *step;
        let told = self.tell(words, script)?;
        let right = self.is_told(&told, step);
        drop(told);
        right
    }

    /// Whether each of the steps tells what it wants, one after the other. What the first one tells that does not is noted.
    pub fn play(&mut self, steps: &[Step<'_>]) -> Result<bool, Memory> {
        for step in steps {
            if !self.step(step)? {
                return Ok(false);
            }
        }
        Ok(true)
    }

    /// Whether each of the steps tells what it wants on a new volume of 32 blocks of 32 pages. What the first one tells that does not is
    /// noted.
    pub fn play_new(&mut self, steps: &[Step<'_>]) -> Result<bool, Memory> {
        Ok(self.step(&FORMAT)? && self.play(steps)?)
    }

    fn rows(&mut self, rows: &[&[Step<'_>]]) -> Result<bool, Memory> {
        for row in rows {
            if !self.play_new(row)? {
                return Ok(false);
            }
        }
        Ok(true)
    }

    /// The count of calls as which a check tells the medium sound, and `None` where it does not.
    pub fn counted(&mut self) -> Result<Option<u64>, Memory> {
        let told = self.tell("check", "")?;
        let count = sound_count(told.text());
        drop(told);
        Ok(count)
    }

    /// Whether a check tells the medium sound after so many calls. What it tells otherwise is noted.
    pub fn is_sound(&mut self, count: u64) -> Result<bool, Memory> {
        let text = format!(in self.alloc; "sound {count}\n")?;
        let right = self.step(&("check", "", 0, text.as_str()));
        drop(text);
        right
    }
}

/// What is told otherwise than wanted by the first of the steps of which that is so, on a medium that was never formed, and the empty text
/// where there is none.
pub fn play_blank<Rt: Threads + Wait + Sync>(
    rt: &Rt,
    alloc: Global,
    steps: &[Step<'_>],
) -> Result<String, Memory> {
    let mut rig = Rig::new(rt, alloc);
    let right = rig.play(steps);
    rig.ended(right)
}

/// What is told otherwise than wanted by the first of the steps of which that is so, on a new volume, and the empty text where there is
/// none.
pub fn played<Rt: Threads + Wait + Sync>(
    rt: &Rt,
    alloc: Global,
    steps: &[Step<'_>],
) -> Result<String, Memory> {
    let mut rig = Rig::new(rt, alloc);
    let right = rig.play_new(steps);
    rig.ended(right)
}

/// What is told otherwise than wanted by the first of the steps of which that is so, with a new volume for each row of steps, and the empty
/// text where there is none.
pub fn play_rows<Rt: Threads + Wait + Sync>(
    rt: &Rt,
    alloc: Global,
    rows: &[&[Step<'_>]],
) -> Result<String, Memory> {
    let mut rig = Rig::new(rt, alloc);
    let right = rig.rows(rows);
    rig.ended(right)
}

fn sound_count(text: &[u8]) -> Option<u64> {
    let text = str::from_utf8(text).ok()?;
    text.strip_prefix("sound ")?
        .strip_suffix("\n")?
        .parse()
        .ok()
}
