// All calls that a volume has answered, and the plain tree after them.
ghost use Rattle.nl_tree.specs.Calls.{HasFewBytes};

use crate::wrong::Wrong;
use nl_field::{Memory, shape_of};
use nl_nand::Geometry;
use nl_tree::{Call, Lines, Reply, ReplyBuf};
use nl_tree_model::Plain;
use std::alloc::Global;

/// A call that was answered: its script, its position in it, and whether it may have changed the tree.
#[derive(Clone, Copy)]
struct Made {
    script: usize,
    at: u32,
    changes: bool,
}

/// The calls that a volume has answered, in the order of their places, and a plain tree after those that met no fault.
#[derive(Drop)]
pub(crate) struct History {
    pub(crate) alloc: Global,
    geometry: Geometry,
    plain: Plain,
    out: ReplyBuf,
    scripts: Vec<Lines>,
    made: Vec<Made>,
    note: String,
}

// The plain tree of a new volume.
fn fresh(alloc: Global, geometry: Geometry) -> Result<Plain, Wrong> {
    match shape_of(geometry.blocks, geometry.pages) {
        Some(shape) => Ok(Plain::new(alloc, shape)?),
        None => Err(Wrong::Differs("no geometry of a volume")),
    }
}

// Makes a call of a script once more.
fn repeat(
    scripts: &Vec<Lines>,
    made: Made,
    plain: &mut Plain,
    out: &mut ReplyBuf,
) -> Result<(), Memory> {
    if let Some(lines) = scripts.get(made.script)
        && made.at < lines.len()
    {
        let _reply = plain.step(&lines.get(made.at).call, out)?;
    }
    Ok(())
}

impl History {
    /// No calls, on a new volume.
    pub(crate) fn new(alloc: Global, geometry: Geometry) -> Result<History, Wrong> {
        let out = ReplyBuf::new(alloc)?;
        let plain = fresh(alloc, geometry)?;
        Ok(History {
            alloc,
            geometry,
            plain,
            out,
            scripts: Vec::new(alloc),
            made: Vec::new(alloc),
            note: String::new(alloc),
        })
    }

    /// How many calls were answered.
    pub(crate) fn count(&self) -> u64 {
        self.made.len() as u64
    }

    /// What the plain tree answers to a call. It makes the call.
    pub(crate) fn reply(&mut self, call: &Call) -> Result<Reply, Memory>
        requires { HasFewBytes call.now }
    {
        self.plain.step(call, &mut self.out)
    }

    /// The bytes that came with the last reply.
    pub(crate) fn bytes(&self) -> &[u8] {
        self.out.bytes()
    }

    /// A call of the script that is kept next was answered, and may have changed the tree or not.
    pub(crate) fn add(&mut self, at: u32, changes: bool) -> Result<(), Memory> {
        let script = self.scripts.len();
        self.made.push(Made {
            script,
            at,
            changes,
        })?;
        Ok(())
    }

    /// Keeps the script whose calls were added.
    pub(crate) fn keep(&mut self, lines: Lines) -> Result<(), Memory> {
        self.scripts.push(lines)?;
        Ok(())
    }

    // Makes all calls once more that may have changed a tree.
    fn repeat_all(&self, plain: &mut Plain, out: &mut ReplyBuf) -> Result<(), Memory> {
        for made in self.made.iter() {
            if made.changes {
                repeat(&self.scripts, *made, plain, out)?;
            }
        }
        Ok(())
    }

    fn replay(&self, plain: &mut Plain) -> Result<(), Memory> {
        let mut out = ReplyBuf::new(self.alloc)?;
        let done = self.repeat_all(plain, &mut out);
        drop(out);
        done
    }

    // The plain tree after all calls, made anew.
    fn replayed(&self) -> Result<Plain, Wrong> {
        let mut plain = fresh(self.alloc, self.geometry)?;
        match self.replay(&mut plain) {
            Ok(()) => Ok(plain),
            Err(_) => {
                drop(plain);
                Err(Wrong::Memory)
            }
        }
    }

    /// Forgets all calls behind the first so many.
    pub(crate) fn cut(&mut self, count: u64) -> Result<(), Wrong> {
        if count < self.count() {
            self.made.truncate(count as usize);
            self.plain = self.replayed()?;
        }
        Ok(())
    }

    /// Notes what differs, in words.
    pub(crate) fn note(&mut self, text: &str) -> Result<(), Memory> {
        self.note = String::from_str(self.alloc, text)?;
        Ok(())
    }

    /// What was noted last.
    pub(crate) fn noted(&self) -> &str {
        self.note.as_str()
    }
}
