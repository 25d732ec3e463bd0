// The paths of a plain tree: the text that `tree` prints of it, and a script that reads it all.
use crate::dice::Dice;
use crate::history::History;
use crate::wrong::Wrong;
use nl_field::{Memory, Text};
use nl_tree::{Call, Path, Reply};
use std::alloc::Global;
use std::fmt::Write;

/// More paths than a volume of a trial has nodes.
const MOST_PATHS: u32 = 1000;

/// The bytes of one read.
const WINDOW: u64 = 65_536;

/// The most reads of one file, and of all files.
const MOST_OF_FILE: u64 = 6;

const MOST_READS: u32 = 60;

/// The text that `tree` prints, and a script that lists each directory and reads the files: a file of up to six windows whole, and of a
/// longer one the first window, the last one and four that are drawn. Behind the most reads of all files it reads a few bytes of each.
#[derive(Drop)]
pub(crate) struct Look {
    pub(crate) tree: String,
    pub(crate) script: String,
    reads: u32,
}

// A path of names behind slashes.
fn path_of(alloc: Global, text: &str) -> Result<Path, Memory> {
    let mut path = Path::new(alloc);
    for name in text.as_bytes().split(|byte| *byte == b'/') {
        if !name.is_empty() {
            path.push(Text::of(alloc, name)?)?;
        }
    }
    Ok(path)
}

// The window of a file that is read at a turn, where it has so many.
fn drawn_window(dice: &mut Dice, windows: u64, turn: u64) -> u64 {
    if windows <= MOST_OF_FILE {
        return turn;
    }
    match turn {
        0 => 0,
        1 => windows.saturating_sub(1),
        _ => u64::from(dice.word()) % windows.max(1),
    }
}

impl Look {
    fn new(alloc: Global, count: u64) -> Result<Look, Memory> {
        Ok(Look {
            tree: format!(in alloc; "opened {count}\n")?,
            script: String::new(alloc),
            reads: 0,
        })
    }

    fn directory(&mut self, path: &str, entries: u32) -> Result<(), Memory> {
        write!(self.tree, "d {path} {entries}\n")?;
        write!(self.script, "0 list {path}\n")
    }

    // A read by one of four workers.
    fn read(&mut self, path: &str, from: u64, len: u64) -> Result<(), Memory> {
        let worker = self.reads % 4;
        self.reads = self.reads.saturating_add(1);
        write!(self.script, "{worker} read {path} {from} {len}\n")
    }

    fn file(&mut self, dice: &mut Dice, path: &str, size: u64, pages: u32) -> Result<(), Memory> {
        write!(self.tree, "f {path} {size} {pages}\n")?;
        if self.reads >= MOST_READS {
            let from = u64::from(dice.word()) % size.max(1);
            return self.read(path, from, 32);
        }
        let windows = size.div_ceil(WINDOW);
        for turn in 0..windows.min(MOST_OF_FILE) {
            let from = drawn_window(dice, windows, turn).saturating_mul(WINDOW);
            self.read(path, from, WINDOW)?;
        }
        Ok(())
    }
}

// Puts the paths of a directory's entries behind those that are pending, the first one last.
fn put_children(
    history: &mut History,
    path: &str,
    pending: &mut Vec<String>,
) -> Result<(), Memory> {
    let alloc = history.alloc;
    let call = Call::List(path_of(alloc, path)?);
    let _reply = history.reply(&call)?;
    drop(call);
    let names = String::from_utf8_lossy(alloc, history.bytes())?;
    let front = if path == "/" { "" } else { path };
    let put = put_names(alloc, front, names.as_str(), pending);
    drop(names);
    put
}

// The same for the names of a directory of that path, with a space between each two.
fn put_names(
    alloc: Global,
    front: &str,
    names: &str,
    pending: &mut Vec<String>,
) -> Result<(), Memory> {
    let base = pending.len();
    for name in names.split(' ') {
        let name = name.strip_suffix('/').unwrap_or(name);
        if !name.is_empty() {
            let child = format!(in alloc; "{front}/{name}")?;
            let at = base.min(pending.len());
            pending.insert(at, child)?;
        }
    }
    Ok(())
}

// Looks at a path, and tells whether it is there.
fn look_at(
    history: &mut History,
    dice: &mut Dice,
    look: &mut Look,
    path: &str,
    pending: &mut Vec<String>,
) -> Result<bool, Memory> {
    let call = Call::Stat(path_of(history.alloc, path)?);
    let reply = history.reply(&call)?;
    drop(call);
    match reply {
        Reply::File { size, pages } => {
            look.file(dice, path, size, pages)?;
            Ok(true)
        }
        Reply::Dir { entries } => {
            look.directory(path, entries)?;
            put_children(history, path, pending)?;
            Ok(true)
        }
        _ => Ok(false),
    }
}

fn root(alloc: Global) -> Result<Vec<String>, Memory> {
    let mut pending = Vec::new(alloc);
    let path = String::from_str(alloc, "/")?;
    pending.push(path)?;
    Ok(pending)
}

// Looks at the paths that are pending, and at all under them.
fn look_at_pending(
    history: &mut History,
    dice: &mut Dice,
    look: &mut Look,
    pending: &mut Vec<String>,
) -> Result<(), Wrong> {
    for _ in 0..MOST_PATHS {
        let Some(path) = pending.pop() else {
            return Ok(());
        };
        let there = look_at(history, dice, look, path.as_str(), pending);
        drop(path);
        if !there? {
            return Err(Wrong::Differs("a path that the plain tree lists"));
        }
    }
    Err(Wrong::Differs("more paths than nodes"))
}

fn look_from_root(history: &mut History, dice: &mut Dice, look: &mut Look) -> Result<(), Wrong> {
    let mut pending = root(history.alloc)?;
    let looked = look_at_pending(history, dice, look, &mut pending);
    drop(pending);
    looked
}

/// What a look at the plain tree finds: a directory before what is under it, and names in their order.
pub(crate) fn look_at_all(history: &mut History, dice: &mut Dice) -> Result<Look, Wrong> {
    let mut look = Look::new(history.alloc, history.count())?;
    match look_from_root(history, dice, &mut look) {
        Ok(()) => Ok(look),
        Err(wrong) => {
            drop(look);
            Err(wrong)
        }
    }
}
