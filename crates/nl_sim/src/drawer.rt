// Scripts that are drawn.
ghost use Rattle.std.specs.Prelude.{◌<◌, ◌≤◌};

use crate::dice::Dice;
use crate::kind::{Kind, drawn_kind};
use crate::plan::{Mix, Plan};
use nl_field::Memory;
use nl_gen::soak_script;
use std::alloc::Global;
use std::fmt::Write;

/// Two names of 55 and 56 bytes: the longest, and one that is too long.
const LONGEST_NAME: &str = "a-name-of-fifty-five-bytes-which-is-the-longest-of-all-";

const TOO_LONG: &str = "a-name-of-fifty-six-bytes-which-is-longer-than-names-are";

const NAMES: [&str; 12] = [
    "a",
    "b",
    "c",
    "d",
    "e",
    "a-",
    "note",
    ".note.tmp",
    "Z",
    "~",
    LONGEST_NAME,
    TOO_LONG,
];

/// The most paths that are known at a time, and the bytes of the longest. A path of more than 1023 bytes is too long for a call.
const MOST_KNOWN: usize = 40;

const LONGEST_PATH: usize = 1100;

/// The scripts of one trial. It knows paths that earlier lines have named, whether they are there or not.
#[derive(Drop)]
pub(crate) struct Drawer {
    alloc: Global,
    pub(crate) dice: Dice,
    known: Vec<String>,
    text: String,
}

impl Drawer {
    /// A drawer that knows the root.
    pub(crate) fn new(alloc: Global, dice: Dice) -> Result<Drawer, Memory> {
        let mut known = Vec::new(alloc);
        known.push(String::new(alloc))?;
        Ok(Drawer {
            alloc,
            dice,
            known,
            text: String::new(alloc),
        })
    }

    // The path known at a position, where the root is the empty text.
    fn copy_of(&self, at: usize) -> Result<String, Memory> {
        match self.known.get(at) {
            Some(path) => path.clone(),
            None => Ok(String::new(self.alloc)),
        }
    }

    // A path that is known, in half of the draws one of the last.
    fn drawn_known(&mut self) -> Result<String, Memory> {
        let len = self.known.len();
        let back = 1
            + if self.dice.is_one_in(2) {
                self.dice.place(3)
            } else {
                self.dice.place(len.max(1))
            };
        self.copy_of(len.saturating_sub(back))
    }

    // Learns a path, in place of another where it knows many. It never forgets the root.
    fn learn(&mut self, path: &str) -> Result<(), Memory> {
        let copy = String::from_str(self.alloc, path)?;
        if self.known.len() < MOST_KNOWN {
            self.known.push(copy)?;
            return Ok(());
        }
        let at = 1 + self.dice.place(MOST_KNOWN - 1);
        if let Some(slot) = self.known.get_mut(at) {
            *slot = copy;
        }
        Ok(())
    }

    fn drawn_name(&mut self) -> &'static str {
        let at = if self.dice.is_one_in(8) {
            self.dice.place(NAMES.len())
        } else {
            self.dice.place(6)
        };
        NAMES.get(at).copied().unwrap_or("a")
    }

    // A path in one that is known.
    fn drawn_new(&mut self) -> Result<String, Memory> {
        let name = self.drawn_name();
        let parent = self.drawn_known()?;
        let path = if parent.len() < LONGEST_PATH {
            format!(in self.alloc; "{parent}/{name}")?
        } else {
            format!(in self.alloc; "/{name}")?
        };
        self.learn(path.as_str())?;
        Ok(path)
    }

    // A path of a call, mostly one that is known.
    fn drawn_path(&mut self) -> Result<String, Memory> {
        if self.dice.is_one_in(8) {
            return self.drawn_new();
        }
        let path = self.drawn_known()?;
        if path.is_empty() {
            String::from_str(self.alloc, "/")
        } else {
            Ok(path)
        }
    }

    // An offset in bytes: near the start, at an edge of a page, anywhere, in a range of pages behind the first, or at the end of the
    // longest file.
    fn drawn_offset(&mut self) -> u64 {
        let number = u64::from(self.dice.below(300_000));
        match self.dice.below(12) {
            0..=3 => number % 64,
            4..=6 => number % 9 * 4096 + number / 9 % 8,
            7..=9 => number,
            10 => number % 6 * 1_048_576 + 32_760,
            _ => 16_809_984 + 64 - number % 5000,
        }
    }

    // How many bytes a fill writes.
    fn drawn_fill(&mut self, mix: Mix) -> u32
        ensures { result ≤ 65536 }
    {
        match (mix, self.dice.below(4)) {
            (Mix::Full, 1..=3) => 65_536,
            (_, 0) => self.dice.below(65_537),
            _ => self.dice.below(20_000),
        }
    }

    // How many bytes a read reads.
    fn drawn_read(&mut self) -> u32
        ensures { result ≤ 65536 }
    {
        if self.dice.is_one_in(12) {
            65_536
        } else {
            self.dice.below(700)
        }
    }

    // Adds up to forty bytes in hexadecimal, and a dash for none.
    fn push_bytes(&mut self) -> Result<(), Memory> {
        let count = self.dice.below(41);
        if count == 0 {
            return self.text.push_str("-");
        }
        for _ in 0..count {
            let byte = self.dice.below(256);
            write!(self.text, "{byte:02x}")?;
        }
        Ok(())
    }

    fn on_path(&mut self, command: &str) -> Result<(), Memory> {
        let path = self.drawn_path()?;
        write!(self.text, "{command} {path}")
    }

    fn on_new(&mut self, command: &str) -> Result<(), Memory> {
        let path = self.drawn_new()?;
        write!(self.text, "{command} {path}")
    }

    fn push_rename(&mut self) -> Result<(), Memory> {
        self.on_path("rename")?;
        let to = if self.dice.is_one_in(3) {
            self.drawn_path()?
        } else {
            self.drawn_new()?
        };
        write!(self.text, " {to}")
    }

    fn push_write(&mut self) -> Result<(), Memory> {
        self.on_path("write")?;
        let from = self.drawn_offset();
        write!(self.text, " {from} ")?;
        self.push_bytes()
    }

    fn push_fill(&mut self, mix: Mix) -> Result<(), Memory> {
        self.on_path("fill")?;
        let from = self.drawn_offset();
        let len = self.drawn_fill(mix);
        let byte = self.dice.below(256);
        write!(self.text, " {from} {len} {byte:02x}")
    }

    fn push_read(&mut self) -> Result<(), Memory> {
        self.on_path("read")?;
        let from = self.drawn_offset();
        let len = self.drawn_read();
        write!(self.text, " {from} {len}")
    }

    fn push_truncate(&mut self) -> Result<(), Memory> {
        self.on_path("truncate")?;
        let size = self.drawn_offset();
        write!(self.text, " {size}")
    }

    fn push_call(&mut self, kind: Kind, mix: Mix) -> Result<(), Memory> {
        match kind {
            Kind::Mkdir => self.on_new("mkdir"),
            Kind::Create => self.on_new("create"),
            Kind::Rmdir => self.on_path("rmdir"),
            Kind::Unlink => self.on_path("unlink"),
            Kind::Stat => self.on_path("stat"),
            Kind::List => self.on_path("list"),
            Kind::Rename => self.push_rename(),
            Kind::Write => self.push_write(),
            Kind::Fill => self.push_fill(mix),
            Kind::Read => self.push_read(),
            Kind::Truncate => self.push_truncate(),
            Kind::Sync => self.text.push_str("sync"),
            Kind::Clean => self.text.push_str("clean"),
        }
    }

    // Adds a line of one of the workers, and at times a barrier.
    fn push_line(&mut self, mix: Mix, workers: u8) -> Result<(), Memory> {
        if self.dice.is_one_in(16) {
            self.text.push_str("barrier\n")?;
        }
        let worker = self.dice.below(u32::from(workers).max(1));
        write!(self.text, "{worker} ")?;
        let kind = drawn_kind(&mut self.dice, mix);
        self.push_call(kind, mix)?;
        self.text.push_str("\n")
    }

    fn drawn_lines(&mut self, mix: Mix, workers: u8) -> Result<String, Memory> {
        let most = match mix {
            Mix::Full => 120,
            _ => 80,
        };
        self.text.clear();
        let count = 1 + self.dice.below(most);
        for _ in 0..count {
            self.push_line(mix, workers)?;
        }
        self.text.clone()
    }

    fn drawn_soak(&mut self, workers: u8) -> Result<String, Memory>
        requires { (0 < workers) × (workers ≤ 8) }
    {
        let seed = u64::from(self.dice.word());
        let lines = 1 + self.dice.below(24);
        let script = soak_script(self.alloc, seed, lines, workers)?;
        String::from_utf8_lossy(self.alloc, script.bytes())
    }

    /// A script of a plan, of at least one line.
    pub(crate) fn script(&mut self, plan: &Plan) -> Result<String, Memory> {
        let workers = plan.workers;
        if let Mix::Soak = plan.mix
            && 0 < workers
            && workers <= 8
        {
            self.drawn_soak(workers)
        } else {
            self.drawn_lines(plan.mix, workers)
        }
    }
}
