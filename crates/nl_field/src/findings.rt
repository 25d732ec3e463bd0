//! The findings of a check as bits, with their names.
ghost use Rattle.std.specs.Prelude.{⊤, ◌≡◌, ◌≢◌, ◌==◌, IsTrue, [], ◌∷◌, codes};
ghost use Rattle.std.specs.Int.RustNames.{bit_or};
ghost use Rattle.nl_field.specs.FindingBits.{bit_of, bits_of, has_finding};
ghost use Rattle.nl_field.specs.declared.place.What.{What};

use crate::What;
use bitflags::{Flag, Flags, bitflag_items};

/// What a check of an image finds at fault: a bit for each phase of an opening's walk, the lowest for the first.
#[derive(Clone, Copy, PartialEq, Eq, Debug)]
pub struct Findings(u16);

bitflag_items! {
    impl Findings: u16 {
        const SUPER = 1;
        const STAMP = 2;
        const INODE = 4;
        const PAGES = 8;
        const ENTRY = 16;
        const POINTER = 32;
        const NAMES = 64;
        const CHARGES = 128;
        const CROWDED = 256;
    }
}

impl Flags for Findings {
    type Bits = u16;

    ghost exact = { ⊤ };

    ghost table = { (codes "SUPER", 1) ∷ (codes "STAMP", 2) ∷ (codes "INODE", 4) ∷ (codes "PAGES", 8) ∷ (codes "ENTRY", 16)
        ∷ (codes "POINTER", 32) ∷ (codes "NAMES", 64) ∷ (codes "CHARGES", 128) ∷ (codes "CROWDED", 256) ∷ [] };

    ghost set_of = { λ f. f.0 };

    fn flags<'a>() -> &'a [Flag<Findings>] {
        Findings::FLAGS
    }

    fn bits(&self) -> u16 {
        self.0
    }

    fn from_bits_retain(bits: u16) -> Findings {
        Findings(bits)
    }
}

impl Findings {
    /// No finding.
    pub fn none() -> Findings
        ensures { bits_of result ≡ 0 }
    {
        Findings(0)
    }

    /// Whether there is no finding.
    pub fn is_none(&self) -> bool
        ensures { result ≡ (bits_of self.now == 0) }
    {
        self.0 == 0
    }

    /// Whether this finding is among them.
    pub fn has(&self, what: What) -> bool
        ensures { result ≡ has_finding self.now what }
    {
        self.contains(flag(what))
    }

    /// Adds a finding. The others stay as they are.
    pub fn add(&mut self, what: What)
        ensures bits { bits_of self.new ≡ bit_or (bits_of self.old) (bit_of what) }
        ensures added { IsTrue (has_finding self.new what) }
        ensures others { (other : What) → other ≢ what → has_finding self.new other ≡ has_finding self.old other }
    {
        self.insert(flag(what));
    }
}

fn flag(what: What) -> Findings
    ensures { bits_of result ≡ bit_of what }
{
    match what {
        What::Super => Findings::SUPER,
        What::Stamp => Findings::STAMP,
        What::Inode => Findings::INODE,
        What::Pages => Findings::PAGES,
        What::Entry => Findings::ENTRY,
        What::Pointer => Findings::POINTER,
        What::Names => Findings::NAMES,
        What::Charges => Findings::CHARGES,
        What::Crowded => Findings::CROWDED,
    }
}
