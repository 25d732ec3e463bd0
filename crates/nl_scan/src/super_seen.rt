//! The newest super page among the pages of a pass.
ghost use Rattle.std.specs.Prelude.{◌≡◌};
ghost use Rattle.nl_scan.specs.Supers.{no_super, super_after};

use nl_field::{PageBuf, SpareRec, SuperRec};

/// The super page so far: the least of the greatest stamp among the readable pages with a virtual record of address 0.
#[derive(Clone, Copy, Debug, PartialEq, Eq)]
pub struct SuperSeen {
    /// The stamp of the super page, 0 where there is none.
    pub stamp: u64,
    /// The version that the super page spells, 0 where it spells none.
    pub version: u32,
}

impl SuperSeen {
    /// No super page: stamp 0 and version 0.
    pub fn none() -> SuperSeen
        ensures { result ≡ no_super }
    {
        SuperSeen {
            stamp: 0,
            version: 0,
        }
    }

    /// The super page after one more readable page.
    pub fn after(self, rec: &SpareRec, buf: &PageBuf) -> SuperSeen
        ensures { result ≡ super_after self (record { page = 0; rec = rec.now; main = buf.now.main }) }
    {
        let SpareRec::Virtual {
            vaddr: 0,
            stamp,
            ..
        } = *rec
        else {
            return self;
        };
        if stamp <= self.stamp {
            return self;
        }
        let version = match SuperRec::of(buf, 0) {
            Some(rec) => rec.version,
            None => 0,
        };
        SuperSeen { stamp, version }
    }
}
