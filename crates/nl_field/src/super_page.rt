//! The record on the super page: written to a page, and read from one.
ghost use Rattle.std.specs.Prelude.{◌≡◌, IsTrue, Some, length, bytes_eq};
ghost use Rattle.nl_field.specs.Spelling.{Decodes};
ghost use Rattle.nl_field.specs.SuperPage.{super_head, super_bytes, super_of, super_fields, is_super, fits_super};

use crate::PageBuf;
use crate::numbers::{is_padded, put_u32, put_u64, u32_from, u64_from};

/// The super page: the version of the format, the geometry, and the count of calls.
#[derive(Clone, Copy, Debug, PartialEq, Eq)]
pub struct SuperRec {
    pub version: u32,
    pub blocks: u32,
    /// Pages of a block.
    pub pages: u32,
    pub count: u64,
}

impl SuperRec {
    /// The record that the page's main bytes spell, None exactly where they spell none. It fills a page, so `at` is 0.
    pub fn of(page: &PageBuf, at: u32) -> Option<SuperRec>
        requires { at ≡ 0 }
        ensures value { result ≡ super_of page.now.main }
        ensures reads { Decodes fits_super is_super super_bytes page.now.main result }
    {
        read(page.main())
    }

    /// Writes the record's one spelling over the page's main bytes. The version is 1, and the count below 2^63.
    pub fn into_page(&self, page: &mut PageBuf, at: u32)
        requires whole { at ≡ 0 }
        requires spelled { IsTrue (is_super self.now) }
        ensures main { page.new.main ≡ super_bytes self.now }
        ensures spare { page.new.spare ≡ page.old.spare }
        ensures back { super_of (super_bytes self.now) ≡ Some self.now }
    {
        page.set_head(&self.head());
    }

    fn is_spelled(&self) -> bool
        ensures { result ≡ is_super self.now }
    {
        self.version == 1 && self.count < 1 << 63
    }

    fn is_in(&self, main: &[u8]) -> bool
        requires { length main.now ≡ 4096 }
        ensures { result ≡ bytes_eq (super_bytes self.now) main.now }
    {
        is_padded(main, &self.head())
    }

    #[tactic(auto, unfolding(crate::specs::SuperPage::fits_super))]
    fn head(&self) -> [u8; 32]
        ensures bytes { result ≡ super_head self.now }
        ensures fits { IsTrue (fits_super self.now) }
    {
        let SuperRec {
            version,
            blocks,
            pages,
            count,
        } = *self;
        let mut out = [0; 32];
        out[..8].copy_from_slice(b"NAMELESS");
        put_u32(&mut out, 8, version);
        put_u32(&mut out, 12, blocks);
        put_u32(&mut out, 16, pages);
        put_u64(&mut out, 24, count);
        out
    }
}

fn read(main: &[u8]) -> Option<SuperRec>
    requires { length main.now ≡ 4096 }
    ensures value { result ≡ super_of main.now }
    ensures reads { Decodes fits_super is_super super_bytes main.now result }
{
    decode(main)
}

#[tactic(auto, unfolding(crate::specs::SuperPage::super_of))]
fn decode(main: &[u8]) -> Option<SuperRec>
    requires { length main.now ≡ 4096 }
    ensures { result ≡ super_of main.now }
{
    let rec = fields(main);
    if rec.is_spelled() && rec.is_in(main) {
        Some(rec)
    } else {
        None
    }
}

#[tactic(auto, unfolding(crate::specs::SuperPage::super_fields))]
fn fields(main: &[u8]) -> SuperRec
    requires { length main.now ≡ 4096 }
    ensures { result ≡ super_fields main.now }
{
    SuperRec {
        version: u32_from(main, 8),
        blocks: u32_from(main, 12),
        pages: u32_from(main, 16),
        count: u64_from(main, 24),
    }
}
