//! The record on the commit page of a transaction: written to a page, and read from one.
ghost use Rattle.std.specs.Prelude.{◌≡◌, IsTrue, Some, length, bytes_eq};
ghost use Rattle.nl_field.specs.Spelling.{Decodes};
ghost use Rattle.nl_field.specs.Journal.{commit_head, commit_bytes, commit_of, commit_fields, is_commit, fits_commit};

use crate::PageBuf;
use crate::numbers::{is_padded, put_u64, u64_from};

/// The commit page of a transaction in the journal: its number.
#[derive(Clone, Copy, Debug, PartialEq, Eq)]
pub struct CommitRec {
    pub number: u64,
}

impl CommitRec {
    /// The record that the page's main bytes spell, None exactly where they spell none. It fills a page, so `at` is 0.
    pub fn of(page: &PageBuf, at: u32) -> Option<CommitRec>
        requires { at ≡ 0 }
        ensures value { result ≡ commit_of page.now.main }
        ensures reads { Decodes fits_commit is_commit commit_bytes page.now.main result }
    {
        read(page.main())
    }

    /// Writes the record's one spelling over the page's main bytes. The number is from 1 and below 2^63.
    pub fn into_page(&self, page: &mut PageBuf, at: u32)
        requires whole { at ≡ 0 }
        requires spelled { IsTrue (is_commit self.now) }
        ensures main { page.new.main ≡ commit_bytes self.now }
        ensures spare { page.new.spare ≡ page.old.spare }
        ensures back { commit_of (commit_bytes self.now) ≡ Some self.now }
    {
        page.set_head(&self.head());
    }

    fn is_spelled(&self) -> bool
        ensures { result ≡ is_commit self.now }
    {
        1 <= self.number && self.number < 1 << 63
    }

    fn is_in(&self, main: &[u8]) -> bool
        requires { length main.now ≡ 4096 }
        ensures { result ≡ bytes_eq (commit_bytes self.now) main.now }
    {
        is_padded(main, &self.head())
    }

    fn head(&self) -> [u8; 16]
        ensures { result ≡ commit_head self.now }
    {
        let mut out = [0; 16];
        out[..8].copy_from_slice(b"NLCOMMIT");
        put_u64(&mut out, 8, self.number);
        out
    }
}

fn read(main: &[u8]) -> Option<CommitRec>
    requires { length main.now ≡ 4096 }
    ensures value { result ≡ commit_of main.now }
    ensures reads { Decodes fits_commit is_commit commit_bytes main.now result }
{
    decode(main)
}

#[tactic(auto, unfolding(crate::specs::Journal::commit_of))]
fn decode(main: &[u8]) -> Option<CommitRec>
    requires { length main.now ≡ 4096 }
    ensures { result ≡ commit_of main.now }
{
    let rec = fields(main);
    if rec.is_spelled() && rec.is_in(main) {
        Some(rec)
    } else {
        None
    }
}

#[tactic(auto, unfolding(crate::specs::Journal::commit_fields))]
fn fields(main: &[u8]) -> CommitRec
    requires { length main.now ≡ 4096 }
    ensures { result ≡ commit_fields main.now }
{
    CommitRec {
        number: u64_from(main, 8),
    }
}
