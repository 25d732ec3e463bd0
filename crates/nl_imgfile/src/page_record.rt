// The record of one page as a store has it, in memory.
ghost use Rattle.std.specs.Prelude.{◌≡◌, ◌≤◌, ◌<◌, ◌+◌, ◌++◌, length, take, drop, IsTrue};
ghost use Rattle.nl_store.specs.Store.{window, CallFaultCounted, StoreOnlyRead};
ghost use Rattle.nl_field.specs.Page.{written};
ghost use Rattle.nl_field.specs.Spelling.{u64_at};
ghost use Rattle.nl_nand.specs.Nand.{ReadsMediumPage};
ghost use Rattle.nl_imgfile.specs.PageRecord.{erased_record, written_record, page_of};

use crate::layout::{RECORD, STATE};
use nl_field::numbers::{put_u64, u64_from, zero};
use nl_field::{Memory, PageBuf};
use nl_nand::ReadAnswer;
use nl_store::{FetchAnswer, Store};
use std::alloc::Global;
use std::marker::Model;

const MAIN: usize = 4096;

const SPARE: usize = 64;

// States of a page. Any other is uncorrectable.
const ERASED: u64 = 0;

const WRITTEN: u64 = 1;

/// The bytes of one page's record.
#[derive(Debug, Drop)]
pub struct PageRecord {
    bytes: Vec<u8>,
}

impl Model for PageRecord {
    ghost use Rattle.std.specs.Prelude.{◌≡◌, List, ℕ, length};

    ghost Value = { List ℕ };

    ghost view = { λ r. r.bytes.items };

    ghost invariant = { λ r. length r.bytes.items ≡ 4168 };
}

impl PageRecord {
    /// Room for one record, of 4168 bytes. An error where memory is refused.
    pub fn new(alloc: Global) -> Result<PageRecord, Memory> {
        Ok(PageRecord {
            bytes: vec![in alloc; 0u8; RECORD]?,
        })
    }

    /// The 4168 bytes of the record.
    pub fn bytes(&self) -> &[u8]
        ensures bytes { result.now ≡ self.now }
        ensures len { length result.now ≡ 4168 }
    {
        &self.bytes
    }

    /// Reads the 4168 bytes that stand in a store from a place on. `Short` where the store ends before the last of them.
    pub fn fetch_from<S: Store>(&mut self, store: &mut S, at: u64) -> FetchAnswer
        ensures told { IsTrue S.tells → result ≡ FetchAnswer.Done → self.new ≡ window at 4168 (S.bytes store.old) }
        ensures only_fetches { StoreOnlyRead S.bytes S.moment S.left store.old store.new }
        ensures short { IsTrue S.tells → result ≡ FetchAnswer.Short → length (S.bytes store.old) < at + 4168 }
        ensures counted { CallFaultCounted (S.read_faults store.old) (S.read_faults store.new) (result ≡ FetchAnswer.Failed) }
        ensures writes_stay { S.write_faults store.new ≡ S.write_faults store.old }
    {
        store.fetch(&mut self.bytes, at)
    }

    /// Becomes the record of an erased page.
    #[tactic(auto, unfolding(crate::specs::PageRecord::erased_record))]
    pub fn set_erased(&mut self)
        ensures { self.new ≡ erased_record }
    {
        zero(&mut self.bytes);
    }

    /// Becomes the record of a page that holds these bytes.
    pub fn set_written(&mut self, page: &PageBuf)
        ensures bytes { self.new ≡ written_record page.now }
        ensures back { page_of self.new ≡ written page.now }
    {
        fill_written(&mut self.bytes, page);
    }

    /// What a read of the page with this record answers. The buffer holds the page where it is written.
    pub fn page_into(&self, buf: &mut PageBuf) -> ReadAnswer
        ensures page { ReadsMediumPage (page_of self.now) buf.new result }
        ensures never_fails { result ≡ ReadAnswer.Failed → ⊥ }
    {
        decode(&self.bytes, buf)
    }
}

fn fill_written(out: &mut [u8], page: &PageBuf)
    requires { length out.old ≡ 4168 }
    ensures bytes { out.new ≡ written_record page.now }
    ensures back { page_of out.new ≡ written page.now }
{
    put_u64(out, 0, WRITTEN);
    put(out, STATE, page.main());
    put(out, STATE + MAIN, page.spare());
}

/// Puts bytes over those from an offset on.
fn put(out: &mut [u8], at: usize, bytes: &[u8])
    requires { at + length bytes.now ≤ length out.old }
    ensures { out.new ≡ take at out.old ++ bytes.now ++ drop (at + length bytes.now) out.old }
{
    out[at..at + bytes.len()].copy_from_slice(bytes);
}

fn decode(bytes: &[u8], buf: &mut PageBuf) -> ReadAnswer
    requires { length bytes.now ≡ 4168 }
    ensures page { ReadsMediumPage (page_of bytes.now) buf.new result }
    ensures never_fails { result ≡ ReadAnswer.Failed → ⊥ }
{
    let state = state_in(bytes);
    if state == ERASED {
        return ReadAnswer::Erased;
    }
    if state != WRITTEN {
        return ReadAnswer::Uncorrectable;
    }
    fill_page(bytes, buf);
    ReadAnswer::Written
}

// Takes the main and spare bytes.
fn fill_page(bytes: &[u8], buf: &mut PageBuf)
    requires { length bytes.now ≡ 4168 }
    ensures main { buf.new.main ≡ take 4096 (drop 8 bytes.now) }
    ensures spare { buf.new.spare ≡ take 64 (drop 4104 bytes.now) }
{
    let mut spare = [0; SPARE];
    spare.copy_from_slice(&bytes[STATE + MAIN..]);
    buf.set_head(&bytes[STATE..STATE + MAIN]);
    buf.set_spare(&spare);
}

fn state_in(bytes: &[u8]) -> u64
    requires { length bytes.now ≡ 4168 }
    ensures { result ≡ u64_at bytes.now 0 }
{
    u64_from(bytes, 0)
}
