//! The page of a frozen transaction that is due next is made.
ghost use Rattle.std.specs.Prelude.{◌≡◌, ◌<◌, ◌≤◌, ◌^◌, length, slice_index, Some};
ghost use Rattle.nl_field.specs.Journal.{header_of};
ghost use Rattle.nl_journal.specs.Progress.{IsPhase, next_after as after};
ghost use Rattle.nl_journal.specs.Transaction.{IsFrozen, header, main_at};
ghost use Rattle.nl_journal.specs.Units.{IsDue};

use crate::Phase;
use nl_field::{AddressList, CommitRec, HeaderRec, PageBuf};
use nl_meta::Meta;

/// The greatest number of a transaction.
pub(crate) const LAST: u64 = (1 << 63) - 1;

/// The number that a transaction after this one is written under.
pub(crate) fn next_after(number: u64) -> u64
    requires { number ≤ 2 ^ 63 }
    ensures { result ≡ after number }
{
    (number + 1).min(LAST)
}

/// Makes the page that is due of a frozen transaction, and answers its address.
pub(crate) fn due(page: &mut PageBuf, phase: Phase, number: u64, meta: &Meta) -> u32
    requires number { number ≤ 2 ^ 63 }
    requires frozen { IsFrozen meta.now.frozen }
    requires phase { IsPhase phase (length meta.now.frozen.addresses) }
    ensures { IsDue phase number meta.now.frozen result page.new.main }
{
    match phase {
        Phase::Header => {
            header_page(page, next_after(number), meta);
            1
        }
        Phase::Image(i) => {
            copy_frozen(page, meta, i);
            2 + i
        }
        Phase::Commit => {
            let number = next_after(number);
            CommitRec { number }.into_page(page, 0);
            66
        }
        Phase::Home(i) => copy_frozen(page, meta, i),
    }
}

// Copies the frozen page at a place, and answers its address.
fn copy_frozen(page: &mut PageBuf, meta: &Meta, i: u32) -> u32
    requires below { i < length meta.now.frozen.addresses }
    requires frozen { IsFrozen meta.now.frozen }
    ensures address { result ≡ slice_index meta.now.frozen.addresses i }
    ensures main { page.new.main ≡ main_at meta.now.frozen.images i }
{
    match meta.frozen(i) {
        Some(address) => {
            page.copy_from(meta.frozen_page(address));
            address
        }
        None => unreachable!(),
    }
}

fn header_page(page: &mut PageBuf, number: u64, meta: &Meta)
    requires above { 1 ≤ number }
    requires below { number < 2 ^ 63 }
    requires frozen { IsFrozen meta.now.frozen }
    ensures { header_of page.new.main ≡ Some (header number meta.now.frozen) }
{
    let addresses = addresses(meta);
    HeaderRec { number, addresses }.into_page(page, 0);
}

/// How many pages are frozen.
pub fn frozen_len(meta: &Meta) -> u32
    ensures count { result ≡ length meta.now.frozen.addresses }
    ensures most { result ≤ 64 }
{
    meta.stands();
    for i in 0..64 {
        if meta.frozen(i).is_none() {
            return i;
        }
    }
    64
}

fn addresses(meta: &Meta) -> AddressList
    ensures { result ≡ meta.now.frozen.addresses }
{
    meta.stands();
    let mut addresses = AddressList::new();
    for i in 0..64 {
        if let Some(address) = meta.frozen(i) {
            addresses.push(address);
        }
    }
    addresses
}
