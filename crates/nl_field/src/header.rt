//! The record on the header page of a transaction: written to a page, and read from one.
ghost use Rattle.std.specs.Prelude.{◌≡◌, ◌≤◌, ◌+◌, ◌*◌, IsTrue, Some, length, ◌<◌, ◌==◌, ◌&&◌, ◌||◌, take, drop, slice_index, bytes_eq, nat_le, nat_lt};
ghost use Rattle.std.specs.List.{list_all};
ghost use Rattle.nl_field.specs.Spelling.{Decodes, u32s};
ghost use Rattle.nl_field.specs.Journal.{header_head, header_bytes, header_of, header_fields, is_header, fits_header, are_home_addresses};

use crate::numbers::{is_padded, put_u32, put_u32s, put_u64, u32_from, u64_from};
use crate::{AddressList, PageBuf};

/// The header of a transaction in the journal: its number, and the virtual addresses of its images.
#[derive(Debug, Drop)]
pub struct HeaderRec {
    pub number: u64,
    pub addresses: AddressList,
}

impl HeaderRec {
    /// The record that the page's main bytes spell, None exactly where they spell none. It fills a page, so `at` is 0.
    pub fn of(page: &PageBuf, at: u32) -> Option<HeaderRec>
        requires { at ≡ 0 }
        ensures value { result ≡ header_of page.now.main }
        ensures reads { Decodes fits_header is_header header_bytes page.now.main result }
    {
        read(page.main())
    }

    /// Writes the record's one spelling over the page's main bytes. The number is from 1 and below 2^63; the 1 to 64
    /// addresses rise, and each is 0 or from 67 on.
    pub fn into_page(&self, page: &mut PageBuf, at: u32)
        requires whole { at ≡ 0 }
        requires spelled { IsTrue (is_header self.now) }
        ensures main { page.new.main ≡ header_bytes self.now }
        ensures spare { page.new.spare ≡ page.old.spare }
        ensures back { header_of (header_bytes self.now) ≡ Some self.now }
    {
        let head = self.head();
        page.set_head(&head[..24 + 4 * self.addresses.len() as usize]);
    }

    fn is_spelled(&self) -> bool
        ensures { result ≡ is_header self.now }
    {
        1 <= self.number
            && self.number < 1 << 63
            && 1 <= self.addresses.len()
            && are_home(self.addresses.as_slice())
    }

    fn is_in(&self, main: &[u8]) -> bool
        requires { length main.now ≡ 4096 }
        ensures { result ≡ bytes_eq (header_bytes self.now) main.now }
    {
        let head = self.head();
        is_padded(main, &head[..24 + 4 * self.addresses.len() as usize])
    }

    // The spelling is its first bytes, 24 and 4 for each address.
    fn head(&self) -> [u8; 280]
        ensures bytes { take (24 + 4 * length self.now.addresses) result ≡ header_head self.now }
        ensures fits { IsTrue (fits_header self.now) }
        ensures most { length self.now.addresses ≤ 64 }
    {
        let addresses = self.addresses.as_slice();
        let mut out = [0; 280];
        out[..8].copy_from_slice(b"NLHEADER");
        put_u64(&mut out, 8, self.number);
        put_u32(&mut out, 16, self.addresses.len());
        put_u32s(&mut out, 24, addresses);
        out
    }
}

fn read(main: &[u8]) -> Option<HeaderRec>
    requires { length main.now ≡ 4096 }
    ensures value { result ≡ header_of main.now }
    ensures reads { Decodes fits_header is_header header_bytes main.now result }
{
    decode(main)
}

#[tactic(auto, unfolding(crate::specs::Journal::header_of))]
fn decode(main: &[u8]) -> Option<HeaderRec>
    requires { length main.now ≡ 4096 }
    ensures { result ≡ header_of main.now }
{
    let rec = fields(main);
    if rec.is_spelled() && rec.is_in(main) {
        Some(rec)
    } else {
        None
    }
}

#[tactic(auto, unfolding(crate::specs::Journal::header_fields))]
fn fields(main: &[u8]) -> HeaderRec
    requires { length main.now ≡ 4096 }
    ensures { result ≡ header_fields main.now }
{
    let count = u32_from(main, 16).min(64);
    HeaderRec {
        number: u64_from(main, 8),
        addresses: addresses_from(&main[24..], count),
    }
}

fn addresses_from(bytes: &[u8], count: u32) -> AddressList
    requires few { count ≤ 64 }
    requires there { 4 * count ≤ length bytes.now }
    ensures { result ≡ u32s count bytes.now }
{
    let mut addresses = AddressList::new();
    for i in 0..count {
        addresses.push(u32_from(bytes, 4 * i as usize));
    }
    addresses
}

// Whether they rise, and each is 0 or from 67 on.
fn are_home(addresses: &[u32]) -> bool
    ensures { result ≡ are_home_addresses addresses.now }
{
    for i in 0..addresses.len() {
        if !is_next(addresses, i) {
            return false;
        }
    }
    true
}

// Whether the address at i is 0 or from 67 on, and those behind it are above it.
fn is_next(addresses: &[u32], i: usize) -> bool
    requires { i < length addresses.now }
    ensures { result ≡ ((slice_index addresses.now i == 0 || nat_le 67 (slice_index addresses.now i))
        && list_all (λ other. nat_lt (slice_index addresses.now i) other) (drop (i + 1) addresses.now)) }
{
    is_home(addresses[i]) && are_above(addresses[i], &addresses[i + 1..])
}

fn is_home(address: u32) -> bool
    ensures { result ≡ (address == 0 || nat_le 67 address) }
{
    address == 0 || address >= 67
}

fn are_above(address: u32, others: &[u32]) -> bool
    ensures { result ≡ list_all (λ other. nat_lt address other) others.now }
{
    for other in others {
        if *other <= address {
            return false;
        }
    }
    true
}
