//! Rising lists of virtual addresses: look-up, count, and one address more.
ghost use Rattle.std.specs.Prelude.{◌≡◌, ◌≤◌, ◌+◌, ◌++◌, ◌∷◌, ◌==◌, [], true, length};
ghost use Rattle.std.specs.List.{list_any};
ghost use Rattle.nl_meta.specs.Pages.{above, below, besides_0, first_most, most, touched, with_address};

use nl_field::AddressList;

const MOST: u32 = 63;

/// Whether a list has an address.
pub(crate) fn contains(addresses: &AddressList, vaddr: u32) -> bool
    ensures { result ≡ list_any (λ a. a == vaddr) addresses.now }
{
    has(addresses.as_slice(), vaddr)
}

fn has(addresses: &[u32], vaddr: u32) -> bool
    ensures { result ≡ list_any (λ a. a == vaddr) addresses.now }
{
    addresses.iter().any(|a| *a == vaddr)
}

// How many are not address 0.
pub(crate) fn others(addresses: &AddressList) -> u32
    ensures { result ≡ length (besides_0 addresses.now) }
{
    let mut count = 0;
    for address in addresses.as_slice() {
        if *address != 0 {
            count += 1;
        }
    }
    count
}

// Rising addresses with one more.
pub(crate) fn inserted(addresses: &AddressList, vaddr: u32) -> AddressList
    requires { length (with_address vaddr addresses.now) ≤ 64 }
    ensures { result ≡ with_address vaddr addresses.now }
{
    let mut out = lower(addresses, vaddr);
    out.push(vaddr);
    push_higher(&mut out, addresses, vaddr);
    out
}

// The addresses of a list that lie below an address.
fn lower(addresses: &AddressList, vaddr: u32) -> AddressList
    ensures { result ≡ below vaddr addresses.now }
{
    let mut out = AddressList::new();
    for address in addresses.as_slice() {
        if *address < vaddr {
            out.push(*address);
        }
    }
    out
}

// Adds those above an address.
fn push_higher(out: &mut AddressList, addresses: &AddressList, vaddr: u32)
    requires { length out.old + length (above vaddr addresses.now) ≤ 64 }
    ensures { out.new ≡ out.old ++ above vaddr addresses.now }
{
    for address in addresses.as_slice() {
        if vaddr < *address {
            out.push(*address);
        }
    }
}

// Whether an address was the last one that was touched, and stands nowhere else: touching it changes nothing.
pub(crate) fn is_front(recent: &AddressList, vaddr: u32) -> bool
    ensures { result ≡ true → touched vaddr recent.now ≡ recent.now }
{
    match recent.as_slice().split_first() {
        Some((first, rest)) => {
            if *first != vaddr {
                return false;
            }
            rest.len() < MOST as usize && !has(rest, vaddr)
        }
        None => false,
    }
}

// The addresses that were touched last, once this one is touched.
pub(crate) fn moved_front(recent: &AddressList, vaddr: u32) -> AddressList
    ensures { result ≡ touched vaddr recent.now }
{
    let mut out = AddressList::new();
    out.push(vaddr);
    for address in recent.as_slice() {
        if *address != vaddr {
            push_within(&mut out, *address);
        }
    }
    out
}

// Adds an address to fewer than 63.
fn push_within(out: &mut AddressList, vaddr: u32)
    requires { length out.old ≤ most }
    ensures { out.new ≡ first_most (out.old ++ vaddr ∷ []) }
{
    if out.len() < MOST {
        out.push(vaddr);
    }
}
