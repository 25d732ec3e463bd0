//! One page of 64 entries: its slots are read and compared.
ghost use Rattle.std.specs.Prelude.{◌≡◌, ◌<◌, ◌≤◌, ◌+◌, ◌*◌, ℕ, IfSome, IfNone, IsSome, Some, true, false, if◌then◌else◌, length, bytes_eq, unwrap_or, []};
ghost use Rattle.nl_field.specs.Bytes.{zeros};
ghost use Rattle.nl_field.specs.EntryRecord.{entry_bytes, entry_fields, entry_of};
ghost use Rattle.nl_meta.specs.Nodes.{slot_in};
ghost use Rattle.nl_meta.specs.Pages.{has_room, page_of};
ghost use Rattle.nl_meta.specs.SlotLaws.{with_slot};
ghost use Rattle.nl_dir.specs.Slots.{AdmitsAddress, PutsEntry, PutsSlot};

use nl_field::{EntryRec, PageBuf};
use nl_meta::Meta;

// The entry in a slot that has one.
pub(crate) fn entry_in(page: &PageBuf, slot: u32) -> EntryRec
    requires inside { slot < 64 }
    requires there { IsSome (entry_of (slot_in 64 slot page.now.main)) }
    ensures { entry_of (slot_in 64 slot page.now.main) ≡ Some result }
{
    EntryRec::spelled_at(page, 64 * slot)
}

// The first of so many slots from the front whose entry has the name.
pub(crate) fn slot_named(page: &PageBuf, count: u32, name: &[u8]) -> Option<u32>
    requires { count ≤ 64 }
    ensures below { IfSome result (λ slot. slot < count) }
    ensures some { IfSome result (λ slot. bytes_eq (entry_fields (slot_in 64 slot page.now.main)).name name.now ≡ true) }
    ensures none { IfNone result ((slot : ℕ) → slot < count
        → bytes_eq (entry_fields (slot_in 64 slot page.now.main)).name name.now ≡ false) }
{
    for slot in 0..count {
        if slot_name(page, slot) == name {
            return Some(slot);
        }
    }
    None
}

// The name that the entry in a slot has.
pub(crate) fn slot_name(page: &PageBuf, slot: u32) -> &[u8]
    requires { slot < 64 }
    ensures { result.now ≡ (entry_fields (slot_in 64 slot page.now.main)).name }
{
    let at = 64 * slot as usize;
    name_in(&page.main()[at..at + 64])
}

// The name that 64 bytes of an entry have.
fn name_in(bytes: &[u8]) -> &[u8]
    requires { length bytes.now ≡ 64 }
    ensures { result.now ≡ (entry_fields bytes.now).name }
{
    let len = (bytes[8] as usize).min(55);
    &bytes[9..9 + len]
}

// The 64 bytes of a slot.
pub(crate) fn bytes_in(page: &PageBuf, slot: u32) -> [u8; 64]
    requires { slot < 64 }
    ensures value { result ≡ slot_in 64 slot page.now.main }
    ensures width { length result ≡ 64 }
{
    let at = 64 * slot as usize;
    let mut out = [0; 64];
    out.copy_from_slice(&page.main()[at..at + 64]);
    out
}

// Puts 64 bytes into a slot of a resident page.
pub(crate) fn put_bytes(meta: &mut Meta, vaddr: u32, slot: u32, bytes: &[u8; 64])
    requires there { IsSome (page_of meta.old vaddr) }
    requires inside { slot < 64 }
    requires room { has_room meta.old vaddr ≡ true }
    ensures { PutsSlot vaddr slot bytes.now meta.old meta.new }
{
    match meta.page_mut(vaddr) {
        Some(page) => write_bytes(page, slot, bytes),
        None => unreachable!(),
    }
}

fn write_bytes(page: &mut PageBuf, slot: u32, bytes: &[u8; 64])
    requires { slot < 64 }
    ensures main { page.new.main ≡ with_slot 64 slot bytes.now page.old.main }
    ensures whole { length page.old.main ≡ 4096 }
{
    let _before = page.main().len();
    page.set_main(64 * slot as usize, bytes);
}

// Puts an entry into a slot of a resident page, which is a new one and has zeros besides, or keeps its other slots.
pub(crate) fn put_entry(meta: &mut Meta, vaddr: u32, slot: u32, entry: &EntryRec, is_new: bool)
    requires there { IsSome (page_of meta.old vaddr) }
    requires inside { slot < 64 }
    requires room { has_room meta.old vaddr ≡ true }
    ensures { PutsEntry vaddr slot entry.now is_new meta.old meta.new }
{
    match meta.page_mut(vaddr) {
        Some(page) => write_entry(page, slot, entry, is_new),
        None => unreachable!(),
    }
}

fn write_entry(page: &mut PageBuf, slot: u32, entry: &EntryRec, is_new: bool)
    requires { slot < 64 }
    ensures main { page.new.main ≡ with_slot 64 slot (entry_bytes entry.now) (if is_new then zeros 4096 else page.old.main) }
    ensures whole { length page.old.main ≡ 4096 }
    ensures width { length (entry_bytes entry.now) ≡ 64 }
    ensures back { entry_of (entry_bytes entry.now) ≡ Some entry.now }
{
    let _before = page.main().len();
    if is_new {
        page.clear();
    }
    write_over(page, slot, entry);
}

fn write_over(page: &mut PageBuf, slot: u32, entry: &EntryRec)
    requires { slot < 64 }
    ensures main { page.new.main ≡ with_slot 64 slot (entry_bytes entry.now) page.old.main }
    ensures width { length (entry_bytes entry.now) ≡ 64 }
    ensures back { entry_of (entry_bytes entry.now) ≡ Some entry.now }
{
    let _before = page.main().len();
    entry.into_page(page, 64 * slot);
    let _after = page.main().len();
}

// The page of an address is resident, whatever it has, and touched.
pub(crate) fn hold(meta: &mut Meta, vaddr: u32)
    requires { vaddr < length meta.old.running }
    ensures { AdmitsAddress vaddr meta.old meta.new }
{
    if meta.resident(vaddr) {
        meta.touch(vaddr);
    } else {
        let _page = meta.admit(vaddr);
    }
}
