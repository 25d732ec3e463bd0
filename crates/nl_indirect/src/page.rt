//! One page of 256 pointers: its slots are read, written and looked through.
ghost use Rattle.std.specs.Prelude.{◌≡◌, ◌≢◌, ◌<◌, ℕ, IsSome, IsTrue, Some, true, false, length};
ghost use Rattle.nl_field.specs.Pointers.{indirect_of, is_none_pointer, is_pointer, pointer_bytes, pointer_of};
ghost use Rattle.nl_meta.specs.SlotLaws.{with_slot};
ghost use Rattle.nl_indirect.specs.Ranges.{HasOther, pointer_in, some_pointer};
ghost use Rattle.nl_indirect.specs.Truncating.{CutsSlots, HasBefore};

use nl_field::{PageBuf, Pointer};

const SLOTS: u32 = 256;

const WIDTH: u32 = 16;

const NONE: Pointer = Pointer { name: 0, stamp: 0 };

// The pointer in a slot of a page that spells pointers.
pub(crate) fn read(page: &PageBuf, slot: u32) -> Option<Pointer>
    requires slot { slot < 256 }
    requires spelled { IsSome (indirect_of page.now.main) }
    ensures { result ≡ some_pointer (pointer_in page.now.main slot) }
{
    some(Pointer::spelled_at(page, WIDTH * slot))
}

pub(crate) fn some(pointer: Pointer) -> Option<Pointer>
    ensures { result ≡ some_pointer pointer }
{
    if pointer.is_none() {
        None
    } else {
        Some(pointer)
    }
}

// Whether a slot other than this one has a pointer.
pub(crate) fn has_other(page: &PageBuf, slot: u32) -> bool
    requires { IsSome (indirect_of page.now.main) }
    ensures some { result ≡ true → HasOther page.now.main slot }
    ensures none { result ≡ false → (i : ℕ) → i < 256 → i ≢ slot → is_none_pointer (pointer_in page.now.main i) ≡ true }
{
    for i in 0..SLOTS {
        if i != slot && has_pointer(page, i) {
            return true;
        }
    }
    false
}

// Whether a slot before this one has a pointer.
pub(crate) fn has_before(page: &PageBuf, slot: u32) -> bool
    requires slot { slot < 256 }
    requires spelled { IsSome (indirect_of page.now.main) }
    ensures some { result ≡ true → HasBefore page.now.main slot }
    ensures none { result ≡ false → (i : ℕ) → i < slot → is_none_pointer (pointer_in page.now.main i) ≡ true }
{
    for i in 0..slot {
        if has_pointer(page, i) {
            return true;
        }
    }
    false
}

fn has_pointer(page: &PageBuf, slot: u32) -> bool
    requires slot { slot < 256 }
    requires spelled { IsSome (indirect_of page.now.main) }
    ensures some { result ≡ true → is_none_pointer (pointer_in page.now.main slot) ≡ false }
    ensures none { result ≡ false → is_none_pointer (pointer_in page.now.main slot) ≡ true }
{
    match read(page, slot) {
        Some(_) => true,
        None => false,
    }
}

// Writes a pointer into a slot of a page.
pub(crate) fn write(page: &mut PageBuf, slot: u32, pointer: &Pointer)
    requires slot { slot < 256 }
    requires spelled { IsTrue (is_pointer pointer.now) }
    ensures main { page.new.main ≡ with_slot 16 slot (pointer_bytes pointer.now) page.old.main }
    ensures whole { length page.old.main ≡ 4096 }
    ensures back { pointer_of (pointer_bytes pointer.now) ≡ Some pointer.now }
{
    let _before = page.main().len();
    pointer.into_page(page, WIDTH * slot);
}

// The slots of a page from one on have no pointer.
pub(crate) fn clear_from(page: &mut PageBuf, slot: u32)
    requires slot { slot < 256 }
    requires whole { length page.old.main ≡ 4096 }
    ensures { CutsSlots slot page.old.main page.new.main }
{
    for i in slot..SLOTS {
        write(page, i, &NONE);
    }
}
