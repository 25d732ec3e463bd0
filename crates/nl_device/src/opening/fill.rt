// The page that each address takes.
ghost use Rattle.std.specs.Prelude.{◌≡◌, ◌<◌, ◌^◌, ℕ, length, slice_index_or, slice_set, option_map, replicate, All, None, true, IfOk, IfSome};
ghost use Rattle.nl_field.specs.Space.{is_outside};
ghost use Rattle.nl_device.specs.Opening.{CanLoadAddress, IsLoaded, Tabulates, with_offers, pick_of, place_on, with_pick};
ghost use Rattle.nl_device.specs.declared.opening.own.Own.{Own as OwnOf};
ghost use Rattle.nl_vseg.specs.Places.{place_of};
ghost use Rattle.nl_vseg.specs.Segment.{SameSize, is_taken_as_erased};

use crate::opening::own::Own;
use nl_field::Memory;
use nl_vseg::VSeg;
use std::alloc::Global;

fn is_outside(pages: u32, spare: Option<u32>, page: u32) -> bool
    requires { 0 < pages }
    ensures { result ≡ is_outside pages spare page }
{
    match spare {
        Some(block) => page / pages != block,
        None => true,
    }
}

/// The address of the page takes it, where it is outside the block and the address has none.
fn take(picks: &mut Vec<Option<Own>>, own: &Own, pages: u32, spare: Option<u32>)
    requires some { 0 < pages }
    requires below { own.now.vaddr < length picks.old.items }
    ensures { picks.new.items
        ≡ slice_set picks.old.items own.now.vaddr (with_pick pages spare (slice_index_or picks.old.items own.now.vaddr None) own.now) }
{
    let at = own.vaddr as usize;
    if picks[at].is_none() && is_outside(pages, spare, own.page) {
        picks[at] = Some(*own);
    }
}

/// Each address that has no page takes the first one outside the block, or the first one.
fn fill(picks: &mut Vec<Option<Own>>, needed: &Vec<Own>, pages: u32, spare: Option<u32>)
    requires some { 0 < pages }
    requires below { All (λ (o : OwnOf). o.vaddr < length picks.old.items) needed.now.items }
    ensures { Tabulates (length picks.old.items) None
        (λ v. with_offers pages spare needed.now.items (slice_index_or picks.old.items v None) v) picks.new.items }
{
    for own in needed {
        take(picks, own, pages, spare);
    }
}

fn no_picks(alloc: Global, count: u32) -> Result<Vec<Option<Own>>, Memory>
    ensures { IfOk result (λ v. v.items ≡ replicate count None) }
{
    Ok(vec![in alloc; None; count as usize]?)
}

/// Each address takes the first of these pages outside the spare block, else the first.
pub fn picks(
    alloc: Global,
    needed: &Vec<Own>,
    pages: u32,
    spare: Option<u32>,
    count: u32,
) -> Result<Vec<Option<Own>>, Memory>
    requires some { 0 < pages }
    requires below { All (λ (o : OwnOf). o.vaddr < count) needed.now.items }
    ensures { IfOk result (λ p. Tabulates count None (pick_of pages spare needed.now.items) p.items) }
{
    let mut picks = no_picks(alloc, count)?;
    fill(&mut picks, needed, pages, spare);
    fill(&mut picks, needed, pages, None);
    Ok(picks)
}

fn load_one(vseg: &mut VSeg, pick: Option<Own>, vaddr: u32)
    requires unmapped { place_of vseg.old.places vaddr ≡ None }
    requires below { vaddr < length vseg.old.places }
    requires pick { IfSome pick (CanLoadAddress vseg.old.bound vaddr) }
    ensures { IsLoaded vaddr pick vseg.old vseg.new }
{
    if let Some(own) = pick {
        vseg.load(own.page, vaddr, own.stamp);
    }
}

/// Gives each address its page.
pub fn load(vseg: &mut VSeg, picks: &Vec<Option<Own>>)
    requires count { length vseg.old.places ≡ length picks.now.items }
    requires few { length picks.now.items < 2 ^ 32 }
    requires unmapped { (v : ℕ) → place_of vseg.old.places v ≡ None }
    requires picks { (v : ℕ) → IfSome (slice_index_or picks.now.items v None) (CanLoadAddress vseg.old.bound v) }
    ensures places { (v : ℕ) → place_of vseg.new.places v ≡ option_map place_on (slice_index_or picks.now.items v None) }
    ensures numbers { SameSize vseg.old vseg.new }
    ensures blank { (p : ℕ) → is_taken_as_erased vseg.new p ≡ true → is_taken_as_erased vseg.old p ≡ true }
{
    for vaddr in 0..picks.len() {
        load_one(vseg, picks[vaddr], vaddr as u32);
    }
}
