// The blocks whose pages do not all read as erased, and how often they were erased.
ghost use Rattle.std.specs.Prelude.{◌≡◌, ◌*◌, ◌/◌, ◌<◌, ◌≤◌, ℕ, length, max, slice_index_or, slice_set, true, All, IfOk, None};
ghost use Rattle.nl_field.specs.SpareRecord.{wear_of};
ghost use Rattle.nl_field.specs.declared.seen.Seen.{Seen as SeenOf};
ghost use Rattle.nl_device.specs.Opening.{IsSoiled, SaysErased, Tabulates, wear_in};
ghost use Rattle.nl_pseg.specs.Segment.{IsClean, IsNextCopy, KeepsBlock, TakenAsErased};
ghost use Rattle.nl_pseg.specs.Space.{IsWhole};
ghost use Rattle.nl_vseg.specs.Segment.{SameSize, is_taken_as_erased};

use nl_field::{Memory, SpareRec};
use nl_pseg::PSeg;
use nl_scan::{ScanTables, Seen};
use nl_vseg::VSeg;
use std::alloc::Global;

fn wear_on(rec: &SpareRec) -> u32
    ensures { result ≡ wear_of rec.now }
{
    match *rec {
        SpareRec::Virtual { wear, .. } => wear,
        SpareRec::Physical { wear, .. } => wear,
    }
}

fn raise(wears: &mut Vec<u32>, block: u32, wear: u32)
    requires { block < length wears.old.items }
    ensures { wears.new.items ≡ slice_set wears.old.items block (max (slice_index_or wears.old.items block 0) wear) }
{
    let at = block as usize;
    wears[at] = wears[at].max(wear);
}

/// The greatest wear on the readable pages of each block, 0 where it has none.
pub fn wears(alloc: Global, tables: &ScanTables, pages: u32, count: u32) -> Result<Vec<u32>, Memory>
    requires some { 0 < pages }
    requires below { All (λ (s : SeenOf). s.page < count * pages) tables.now.seen }
    ensures { IfOk result (λ w. Tabulates count 0 (wear_in pages tables.now.seen) w.items) }
{
    let mut wears = vec![in alloc; 0; count as usize]?;
    for at in 0..tables.len() {
        let seen = tables.get(at);
        raise(&mut wears, seen.page / pages, wear_on(&seen.rec));
    }
    Ok(wears)
}

/// Tells the virtual segment its blocks that do not read as erased.
pub fn soil_virtual(vseg: &mut VSeg, tables: &ScanTables, wears: &Vec<u32>, count: u32)
    requires count { count ≤ length wears.now.items }
    requires bound { vseg.old.bound ≡ count * vseg.old.pages }
    ensures places { vseg.new.places ≡ vseg.old.places }
    ensures numbers { SameSize vseg.old vseg.new }
    ensures blank { (p : ℕ) → is_taken_as_erased vseg.new p ≡ true
        → (is_taken_as_erased vseg.old p ≡ true) × (p / vseg.old.pages < count → SaysErased tables.now (p / vseg.old.pages)) }
{
    for block in 0..count {
        if !tables.erased(block) {
            vseg.soiled(block, wears[block as usize]);
        }
    }
}

// Tells the segment of one block that it does not read as erased, where that is so.
fn soil_one(pseg: &mut PSeg, block: u32, is_erased: bool, wear: u32)
    requires none { pseg.old.victim ≡ None }
    requires from { pseg.old.first ≤ block }
    requires below { block < pseg.old.blocks }
    ensures same { IsSoiled pseg.old pseg.new }
    ensures erased { (p : ℕ) → TakenAsErased pseg.new p → TakenAsErased pseg.old p × (p / pseg.old.size ≡ block → is_erased ≡ true) }
    ensures skipped { is_erased ≡ true → pseg.new ≡ pseg.old }
    ensures kept { KeepsBlock pseg.old → KeepsBlock pseg.new }
    ensures whole { IsWhole pseg.old → IsWhole pseg.new }
    ensures none { pseg.new.victim ≡ None }
    ensures copies { (p : ℕ) → IsNextCopy pseg.new p → IsNextCopy pseg.old p }
{
    if !is_erased {
        pseg.soiled(block, wear);
    }
}

/// Tells the physical segment its blocks that do not read as erased.
pub fn soil_physical(pseg: &mut PSeg, tables: &ScanTables, wears: &Vec<u32>, first: u32, end: u32)
    requires first { pseg.old.first ≡ first }
    requires end { pseg.old.blocks ≡ end }
    requires order { first ≤ end }
    requires count { end ≤ length wears.now.items }
    requires clean { IsClean pseg.old }
    requires kept { KeepsBlock pseg.old }
    requires whole { IsWhole pseg.old }
    requires none { pseg.old.victim ≡ None }
    ensures same { IsSoiled pseg.old pseg.new }
    ensures erased { (p : ℕ) → TakenAsErased pseg.new p
        → TakenAsErased pseg.old p × (first ≤ p / pseg.old.size → p / pseg.old.size < end → SaysErased tables.now (p / pseg.old.size)) }
    ensures clean { ((block : ℕ) → first ≤ block → block < end → SaysErased tables.now block) → IsClean pseg.new }
    ensures kept { KeepsBlock pseg.new }
    ensures whole { IsWhole pseg.new }
    ensures none { pseg.new.victim ≡ None }
    ensures copies { (p : ℕ) → IsNextCopy pseg.new p → IsNextCopy pseg.old p }
{
    for block in first..end {
        soil_one(pseg, block, tables.erased(block), wears[block as usize]);
    }
}
