// Copies the pages of one block that addresses have.
ghost use Rattle.std.specs.Prelude.{◌≡◌, ℕ, ◌+◌, ◌*◌, ◌/◌, ◌<◌, List, Option, length, replicate, None, Some, IsTrue};
ghost use Rattle.nl_field.specs.CrashStates.{LeavesOnly};
ghost use Rattle.nl_field.specs.Page.{Image, page_at};
ghost use Rattle.nl_field.specs.Spelling.{is_stamp};
ghost use Rattle.nl_nand.specs.Nand.{CanProgram, Cut, Filled};
ghost use Rattle.nl_vseg.specs.Pages.{fact_of, main_of};
ghost use Rattle.nl_vseg.specs.Places.{IsUnmapped, place_of, stamp_in_place};
ghost use Rattle.nl_vseg.specs.Used.{used_of};
ghost use Rattle.nl_vseg.specs.Copies.{CanCopy, ChangesIn, CopiesTo, HasCopiedPlace, MarksCopy, MovesPlace, UsesMore};
ghost use Rattle.nl_vseg.specs.Copying.{copy_of, target_at, AreMoved, AreTargets, ChangedIn, HasHole, IsAt, LeavesHole};
ghost use Rattle.nl_vseg.specs.Effects.{CallIsCounted};
ghost use Rattle.nl_vseg.specs.Answers.{IsLostWrite};
ghost use Rattle.nl_vseg.specs.Operations.{Operates, snapshot, wear_in};
ghost use Rattle.nl_vseg.specs.declared.place.Place.{Place as PlaceOf};

use crate::pages::{program_page, read_page};
use crate::place::Place;
use crate::used::use_next;
use nl_blocks::Blocks;
use nl_field::{PageBuf, VirtualRead, VirtualWrite};
use nl_nand::{Nand, WriteAnswer};

/// Copies the page of an address to another page.
fn copy_page<M: Nand>(
    media: &mut M,
    buf: &mut PageBuf,
    vaddr: u32,
    place: Place,
    to: u32,
    wear: u32,
) -> VirtualWrite
    requires within { place.page < (M.geometry media.old).blocks * (M.geometry media.old).pages }
    requires to { to < (M.geometry media.old).blocks * (M.geometry media.old).pages }
    requires spelled { IsTrue (is_stamp place.stamp) }
    requires shows { M.tells → fact_of (page_at (M.contents media.old) place.page)
        ≡ Some (vaddr, place.stamp, main_of (page_at (M.contents media.old) place.page)) }
    requires erased { M.tells → CanProgram (M.contents media.old) to }
    ensures filled { M.tells → result ≡ VirtualWrite.Done
        → Filled to (to + 1) (copy_of (page_at (M.contents media.old) place.page) vaddr place.stamp wear) (M.contents media.old)
        (M.contents media.new) }
    ensures cut { M.tells → Cut to (to + 1) (copy_of (page_at (M.contents media.old) place.page) vaddr place.stamp wear)
        (M.contents media.old) (M.contents media.new) }
    ensures crash { M.tells → LeavesOnly M.clock M.left media.old media.new
        (λ m c. Cut to (to + 1) (copy_of (page_at (M.contents media.old) place.page) vaddr place.stamp wear) (M.contents media.old) c) }
    ensures copied { M.tells → fact_of (copy_of (page_at (M.contents media.old) place.page) vaddr place.stamp wear)
        ≡ fact_of (page_at (M.contents media.old) place.page) }
    ensures lost { (w f : ℕ) → result ≡ VirtualWrite.Lost w f → (w ≡ place.stamp) × (f ≡ place.stamp → ⊥) }
    ensures kept { M.tells → IsLostWrite result → ⊥ }
    ensures operates { (pages : ℕ) (wears : List ℕ) → wear_in wears (to / pages) ≡ wear
        → Operates M.tells pages (snapshot wears (M.clock media.old) (M.contents media.old))
        (snapshot wears (M.clock media.new) (M.contents media.new)) }
    ensures geometry { M.geometry media.new ≡ M.geometry media.old }
    ensures counts { CallIsCounted M.clock M.read_faults M.write_faults media.old media.new (result ≡ VirtualWrite.Fault) }
{
    match read_page(media, place.page, place.stamp, buf) {
        VirtualRead::Done => {}
        VirtualRead::Lost { wanted, found } => return VirtualWrite::Lost { wanted, found },
        VirtualRead::Fault => return VirtualWrite::Fault,
        VirtualRead::Unmapped => unreachable!(),
    }
    match program_page(media, to, buf, vaddr, place.stamp, wear) {
        WriteAnswer::Done => VirtualWrite::Done,
        WriteAnswer::Failed => VirtualWrite::Fault,
    }
}

/// Copies the page of an address to the next page of the target, where it is in the victim and was not copied yet. The address
/// then has the copy.
fn copy_one<M: Nand>(
    media: &mut M,
    buf: &mut PageBuf,
    copies: &mut Vec<Option<Place>>,
    targets: &mut Vec<Option<u32>>,
    v: usize,
    victim: u32,
    pages: u32,
    target: u32,
    wear: u32,
    blocks: &mut Blocks,
) -> VirtualWrite
    requires can { CanCopy M.Nand pages victim target copies.old.items blocks.old media.old }
    requires vaddr { v < length copies.old.items }
    requires targets { AreTargets pages target (used_of blocks.old target) targets.old.items }
    requires hole { LeavesHole pages victim (place_of copies.old.items v) targets.old.items }
    requires fresh { M.tells → (at page : ℕ) → target_at targets.old.items at ≡ Some page
        → IsAt pages victim at (place_of copies.old.items v) → ⊥ }
    ensures used { UsesMore pages target blocks.old blocks.new }
    ensures done { result ≡ VirtualWrite.Done
        → HasCopiedPlace M.Nand pages victim target copies.old.items copies.new.items blocks.new media.old media.new }
    ensures places { MovesPlace pages victim target (used_of blocks.new target) v
        (result ≡ VirtualWrite.Done) copies.old.items copies.new.items }
    ensures targets { MarksCopy pages victim target (used_of blocks.new target) (place_of copies.old.items v)
        (result ≡ VirtualWrite.Done) targets.old.items targets.new.items }
    ensures changed { M.tells → (first : List (Option PlaceOf)) (image : Image) → place_of first v ≡ place_of copies.old.items v
        → IsUnmapped pages first target → ChangedIn pages target first image (M.contents media.old)
        → ChangesIn M.Nand pages target first image media.old media.new }
    ensures lost { (w f : ℕ) → result ≡ VirtualWrite.Lost w f → (stamp_in_place (place_of copies.old.items v) ≡ Some w) × (f ≡ w → ⊥) }
    ensures medium { CopiesTo M.Nand pages target wear result media.old media.new }
{
    let Some(place) = copies[v] else {
        return VirtualWrite::Done;
    };
    if place.page / pages != victim {
        return VirtualWrite::Done;
    }
    let at = (place.page % pages) as usize;
    if let Some(page) = targets[at] {
        copies[v] = Some(Place {
            page,
            stamp: place.stamp,
        });
        return VirtualWrite::Done;
    }
    let to = use_next(blocks, target);
    match copy_page(media, buf, v as u32, place, to, wear) {
        VirtualWrite::Lost { wanted, found } => VirtualWrite::Lost { wanted, found },
        VirtualWrite::Fault => VirtualWrite::Fault,
        VirtualWrite::Done => {
            targets[at] = Some(to);
            copies[v] = Some(Place {
                page: to,
                stamp: place.stamp,
            });
            VirtualWrite::Done
        }
    }
}

/// No page of the victim was copied yet.
pub fn clear(targets: &mut Vec<Option<u32>>)
    ensures { targets.new.items ≡ replicate (length targets.old.items) None }
{
    targets.fill(None);
}

/// Copies each page of the victim that an address has to the next page of the target, once where two addresses have it. The
/// map of copies then has those.
pub fn copy_block<M: Nand>(
    media: &mut M,
    buf: &mut PageBuf,
    copies: &mut Vec<Option<Place>>,
    targets: &mut Vec<Option<u32>>,
    victim: u32,
    pages: u32,
    target: u32,
    wear: u32,
    blocks: &mut Blocks,
) -> VirtualWrite
    requires can { CanCopy M.Nand pages victim target copies.old.items blocks.old media.old }
    requires unmapped { IsUnmapped pages copies.old.items target }
    requires begins { used_of blocks.old target ≡ 0 }
    requires targets { targets.old.items ≡ replicate pages None }
    requires hole { HasHole pages victim copies.old.items }
    ensures used { UsesMore pages target blocks.old blocks.new }
    ensures done { result ≡ VirtualWrite.Done
        → HasCopiedPlace M.Nand pages victim target copies.old.items copies.new.items blocks.new media.old media.new }
    ensures moved { result ≡ VirtualWrite.Done
        → AreMoved pages victim target (used_of blocks.new target) copies.old.items copies.new.items }
    ensures count { length copies.new.items ≡ length copies.old.items }
    ensures size { length targets.new.items ≡ length targets.old.items }
    ensures changed { M.tells → ChangesIn M.Nand pages target copies.old.items (M.contents media.old) media.old media.new }
    ensures lost { (w f : ℕ) → result ≡ VirtualWrite.Lost w f
        → ((v : ℕ) × (stamp_in_place (place_of copies.old.items v) ≡ Some w)) × (f ≡ w → ⊥) }
    ensures medium { CopiesTo M.Nand pages target wear result media.old media.new }
{
    for v in 0..copies.len() {
        match copy_one(
            media, buf, copies, targets, v, victim, pages, target, wear, blocks,
        ) {
            VirtualWrite::Done => {}
            VirtualWrite::Lost { wanted, found } => {
                return VirtualWrite::Lost { wanted, found };
            }
            VirtualWrite::Fault => return VirtualWrite::Fault,
        }
    }
    VirtualWrite::Done
}
