//! The pages of a file by rising index.
ghost use Rattle.nl_field.specs.Numbers.{max_bytes};
ghost use Rattle.std.specs.Prelude.{◌≡◌, ◌≤◌, ◌<◌, ◌+◌, ◌-◌, ◌*◌, ◌++◌, ◌∷◌, [], length, drop, take, min, nat_lt, if◌then◌else◌, IfSome, IfOk, OnOk};
ghost use Rattle.std.specs.Int.{div_ceil};
ghost use Rattle.std.specs.Option.{option_copied};
ghost use Rattle.std.specs.Ordering.{nat_cmp};
ghost use Rattle.std.specs.FinMap.{find as value_at, put as with_entry};
ghost use Rattle.nl_field.specs.Bytes.{zeros};
ghost use Rattle.nl_field.specs.FileContent.{overlaid};
ghost use Rattle.nl_tree_content.specs.Pages.{AreWhole, cut_entry};
ghost use Rattle.nl_tree_content.specs.Places.{place_in, is_first};

use crate::file_buf::Page;
use crate::shared_page::SharedPage;
use nl_field::Memory;
use std::alloc::Global;
use std::cmp::Ordering;

/// The page of an index.
pub(crate) fn find(pages: &[Page], index: u32) -> Option<&SharedPage>
    requires { AreWhole pages.now }
    ensures page { option_copied result ≡ value_at nat_cmp index pages.now }
    ensures whole { IfSome result (λ p. length p.now ≡ 4096) }
{
    'pages: for page in pages {
        if index.cmp(&page.0) == Ordering::Equal {
            return Some(&page.1);
        }
    }
    None
}

/// Puts a page in its place.
pub(crate) fn put(pages: &mut Vec<Page>, index: u32, bytes: SharedPage) -> Result<(), Memory>
    ensures { OnOk result (pages.new.items ≡ with_entry nat_cmp index bytes pages.old.items) }
{
    let at = place_of(pages, index);
    if is_at(pages, at, index) {
        pages[at].1 = bytes;
    } else {
        pages.insert(at, (index, bytes))?;
    }
    Ok(())
}

/// How many pages stand before an index.
fn place_of(pages: &Vec<Page>, index: u32) -> usize
    ensures { result ≡ place_in nat_cmp index pages.now.items }
{
    let mut at = 0;
    'pages: while at < pages.len() && index.cmp(&pages[at].0) == Ordering::Greater {
        at += 1;
    }
    at
}

/// Whether the page at a position has this index.
fn is_at(pages: &Vec<Page>, at: usize, index: u32) -> bool
    ensures { result ≡ is_first nat_cmp index (drop at pages.now.items) }
{
    at < pages.len() && index.cmp(&pages[at].0) == Ordering::Equal
}

/// A list of the same pages, shared with the first.
pub(crate) fn copy(alloc: Global, pages: &[Page]) -> Result<Vec<Page>, Memory>
    ensures { IfOk result (λ v. v.items ≡ pages.now) }
{
    let mut copied = Vec::with_capacity(alloc, pages.len())?;
    'pages: for page in pages {
        push(&mut copied, page)?;
    }
    Ok(copied)
}

fn push(kept: &mut Vec<Page>, page: &Page) -> Result<(), Memory>
    ensures { OnOk result (kept.new.items ≡ kept.old.items ++ page.now ∷ []) }
{
    let shared = page.1.share()?;
    kept.push((page.0, shared))?;
    Ok(())
}

/// The bytes of a page with those of the data that lie in it laid over them.
#[tactic(auto, unfolding(nl_field::specs::FileContent::overlaid))]
pub(crate) fn overlay(
    alloc: Global,
    page: &[u8],
    index: u32,
    from: u64,
    bytes: &[u8],
) -> Result<SharedPage, Memory>
    requires whole { length page.now ≡ 4096 }
    requires small { length bytes.now ≤ max_bytes }
    ensures page { IfOk result (λ p. p ≡ overlaid page.now index from bytes.now) }
    ensures whole { IfOk result (λ p. length p ≡ 4096) }
{
    let start = 4096 * index as u64;
    let before = min_of(from.saturating_sub(start), 4096) as usize;
    let skipped = min_of(start.saturating_sub(from), bytes.len() as u64) as usize;
    let rest = &bytes[skipped..];
    let piece = &rest[..min_of((4096 - before) as u64, rest.len() as u64) as usize];
    let mut whole = Vec::with_capacity(alloc, 4096)?;
    whole.extend_from_slice(&page[..before])?;
    whole.extend_from_slice(piece)?;
    whole.extend_from_slice(&page[before + piece.len()..])?;
    SharedPage::new(alloc, whole)
}

/// The lesser of two numbers.
pub(crate) fn min_of(a: u64, b: u64) -> u64
    ensures value { result ≡ min a b }
    ensures first { result ≤ a }
    ensures second { result ≤ b }
{
    if a < b { a } else { b }
}

/// What a cut to so many bytes leaves of a page.
fn cut_page(alloc: Global, page: &[u8], len: u64) -> Result<SharedPage, Memory>
    requires { length page.now ≡ 4096 }
    ensures { IfOk result (λ p. p ≡ take len page.now ++ zeros (4096 - min 4096 len)) }
{
    let left = min_of(4096, len) as usize;
    let mut bytes = Vec::with_capacity(alloc, 4096)?;
    bytes.extend_from_slice(&page[..left])?;
    bytes.resize(4096, 0)?;
    SharedPage::new(alloc, bytes)
}

/// Adds what a cut to this size leaves of a page.
pub(crate) fn push_cut(
    alloc: Global,
    kept: &mut Vec<Page>,
    page: &Page,
    size: u64,
) -> Result<(), Memory>
    requires whole { length page.now.1 ≡ 4096 }
    ensures { OnOk result (kept.new.items
        ≡ kept.old.items ++ (if nat_lt page.now.0 (div_ceil size 4096) then cut_entry size page.now ∷ [] else [])) }
{
    if page.0 as u64 >= size.div_ceil(4096) {
        return Ok(());
    }
    let len = size.saturating_sub(4096 * page.0 as u64);
    kept.push((page.0, cut_page(alloc, page.1.bytes(), len)?))?;
    Ok(())
}
