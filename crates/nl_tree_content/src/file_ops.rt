//! Reading, writing and cutting a file.
ghost use Rattle.std.specs.Prelude.{◌≡◌, ◌<◌, ◌≤◌, ◌+◌, ◌*◌, ◌++◌, length, max, ◌⊎◌, map, filter, fold, nat_lt, replicate, IfSome, IfOk, OnOk};
ghost use Rattle.std.specs.Int.{div_ceil};
ghost use Rattle.std.specs.List.{range_with_len};
ghost use Rattle.std.specs.Option.{option_copied};
ghost use Rattle.std.specs.Ordering.{nat_cmp};
ghost use Rattle.std.specs.FinMap.{find as value_at, put as with_entry};
ghost use Rattle.nl_field.specs.Bytes.{zeros};
ghost use Rattle.nl_field.specs.Numbers.{max_bytes, max_file_size};
ghost use Rattle.nl_field.specs.FileContent.{byte_of, bytes_read, overlaid, page_bytes, touched, written_over, cut_to};
ghost use Rattle.nl_tree_content.specs.Pages.{AreWhole, cut_entry};

use crate::ReplyBuf;
use crate::file_buf::{FileBuf, Page};
use crate::pages::{copy, find, min_of, overlay, push_cut, put};
use crate::shared_page::SharedPage;
use nl_field::Memory;
use std::alloc::Global;

/// Adds the bytes from an offset on, at most this many, ending at the size.
#[tactic(auto, unfolding(nl_field::specs::FileContent::bytes_read))]
pub fn read(file: &FileBuf, from: u64, len: u32, out: &mut ReplyBuf)
    requires { length out.old + len ≤ max_bytes }
    ensures { out.new ≡ out.old ++ bytes_read file.now from len }
{
    let count = min_of(len as u64, file.size().saturating_sub(from));
    let mut done = 0u64;
    'parts: while done < count {
        let index = (from + done) / 4096;
        let start = (from + done) % 4096;
        let part = min_of(4096 - start, count - done);
        push_part(file, index as u32, start as usize, part as usize, out);
        done += part;
    }
}

/// The page of an index.
fn page_of(file: &FileBuf, index: u32) -> Option<&SharedPage>
    ensures page { option_copied result ≡ value_at nat_cmp index file.now.pages }
    ensures whole { IfSome result (λ p. length p.now ≡ 4096) }
{
    find(file.pages(), index)
}

/// The pages of the file once more, shared with it.
fn copy_of(alloc: Global, file: &FileBuf) -> Result<Vec<Page>, Memory>
    ensures pages { IfOk result (λ v. v.items ≡ file.now.pages) }
    ensures whole { IfOk result (λ v. AreWhole v.items) }
{
    let pages = copy(alloc, file.pages())?;
    Ok(pages)
}

/// Adds the bytes of a part of a page.
fn push_part(file: &FileBuf, index: u32, start: usize, count: usize, out: &mut ReplyBuf)
    requires room { length out.old + count ≤ max_bytes }
    requires part { start + count ≤ 4096 }
    ensures { out.new ≡ out.old ++ map (byte_of file.now) (range_with_len (4096 * index + start) count) }
{
    match page_of(file, index) {
        Some(page) => out.extend(&page.bytes()[start..start + count]),
        None => push_zeros(out, count),
    }
}

fn push_zeros(out: &mut ReplyBuf, count: usize)
    requires { length out.old + count ≤ max_bytes }
    ensures { out.new ≡ out.old ++ replicate count 0 }
{
    'zeros: for at in 0..count {
        let _ = at;
        out.push(0);
    }
}

/// The file after a write of these bytes at an offset.
pub fn written(alloc: Global, file: &FileBuf, from: u64, bytes: &[u8]) -> Result<FileBuf, Memory>
    requires small { length bytes.now ≤ max_bytes }
    requires end { 0 < length bytes.now → from + length bytes.now ≤ max_file_size }
    ensures { IfOk result (λ f. f ≡ written_over file.now from bytes.now) }
{
    let pages = copy_of(alloc, file)?;
    if bytes.is_empty() {
        return Ok(FileBuf::of(file.size(), pages));
    }
    written_some(alloc, file, from, bytes, pages)
}

fn written_some(
    alloc: Global,
    file: &FileBuf,
    from: u64,
    bytes: &[u8],
    pages: Vec<Page>,
) -> Result<FileBuf, Memory>
    requires same { pages.items ≡ file.now.pages }
    requires whole { AreWhole pages.items }
    requires some { 0 < length bytes.now }
    requires small { length bytes.now ≤ max_bytes }
    requires end { from + length bytes.now ≤ max_file_size }
    ensures { IfOk result (λ f. f ≡ written_over file.now from bytes.now) }
{
    let end = from + bytes.len() as u64;
    let size = max_of(file.size(), end);
    let mut pages = pages;
    put_touched(alloc, &mut pages, file, from, bytes)?;
    Ok(FileBuf::of(size, pages))
}

/// Puts each touched page.
fn put_touched(
    alloc: Global,
    pages: &mut Vec<Page>,
    file: &FileBuf,
    from: u64,
    bytes: &[u8],
) -> Result<(), Memory>
    requires whole { AreWhole pages.old.items }
    requires some { 0 < length bytes.now }
    requires small { length bytes.now ≤ max_bytes }
    requires end { from + length bytes.now ≤ max_file_size }
    ensures pages { OnOk result (pages.new.items
        ≡ fold (λ pages index. with_entry nat_cmp index
        (overlaid (page_bytes file.now index) index from bytes.now) pages) pages.old.items (touched from (length bytes.now))) }
    ensures whole { OnOk result (AreWhole pages.new.items) }
{
    let first = (from / 4096) as u32;
    let end = ((from + bytes.len() as u64 - 1) / 4096 + 1) as u32;
    'pages: for index in first..end {
        put_overlaid(alloc, pages, file, index, from, bytes)?;
    }
    Ok(())
}

fn put_overlaid(
    alloc: Global,
    pages: &mut Vec<Page>,
    file: &FileBuf,
    index: u32,
    from: u64,
    bytes: &[u8],
) -> Result<(), Memory>
    requires whole { AreWhole pages.old.items }
    requires small { length bytes.now ≤ max_bytes }
    ensures pages { OnOk result (pages.new.items
        ≡ with_entry nat_cmp index (overlaid (page_bytes file.now index) index from bytes.now) pages.old.items) }
    ensures whole { OnOk result (AreWhole pages.new.items) }
{
    let page = overlaid_page(alloc, file, index, from, bytes)?;
    put(pages, index, page)?;
    Ok(())
}

#[tactic(auto, unfolding(nl_field::specs::FileContent::page_bytes))]
fn overlaid_page(
    alloc: Global,
    file: &FileBuf,
    index: u32,
    from: u64,
    bytes: &[u8],
) -> Result<SharedPage, Memory>
    requires { length bytes.now ≤ max_bytes }
    ensures page { IfOk result (λ p. p ≡ overlaid (page_bytes file.now index) index from bytes.now) }
    ensures whole { IfOk result (λ p. length p ≡ 4096) }
{
    match page_of(file, index) {
        Some(page) => overlay(alloc, page.bytes(), index, from, bytes),
        None => {
            let blank = blank(alloc, 4096)?;
            overlay(alloc, &blank, index, from, bytes)
        }
    }
}

#[tactic(auto, unfolding(nl_field::specs::Bytes::zeros))]
fn blank(alloc: Global, count: usize) -> Result<Vec<u8>, Memory>
    ensures zeros { IfOk result (λ v. v.items ≡ zeros count) }
    ensures len { IfOk result (λ v. length v.items ≡ count) }
{
    Ok(vec![in alloc; 0u8; count]?)
}

fn max_of(a: u64, b: u64) -> u64
    ensures value { result ≡ max a b }
    ensures either { (result ≡ a) ⊎ (result ≡ b) }
{
    if a < b { b } else { a }
}

/// The file cut or lengthened to a size.
#[tactic(auto, unfolding(nl_field::specs::FileContent::cut_to))]
pub fn cut(alloc: Global, file: &FileBuf, size: u64) -> Result<FileBuf, Memory>
    requires { size ≤ max_file_size }
    ensures { IfOk result (λ f. f ≡ cut_to file.now size) }
{
    let kept = cut_pages(alloc, file.pages(), size)?;
    Ok(FileBuf::of(size, kept))
}

fn cut_pages(alloc: Global, pages: &[Page], size: u64) -> Result<Vec<Page>, Memory>
    requires { AreWhole pages.now }
    ensures pages { IfOk result (λ v. v.items ≡ map (cut_entry size) (filter (λ page. nat_lt page.0 (div_ceil size 4096)) pages.now)) }
    ensures whole { IfOk result (λ v. AreWhole v.items) }
{
    let mut kept = Vec::with_capacity(alloc, pages.len())?;
    'pages: for page in pages {
        push_cut(alloc, &mut kept, page, size)?;
    }
    Ok(kept)
}
