// One file of node 1 over a device, page by page.
ghost use Rattle.std.specs.Prelude.{◌≡◌, ◌<◌, ◌≤◌, ◌+◌, ℕ, Some, IfSome, IsTrue, length};
ghost use Rattle.nl_field.specs.Spelling.{is_stamp};
ghost use Rattle.nl_field.specs.declared.pointer.Pointer.{Pointer as PointerOf};
ghost use Rattle.nl_files.specs.Installing.{HasFree};
ghost use Rattle.nl_files.specs.Standing.{tag_of};
ghost use Rattle.nl_iface.specs.Holders.{IsRef, always, wants_tagged};
ghost use Rattle.nl_indirect.specs.Storing.{BeginsRange};
ghost use Rattle.nl_test_namespace.specs.Files.{HasFile};

use crate::device::Stamps;
use nl_field::{InodeRec, Kind, Named, PageBuf, Pointer, PointerList, Tag};
use nl_files::{CountPages, FileAnswer, count_pages, cut, install, prepare, read};
use nl_indirect::page_address;
use nl_inode::{Nodes, taken};
use nl_meta::Meta;

/// What is done to a file.
#[derive(Clone, Copy)]
pub enum Step {
    /// The page of an index has these bytes from an offset on, and zeros else.
    Page(u32, usize, &'static [u8]),
    /// So many pages from an index on are of one byte.
    Fill(u32, u32, u8),
    /// So many pages are of one byte: the first one behind those of the node, and of each range of 256 pages the first one.
    Spread(u32, u8),
    /// The file has this size. The page in which it ends stays.
    Size(u64),
    /// The file has this size, and the page in which it ends begins with these bytes, and has zeros else.
    Cut(u64, &'static [u8]),
    /// The entries of a directory take an address of the pool.
    Entries,
    /// The file stays as it is, and the next one begins.
    Next,
    /// The page that has the pointer of an index would be a new one, for which no address is free.
    NoPlace(u32),
}

// Programs a page of the file.
fn program<D: Stamps>(
    device: &mut D,
    meta: &Meta,
    nodes: &Nodes,
    rec: &InodeRec,
    index: u32,
    page: &PageBuf,
) -> Option<Pointer>
    requires formed { D.formed device.old }
    requires file { HasFile D.Counts device.old meta.now nodes.now rec.now }
    ensures formed { D.formed device.new }
    ensures file { HasFile D.Counts device.new meta.now nodes.now rec.now }
    ensures leads { IfSome result (λ to. IsRef (D.names device.new) always (wants_tagged (tag_of 1 rec.now index, to)) to.name) }
    ensures stamp { IfSome result (λ to. IsTrue (is_stamp to.stamp)) }
{
    let _pages = meta;
    let _free = nodes;
    let stamp = device.stamp();
    if stamp == 0 || stamp > 1_000_000 {
        return None;
    }
    let tag = Tag {
        ino: 1,
        generation: rec.generation,
        index,
    };
    match device.nameless_write(tag, page) {
        Named::Placed(to) => Some(to),
        Named::NotLive => None,
        Named::NoPage => None,
        Named::Fault => None,
    }
}

// Whether the page that has the pointer of an index is in memory.
fn ready<D: Stamps>(
    device: &mut D,
    meta: &mut Meta,
    nodes: &Nodes,
    rec: &InodeRec,
    index: u32,
) -> bool
    requires formed { D.formed device.old }
    requires within { index < 4104 }
    requires file { HasFile D.Counts device.old meta.old nodes.now rec.now }
    ensures formed { D.formed device.new }
    ensures file { HasFile D.Counts device.new meta.new nodes.now rec.now }
{
    let _free = nodes;
    match prepare(device, meta, rec, index, index) {
        FileAnswer::Done => true,
        FileAnswer::Fault => false,
        FileAnswer::Lost { .. } => false,
    }
}

// Whether a new page of pointers has an address, where the range of an index has none.
fn has_place(nodes: &mut Nodes, rec: &InodeRec, index: u32) -> bool
    requires within { index < 4104 }
    ensures place { IsTrue result → (to : PointerOf) → BeginsRange rec.now index (Some to) → HasFree nodes.old }
    ensures same { nodes.new ≡ nodes.old }
{
    if index < 8 || page_address(rec, index) != 0 {
        return true;
    }
    match nodes.take_pool() {
        Some(vaddr) => {
            nodes.give_pool(vaddr);
            true
        }
        None => false,
    }
}

// Whether a list has room for one more pointer then.
fn has_room(freeing: &mut PointerList) -> bool
    ensures room { IsTrue result → 1 ≤ freeing.new.room }
    ensures few { IsTrue result → length freeing.new.items ≤ 1000 }
    ensures items { freeing.new.items ≡ freeing.old.items }
{
    if freeing.len() > 1000 {
        return false;
    }
    freeing.reserve(1).is_ok()
}

// Whether the page of an index is this one then.
fn put_page<D: Stamps>(
    device: &mut D,
    meta: &mut Meta,
    nodes: &mut Nodes,
    rec: &mut InodeRec,
    index: u32,
    page: &PageBuf,
    freeing: &mut PointerList,
) -> bool
    requires formed { D.formed device.old }
    requires within { index < 4104 }
    requires file { HasFile D.Counts device.old meta.old nodes.old rec.old }
    ensures formed { D.formed device.new }
    ensures file { IsTrue result → HasFile D.Counts device.new meta.new nodes.new rec.new }
{
    if !has_place(nodes, rec, index) {
        return false;
    }
    if !ready(device, meta, nodes, rec, index) {
        return false;
    }
    if meta.dirty() > 60 {
        return false;
    }
    if !has_room(freeing) {
        return false;
    }
    match program(device, meta, nodes, rec, index, page) {
        Some(to) => {
            install(meta, nodes, rec, index, to, freeing);
            true
        }
        None => false,
    }
}

// Whether the file has the size then.
fn cut_at<D: Stamps>(
    device: &D,
    meta: &mut Meta,
    nodes: &mut Nodes,
    rec: &mut InodeRec,
    size: u64,
    freeing: &mut PointerList,
) -> bool
    requires within { size ≤ 16809984 }
    requires file { HasFile D.Counts device.now meta.old nodes.old rec.old }
    ensures file { IsTrue result → HasFile D.Counts device.now meta.new nodes.new rec.new }
{
    let _device = device;
    if meta.dirty() > 60 {
        return false;
    }
    cut(meta, nodes, rec, size, None, freeing);
    true
}

// Whether the file has the size then, and the page in which it ends is this one.
fn cut_with<D: Stamps>(
    device: &mut D,
    meta: &mut Meta,
    nodes: &mut Nodes,
    rec: &mut InodeRec,
    size: u64,
    page: &PageBuf,
    freeing: &mut PointerList,
) -> bool
    requires formed { D.formed device.old }
    requires within { size < 16809984 }
    requires file { HasFile D.Counts device.old meta.old nodes.old rec.old }
    ensures formed { D.formed device.new }
    ensures file { IsTrue result → HasFile D.Counts device.new meta.new nodes.new rec.new }
{
    let index = (size / 4096) as u32;
    if size % 4096 == 0 {
        return false;
    }
    if index >= 8 && page_address(rec, index) == 0 {
        return false;
    }
    if !ready(device, meta, nodes, rec, index) {
        return false;
    }
    if meta.dirty() > 60 {
        return false;
    }
    if !has_room(freeing) {
        return false;
    }
    match program(device, meta, nodes, rec, index, page) {
        Some(to) => {
            cut(meta, nodes, rec, size, Some(to), freeing);
            true
        }
        None => false,
    }
}

// Whether so many pages are this one then, from an index on and so far apart.
fn fill<D: Stamps>(
    device: &mut D,
    meta: &mut Meta,
    nodes: &mut Nodes,
    rec: &mut InodeRec,
    index: u32,
    apart: u32,
    count: u32,
    page: &PageBuf,
    freeing: &mut PointerList,
) -> bool
    requires formed { D.formed device.old }
    requires near { apart ≤ 256 }
    requires file { HasFile D.Counts device.old meta.old nodes.old rec.old }
    ensures formed { D.formed device.new }
    ensures file { IsTrue result → HasFile D.Counts device.new meta.new nodes.new rec.new }
{
    if count == 0 {
        return true;
    }
    if index >= 4104 {
        return false;
    }
    if !put_page(device, meta, nodes, rec, index, page, freeing) {
        return false;
    }
    fill(
        device,
        meta,
        nodes,
        rec,
        index + apart,
        apart,
        count - 1,
        page,
        freeing,
    )
}

// Whether an address of the pool is taken then.
fn take_address<D: Stamps>(device: &D, meta: &Meta, nodes: &mut Nodes, rec: &InodeRec) -> bool
    requires file { HasFile D.Counts device.now meta.now nodes.old rec.now }
    ensures file { HasFile D.Counts device.now meta.now nodes.new rec.now }
{
    let _device = device;
    let _pages = meta;
    let _file = rec;
    nodes.take_pool().is_some()
}

// The next file, of no pages.
fn begin_next<D: Stamps>(device: &D, meta: &Meta, nodes: &Nodes, rec: &mut InodeRec)
    requires file { HasFile D.Counts device.now meta.now nodes.now rec.old }
    ensures file { HasFile D.Counts device.now meta.now nodes.now rec.new }
{
    let _device = device;
    let _pages = meta;
    let _free = nodes;
    *rec = taken(Kind::File, rec.generation);
}

// Whether no address is free for the page that would have the pointer of an index.
fn is_full<D: Stamps>(
    device: &D,
    meta: &Meta,
    nodes: &mut Nodes,
    rec: &InodeRec,
    index: u32,
) -> bool
    requires file { HasFile D.Counts device.now meta.now nodes.old rec.now }
    ensures file { HasFile D.Counts device.now meta.now nodes.new rec.now }
{
    let _device = device;
    let _pages = meta;
    if index >= 4104 {
        return false;
    }
    !has_place(nodes, rec, index)
}

// The page of zeros, but for these bytes from an offset on. Whether they fit.
fn set(page: &mut PageBuf, at: usize, bytes: &[u8]) -> bool {
    page.clear();
    if bytes.len() > 4096 || at > 4096 - bytes.len() {
        return false;
    }
    page.set_main(at, bytes);
    true
}

// The page of one byte.
fn set_all(page: &mut PageBuf, byte: u8) {
    page.set_main(0, &[byte; 4096]);
}

// Whether a step was done.
fn do_step<D: Stamps>(
    device: &mut D,
    meta: &mut Meta,
    nodes: &mut Nodes,
    rec: &mut InodeRec,
    step: Step,
    page: &mut PageBuf,
    freeing: &mut PointerList,
) -> bool
    requires formed { D.formed device.old }
    requires file { HasFile D.Counts device.old meta.old nodes.old rec.old }
    ensures formed { D.formed device.new }
    ensures file { IsTrue result → HasFile D.Counts device.new meta.new nodes.new rec.new }
{
    match step {
        Step::Page(index, at, bytes) => {
            if index >= 4104 || !set(page, at, bytes) {
                return false;
            }
            put_page(device, meta, nodes, rec, index, page, freeing)
        }
        Step::Fill(index, count, byte) => {
            set_all(page, byte);
            fill(device, meta, nodes, rec, index, 1, count, page, freeing)
        }
        Step::Spread(count, byte) => {
            set_all(page, byte);
            fill(device, meta, nodes, rec, 8, 256, count, page, freeing)
        }
        Step::Size(size) => {
            if size > 16_809_984 {
                return false;
            }
            cut_at(device, meta, nodes, rec, size, freeing)
        }
        Step::Cut(size, bytes) => {
            if size >= 16_809_984 || !set(page, 0, bytes) {
                return false;
            }
            cut_with(device, meta, nodes, rec, size, page, freeing)
        }
        Step::Entries => take_address(device, meta, nodes, rec),
        Step::Next => {
            begin_next(device, meta, nodes, rec);
            true
        }
        Step::NoPlace(index) => is_full(device, meta, nodes, rec, index),
    }
}

/// Whether all steps were done, one after the other.
pub fn do_all<D: Stamps>(
    device: &mut D,
    meta: &mut Meta,
    nodes: &mut Nodes,
    rec: &mut InodeRec,
    steps: &[Step],
    page: &mut PageBuf,
    freeing: &mut PointerList,
) -> bool
    requires formed { D.formed device.old }
    requires file { HasFile D.Counts device.old meta.old nodes.old rec.old }
    ensures formed { D.formed device.new }
    ensures file { IsTrue result → HasFile D.Counts device.new meta.new nodes.new rec.new }
{
    match steps {
        [] => true,
        [step, rest @ ..] => {
            if !do_step(device, meta, nodes, rec, *step, page, freeing) {
                return false;
            }
            do_all(device, meta, nodes, rec, rest, page, freeing)
        }
    }
}

/// What a file has at the end: its size, how many pages, and its bytes from an offset on, as many as the list takes.
pub fn ends<D: Stamps>(
    device: &mut D,
    meta: &mut Meta,
    nodes: &Nodes,
    rec: &InodeRec,
    at: u64,
    out: &mut [u8],
    page: &mut PageBuf,
) -> Option<(u64, u32)>
    requires formed { D.formed device.old }
    requires file { HasFile D.Counts device.old meta.old nodes.now rec.now }
{
    let _free = nodes;
    let CountPages::Pages(count) = count_pages(device, meta, rec) else {
        return None;
    };
    if at > rec.size || out.len() as u64 > rec.size - at {
        return None;
    }
    match read(device, meta, 1, rec, at, out, page) {
        FileAnswer::Done => Some((rec.size, count)),
        _ => None,
    }
}
