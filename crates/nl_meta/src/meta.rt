//! The metadata pages in memory: those that run, and beside them those that a transaction has frozen.
ghost use Rattle.std.specs.Prelude.{◌==◌, ◌≡◌, ◌↔◌, ◌<◌, ◌≤◌, ◌+◌, ◌^◌, ◌++◌, ◌∷◌, ℕ, [], List, map, take, position, slice_index, IsNone, IsSome, IfOk, IfSome, IsTrue, Some, None, true, false, is_some, slice_index_or, slice_get, slice_set, length, filter};
ghost use Rattle.std.specs.Borrow.{sem};
ghost use Rattle.nl_field.specs.Bytes.{zeros};
ghost use Rattle.nl_field.specs.Members.{Has};
ghost use Rattle.nl_meta.specs.Pages.{IsPages, dirty_pages, frozen_at, has_room, is_dirty, no_pages, none_frozen, page_of, rises, touched, with_address, with_image};
ghost use Rattle.nl_meta.specs.Inside.{no_page};
ghost use Rattle.nl_meta.specs.Steps.{Freshens, with_admitted, with_restored, without_page};
ghost use Rattle.nl_meta.specs.Lending.{LendsAdmitted, LendsDirty, LendsPage};

use crate::addresses::{contains, inserted, is_front, moved_front, others};
use nl_field::{AddressList, Memory, PageBuf, Shape};
use std::alloc::Global;
use std::marker::Model;
use std::mem;

const MOST: u32 = 63;

const IMAGES: usize = 64;

/// The metadata pages of a volume by virtual address: those that run, and beside them those that a transaction has frozen.
#[derive(Drop)]
pub struct Meta {
    pages: Vec<PageBuf>,
    resident: Vec<bool>,
    count: u32,
    dirty: AddressList,
    recent: AddressList,
    frozen: AddressList,
    images: Vec<PageBuf>,
}

impl Model for Meta {
    ghost use Rattle.std.specs.Prelude.{length, map, take};
    ghost use Rattle.nl_meta.specs.Pages.{Pages};
    ghost use Rattle.nl_meta.specs.Inside.{IsMetaState, slots};

    ghost Value = { Pages };

    ghost view = { λ m. record { running = slots m.resident.items m.pages.items; dirty = m.dirty; recent = m.recent; frozen = record { addresses = m.frozen; images = map (λ page. page.main) (take (length m.frozen) m.images.items) } } };

    ghost invariant = { λ m. IsMetaState m.pages.items m.resident.items m.count m.dirty m.recent m.frozen m.images.items };
}

impl Meta {
    /// No page is resident yet, and none is frozen.
    pub fn new(alloc: Global, shape: Shape) -> Result<Meta, Memory>
        ensures { IfOk result (λ m. m ≡ no_pages shape.vaddrs) }
    {
        let pages = blank_pages(alloc, shape.vaddrs as usize)?;
        let resident = vec![in alloc; false; shape.vaddrs as usize]?;
        let images = blank_pages(alloc, IMAGES)?;
        Ok(Meta {
            pages,
            resident,
            count: 0,
            dirty: AddressList::new(),
            recent: AddressList::new(),
            frozen: AddressList::new(),
            images,
        })
    }

    /// What holds of the pages at any time.
    pub fn stands(&self)
        ensures { IsPages self.now }
    {
        let _dirty = &self.dirty;
    }

    /// Whether the running page of an address is in memory; not where the volume has no such address.
    pub fn resident(&self, vaddr: u32) -> bool
        ensures { result ≡ is_some (page_of self.now vaddr) }
    {
        let at = vaddr as usize;
        match self.resident.get(at) {
            Some(resident) => *resident,
            None => false,
        }
    }

    /// The running page of an address that is resident.
    pub fn page(&self, vaddr: u32) -> &PageBuf
        requires { IsSome (page_of self.now vaddr) }
        ensures { page_of self.now vaddr ≡ Some result.now.main }
    {
        &self.pages[vaddr as usize]
    }

    /// The running page of a resident address, to be changed, and dirty from now on. None exactly where the address is not 0 and
    /// 63 pages other than it and address 0 are dirty.
    pub fn page_mut(&mut self, vaddr: u32) -> Option<&mut PageBuf>
        requires { IsSome (page_of self.old vaddr) }
        ensures* writes_back { sem 𝓛 (LendsDirty self.entry vaddr result) }
        ensures room { IsSome result ↔ (has_room self.old vaddr ≡ true) }
        ensures value { IfSome result (λ page. page_of self.old vaddr ≡ Some page.now.main) }
    {
        if self.has_room(vaddr) {
            self.mark(vaddr);
            Some(self.lend(vaddr))
        } else {
            None
        }
    }

    /// A clean page for an address that is not resident, to be filled. It is touched.
    pub fn admit(&mut self, vaddr: u32) -> &mut PageBuf
        requires inside { vaddr < length self.old.running }
        requires absent { page_of self.old vaddr ≡ None }
        ensures* writes_back { sem 𝓛 (LendsAdmitted self.entry vaddr result) }
    {
        self.hold(vaddr);
        self.lend(vaddr)
    }

    /// The page of an address, which is clean and could not be filled, is given up.
    pub fn dismiss(&mut self, vaddr: u32)
        requires there { IsSome (page_of self.old vaddr) }
        requires clean { is_dirty self.old vaddr ≡ false }
        ensures { self.new ≡ without_page self.old vaddr }
    {
        drop_place(&mut self.resident, &mut self.count, vaddr as usize);
    }

    /// A dirty page of zeros for an address, which is touched. False, and nothing changed, exactly where the address is not 0 and
    /// 63 pages other than it and address 0 are dirty.
    pub fn fresh(&mut self, vaddr: u32) -> bool
        requires { vaddr < length self.old.running }
        ensures room { result ≡ has_room self.old vaddr }
        ensures done { result ≡ true → Freshens vaddr self.old self.new }
        ensures refused { result ≡ false → self.new ≡ self.old }
    {
        if !self.has_room(vaddr) {
            return false;
        }
        self.hold(vaddr);
        self.mark(vaddr);
        self.lend(vaddr).clear();
        true
    }

    /// A resident page counts as used now.
    pub fn touch(&mut self, vaddr: u32)
        requires { IsSome (page_of self.old vaddr) }
        ensures { self.new ≡ record self.old { recent = touched vaddr self.old.recent } }
    {
        if !is_front(&self.recent, vaddr) {
            self.recent = moved_front(&self.recent, vaddr);
        }
    }

    /// How many pages are dirty.
    pub fn dirty(&self) -> u32
        ensures { result ≡ length self.now.dirty }
    {
        self.dirty.len()
    }

    /// How many pages are resident.
    pub fn slots(&self) -> u32
        ensures { result ≡ length (filter is_some self.now.running) }
    {
        self.count
    }

    /// Makes the dirty pages the frozen ones, and leaves none dirty. Nothing is frozen before.
    pub fn freeze(&mut self)
        requires { self.old.frozen.addresses ≡ [] }
        ensures { self.new ≡ record self.old { dirty = []; frozen = dirty_pages self.old } }
    {
        copy_pages(&mut self.images, &self.pages, &self.dirty);
        self.frozen = mem::replace(&mut self.dirty, AddressList::new());
    }

    /// Drops the frozen pages.
    pub fn thaw(&mut self)
        ensures { self.new ≡ record self.old { frozen = none_frozen } }
    {
        self.frozen = AddressList::new();
    }

    /// The address of a frozen page in rising order, counted from 0. None exactly where there are at most so many.
    pub fn frozen(&self, i: u32) -> Option<u32>
        ensures { result ≡ slice_get self.now.frozen.addresses i }
    {
        self.frozen.as_slice().get(i as usize).copied()
    }

    /// The frozen page of an address that has one.
    pub fn frozen_page(&self, vaddr: u32) -> &PageBuf
        requires { Has self.now.frozen.addresses vaddr }
        ensures { frozen_at self.now vaddr ≡ Some result.now.main }
    {
        &self.images[place(&self.frozen, vaddr)]
    }

    /// The page of a transaction that an opening found to count: the running page of an address that is not resident, and frozen
    /// behind the frozen ones, of which there are fewer than 64, all below it.
    pub fn restore(&mut self, vaddr: u32, from: &PageBuf)
        requires inside { vaddr < length self.old.running }
        requires absent { page_of self.old vaddr ≡ None }
        requires last { rises (self.old.frozen.addresses ++ vaddr ∷ []) ≡ true }
        requires few { length self.old.frozen.addresses < 64 }
        ensures { self.new ≡ with_restored self.old vaddr from.now.main }
    {
        self.admit(vaddr).copy_from(from);
        self.add_image(vaddr, from);
    }

    /// No page is resident any more, none is dirty, and none is frozen.
    pub fn clear(&mut self)
        ensures { self.new ≡ no_pages (length self.old.running) }
    {
        self.resident.fill(false);
        self.count = 0;
        self.dirty = AddressList::new();
        self.recent = AddressList::new();
        self.frozen = AddressList::new();
    }

    // One more page is frozen.
    fn add_image(&mut self, vaddr: u32, from: &PageBuf)
        requires last { rises (self.old.frozen.addresses ++ vaddr ∷ []) ≡ true }
        requires few { length self.old.frozen.addresses < 64 }
        ensures { self.new ≡ record self.old { frozen = with_image self.old.frozen vaddr from.now.main } }
    {
        copy_page(&mut self.images, self.frozen.len() as usize, from);
        self.frozen.push(vaddr);
    }

    /// Whether the page of an address may become dirty: it is that of address 0, or dirty already, or fewer than 63 besides address 0
    /// are.
    pub fn has_room(&self, vaddr: u32) -> bool
        ensures { result ≡ has_room self.now vaddr }
    {
        vaddr == 0 || contains(&self.dirty, vaddr) || others(&self.dirty) < MOST
    }

    // The page is dirty from now on.
    fn mark(&mut self, vaddr: u32)
        requires there { IsSome (page_of self.old vaddr) }
        requires room { has_room self.old vaddr ≡ true }
        ensures { self.new ≡ record self.old { dirty = with_address vaddr self.old.dirty } }
    {
        self.dirty = inserted(&self.dirty, vaddr);
    }

    // The address is resident from now on, whatever its page has.
    fn hold(&mut self, vaddr: u32)
        requires { vaddr < length self.old.running }
        ensures { (bytes : List ℕ) × (self.new ≡ with_admitted self.old vaddr bytes) }
    {
        hold_place(&mut self.resident, &mut self.count, vaddr as usize);
        self.recent = moved_front(&self.recent, vaddr);
    }

    fn lend(&mut self, vaddr: u32) -> &mut PageBuf
        requires { IsSome (page_of self.old vaddr) }
        ensures* writes_back { sem 𝓛 (LendsPage self.entry vaddr result) }
        ensures value { page_of self.old vaddr ≡ Some result.now.main }
    {
        &mut self.pages[vaddr as usize]
    }
}

fn blank_pages(alloc: Global, count: usize) -> Result<Vec<PageBuf>, Memory>
    ensures { IfOk result (λ v. length v.items ≡ count) }
{
    let mut pages = Vec::new(alloc);
    for i in 0..count {
        pages.push(PageBuf::new(alloc)?)?;
    }
    Ok(pages)
}

// The place is resident from now on, and counted once.
fn hold_place(resident: &mut Vec<bool>, count: &mut u32, at: usize)
    requires below { at < length resident.old.items }
    requires fits { length resident.old.items < 2 ^ 32 }
    requires counted { count.old ≡ length (filter (λ b. b) resident.old.items) }
    ensures items { resident.new.items ≡ slice_set resident.old.items at true }
    ensures counted { count.new ≡ length (filter (λ b. b) resident.new.items) }
{
    if !resident[at] {
        resident[at] = true;
        *count += 1;
    }
}

// The place is resident no longer, and not counted.
fn drop_place(resident: &mut Vec<bool>, count: &mut u32, at: usize)
    requires there { slice_index_or resident.old.items at false ≡ true }
    requires counted { count.old ≡ length (filter (λ b. b) resident.old.items) }
    ensures items { resident.new.items ≡ slice_set resident.old.items at false }
    ensures counted { count.new ≡ length (filter (λ b. b) resident.new.items) }
{
    resident[at] = false;
    *count -= 1;
}

fn copy_pages(images: &mut Vec<PageBuf>, pages: &[PageBuf], addresses: &AddressList)
    requires there { (i : ℕ) → i < length addresses.now → slice_index addresses.now i < length pages.now }
    requires room { length addresses.now ≤ length images.old.items }
    ensures size { length images.new.items ≡ length images.old.items }
    ensures copied { take (length addresses.now) images.new.items ≡ map (λ v. slice_index_or pages.now v no_page) addresses.now }
{
    for i in 0..addresses.len() {
        let page = &mut images[i as usize];
        page.copy_from(&pages[*addresses.get(i) as usize]);
    }
}

fn copy_page(images: &mut Vec<PageBuf>, at: usize, from: &PageBuf)
    requires { at < length images.old.items }
    ensures { images.new.items ≡ slice_set images.old.items at from.now }
{
    let image = &mut images[at];
    image.copy_from(from);
}

// The place of an address in a list that has it.
fn place(addresses: &AddressList, vaddr: u32) -> usize
    requires { Has addresses.now vaddr }
    ensures at { position (λ a. a == vaddr) addresses.now ≡ Some result }
    ensures below { result < length addresses.now }
{
    match found(addresses, vaddr) {
        Some(at) => at,
        None => 0,
    }
}

fn found(addresses: &AddressList, vaddr: u32) -> Option<usize>
    ensures { result ≡ position (λ a. a == vaddr) addresses.now }
{
    addresses.as_slice().iter().position(|a| *a == vaddr)
}
