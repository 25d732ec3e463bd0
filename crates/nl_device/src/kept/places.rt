// Looks up, in what is kept of a scan, where the page of a pointer is.
ghost use Rattle.std.specs.Prelude.{◌≡◌, ◌==◌, ◌&&◌, find, option_map};
ghost use Rattle.nl_field.specs.Space.{is_outside};
ghost use Rattle.nl_device.specs.Kept.{has_stamp, is_at_name, place_among};

use super::Kept;
use super::page::KeptPage;
use nl_field::Pointer;

impl Kept {
    /// The page of that number.
    pub(crate) fn page(&self, page: u32) -> Option<KeptPage>
        ensures { result ≡ find (λ k. k.page == page) self.now.pages }
    {
        match self.pages.binary_search_by_key(&page, |kept| kept.page) {
            Ok(at) => Some(self.pages[at]),
            Err(_) => None,
        }
    }

    /// Whether the page of that number has the stamp.
    fn has(&self, page: u32, stamp: u64) -> bool
        ensures { result ≡ has_stamp self.now.pages page stamp }
    {
        let _ = &self.first;
        match self.page(page) {
            Some(kept) => kept.stamp == stamp,
            None => false,
        }
    }

    /// Whether the page is outside the spare block.
    fn is_outside(&self, spare: Option<u32>, page: u32) -> bool
        ensures { result ≡ is_outside self.now.size spare page }
    {
        match spare {
            Some(block) => page / self.size != block,
            None => true,
        }
    }

    /// The least page of the stamp outside the spare block.
    fn least(&self, spare: Option<u32>, stamp: u64) -> Option<u32>
        ensures { result ≡ option_map (λ k. k.page) (find (λ k. k.stamp == stamp && is_outside self.now.size spare k.page) self.now.pages) }
    {
        let copies = self.copies.get(&stamp)?;
        if self.is_outside(spare, copies.first) {
            Some(copies.first)
        } else {
            copies.apart
        }
    }

    /// Whether the page of its name has its stamp, and is outside the spare block.
    fn is_at_name(&self, spare: Option<u32>, at: &Pointer) -> bool
        ensures { result ≡ is_at_name self.now spare at.now }
    {
        self.has(at.name, at.stamp) && self.is_outside(spare, at.name)
    }

    /// The place of a pointer beside this spare block.
    pub(crate) fn place(&self, spare: Option<u32>, at: &Pointer) -> Option<u32>
        ensures { result ≡ place_among self.now spare at.now }
    {
        if self.is_at_name(spare, at) {
            Some(at.name)
        } else {
            self.least(spare, at.stamp)
        }
    }
}
