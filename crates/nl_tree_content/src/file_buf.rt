//! The content of a file in memory: its size, and its pages by index.
ghost use Rattle.std.specs.Prelude.{◌≡◌, ◌<◌, ◌≤◌, ◌^◌, ◌+◌, ◌*◌, ◌&&◌, length};
ghost use Rattle.nl_field.specs.Numbers.{max_file_size};
ghost use Rattle.nl_field.specs.FileContent.{FileContent, empty_file};
ghost use Rattle.nl_tree_content.specs.Pages.{AreWhole, is_in_range, ranges_of_pages};

use crate::shared_page::SharedPage;
use nl_field::Memory;
use std::alloc::Global;
use std::marker::Model;

/// An index, and the bytes of that page.
pub(crate) type Page = (u32, SharedPage);

/// The content of a file, with the count of the ranges in which it has a page.
#[derive(Drop)]
pub struct FileBuf {
    size: u64,
    pages: Vec<Page>,
    ranges: u32,
}

impl Model for FileBuf {
    ghost use Rattle.nl_field.specs.FileContent.{FileContent};
    ghost use Rattle.nl_tree_content.specs.Pages.{IsFileBuf};

    ghost Value = { FileContent };

    ghost view = { λ f. record { size = f.size; pages = f.pages.items } };

    ghost invariant = { λ f. IsFileBuf (record { size = f.size; pages = f.pages.items }) f.ranges };
}

impl FileBuf {
    /// An empty file: its size is 0, and it holds no page.
    pub fn empty(alloc: Global) -> Self
        ensures { result ≡ empty_file }
    {
        FileBuf {
            size: 0,
            pages: Vec::new(alloc),
            ranges: 0,
        }
    }

    /// The file with these pages.
    pub(crate) fn of(size: u64, pages: Vec<Page>) -> Self
        requires whole { AreWhole pages.items }
        requires small { size ≤ max_file_size }
        ensures { result ≡ record { size = size; pages = pages.items } }
    {
        let ranges = count_ranges(&pages);
        FileBuf {
            size,
            pages,
            ranges,
        }
    }

    /// The size in bytes.
    pub fn size(&self) -> u64
        ensures size { result ≡ self.now.size }
        ensures small { self.now.size ≤ max_file_size }
    {
        self.size
    }

    /// In how many ranges of 256 pages, past the first 8 pages, it holds a page.
    pub fn ranges(&self) -> u32
        ensures { result ≡ ranges_of_pages self.now.pages }
    {
        self.ranges
    }

    /// How many pages it holds.
    pub fn page_count(&self) -> usize
        ensures count { result ≡ length self.now.pages }
        ensures small { result < 2 ^ 63 }
    {
        self.pages.len()
    }

    /// The pages by rising index.
    pub(crate) fn pages(&self) -> &[Page]
        ensures pages { result.now ≡ self.now.pages }
        ensures whole { AreWhole self.now.pages }
    {
        &self.pages
    }
}

fn count_ranges(pages: &[Page]) -> u32
    ensures { result ≡ ranges_of_pages pages.now }
{
    (0..16u32).filter(|r| has_page_in(pages, *r)).count() as u32
}

fn has_page_in(pages: &[Page], range: u32) -> bool
    requires { range < 16 }
    ensures { result ≡ is_in_range pages.now range }
{
    pages.iter().any(|page| 8 + 256 * range <= page.0 && page.0 < 264 + 256 * range)
}
