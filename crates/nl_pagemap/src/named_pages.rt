// The device writes pages under numbers that it picks, reads them and takes them out of use.
ghost use Rattle.nl_pagemap.specs.Laws.{holds_live, is_a_state, is_names, leaves_pages, named_below};

use crate::pagemap::Pagemap;
use nl_field::{Named, NamedRead, PageBuf, Pointer, Tag};
use nl_iface::NamedPages;
use nl_nand::{Nand, WriteAnswer};
use nl_pagemap_names::Entry;
use nl_pseg_pages::read_page;

impl<M: Nand> NamedPages for Pagemap<M> {
    ghost state = { λ d f. is_a_state f };

    ghost tables = { λ d f. is_names f };

    ghost stores_pages = { λ d t f. record { holds = holds_live f t; pages = leaves_pages f t; named_below = named_below f t } };

    fn nameless_write(&mut self, tag: Tag, from: &PageBuf) -> Named {
        if self.room == 0 {
            return Named::NoPage;
        }
        let at = self.new_pointer();
        let block = self.next_block();
        let page = self.next_page(block);
        match self.program(block, tag, from) {
            WriteAnswer::Failed => Named::Fault,
            WriteAnswer::Done => {
                let stamp = at.stamp;
                self.table.give(at.name, Entry { page, tag, stamp });
                self.count += 1;
                Named::Placed(at)
            }
        }
    }

    fn nameless_overwrite(&mut self, old: Pointer, tag: Tag, from: &PageBuf) -> Named {
        if !self.leads(old) {
            return Named::NotLive;
        }
        if self.room == 0 {
            return Named::NoPage;
        }
        let at = self.new_pointer();
        let block = self.next_block();
        let page = self.next_page(block);
        match self.program(block, tag, from) {
            WriteAnswer::Failed => Named::Fault,
            WriteAnswer::Done => {
                let stamp = at.stamp;
                self.table.give(at.name, Entry { page, tag, stamp });
                self.table.release(old.name);
                Named::Placed(at)
            }
        }
    }

    fn physical_read(&mut self, at: Pointer, tag: Tag, buf: &mut PageBuf) -> NamedRead {
        let Some(entry) = self.entry_of(at) else {
            return NamedRead::NotLive;
        };
        if entry.tag != tag {
            return NamedRead::Lost {
                wanted: at.stamp,
                found: 0,
            };
        }
        read_page(&mut self.media, entry.page, tag, at.stamp, buf)
    }

    fn free(&mut self, at: Pointer) -> bool {
        if !self.leads(at) {
            return false;
        }
        self.table.release(at.name);
        self.count -= 1;
        true
    }

    fn resolve(&self, name: u32) -> u32 {
        name
    }
}
