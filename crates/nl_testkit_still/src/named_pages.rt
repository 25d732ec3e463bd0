// The memory as a device that names the pages written to it.
ghost use Rattle.nl_testkit_still.specs.Laws.{holds_live, is_a_state, is_names, leaves_pages, named_below};

use crate::still::Still;
use nl_field::{Named, NamedRead, PageBuf, Pointer, Tag};
use nl_iface::NamedPages;

impl NamedPages for Still {
    ghost state = { λ s f. is_a_state s f };

    ghost tables = { λ s f. is_names s f };

    ghost stores_pages = { λ s t f. record { holds = holds_live s f; pages = leaves_pages s f; named_below = named_below s f } };

    fn nameless_write(&mut self, tag: Tag, from: &PageBuf) -> Named {
        if self.room == 0 {
            return Named::NoPage;
        }
        let at = Pointer {
            name: self.given,
            stamp: self.next,
        };
        self.put(tag, from);
        Named::Placed(at)
    }

    fn nameless_overwrite(&mut self, old: Pointer, tag: Tag, from: &PageBuf) -> Named {
        match self.live_page(old.name) {
            Some(label) if label.stamp == old.stamp => {
                if self.room == 0 {
                    return Named::NoPage;
                }
                let at = Pointer {
                    name: self.given,
                    stamp: self.next,
                };
                self.live[old.name as usize] = None;
                self.put(tag, from);
                Named::Placed(at)
            }
            _ => Named::NotLive,
        }
    }

    fn physical_read(&mut self, at: Pointer, tag: Tag, buf: &mut PageBuf) -> NamedRead {
        match self.live_page(at.name) {
            Some(label) if label.stamp == at.stamp => {
                if label.tag != tag {
                    return NamedRead::Lost {
                        wanted: at.stamp,
                        found: 0,
                    };
                }
                buf.copy_from(&self.pages[at.name as usize]);
                NamedRead::Done
            }
            _ => NamedRead::NotLive,
        }
    }

    fn free(&mut self, at: Pointer) -> bool {
        match self.live_page(at.name) {
            Some(label) if label.stamp == at.stamp => {
                self.live[at.name as usize] = None;
                true
            }
            _ => false,
        }
    }

    fn resolve(&self, name: u32) -> u32 {
        name
    }
}
