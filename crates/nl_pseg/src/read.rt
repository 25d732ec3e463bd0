// Reads the page to which a pointer leads.
ghost use Rattle.std.specs.Prelude.{◌≡◌, ◌⊎◌, Some};
ghost use Rattle.nl_field.specs.Live.{resolve};
ghost use Rattle.nl_field.specs.Page.{page_at, written};
ghost use Rattle.nl_nand.specs.Nand.{FaultsCounted, SameCrashStates};
ghost use Rattle.nl_pseg.specs.Kept.{kept};
ghost use Rattle.nl_pseg.specs.Answers.{ReadsHeld};
ghost use Rattle.nl_pseg.specs.Segment.{IsPhysicalOf, held_at};
ghost use Rattle.nl_pseg_pages.specs.Pages.{TellsFound, stamp_at, stamp_found};
ghost use Rattle.nl_pseg.specs.Seen.{seen, FitsPhysical, IsPhysicalFormed};

use crate::state::State;
use nl_field::{NamedRead, PageBuf, Pointer, Tag};
use nl_nand::Nand;
use nl_pseg_pages::read_page;

impl State {
    /// Reads the page to which a pointer leads, for its owner. A `Fault` is counted.
    pub fn read<M: Nand>(
        &self,
        media: &mut M,
        at: Pointer,
        tag: Tag,
        buf: &mut PageBuf,
    ) -> NamedRead
        requires formed { IsPhysicalFormed (kept self.now) }
        requires fits { FitsPhysical (M.geometry media.old) (seen (kept self.now)) }
        requires segment { M.tells → IsPhysicalOf (M.contents media.old) (seen (kept self.now)) }
        ensures answer { ReadsHeld (held_at (seen (kept self.now))
            (resolve (seen (kept self.now)).pairs at.name)) tag at.stamp buf.new result }
        ensures value { M.tells → result ≡ NamedRead.Done
            → page_at (M.contents media.old) (resolve (seen (kept self.now)).pairs at.name) ≡ written buf.new }
        ensures found { TellsFound (stamp_found buf.new) result }
        ensures told { M.tells → TellsFound (stamp_at (page_at (M.contents media.old) (resolve (seen (kept self.now)).pairs at.name))) result }
        ensures kept { M.tells → held_at (seen (kept self.now)) (resolve (seen (kept self.now)).pairs at.name)
            ≡ Some (record { tag = tag; stamp = at.stamp }) → (result ≡ NamedRead.Done) ⊎ (result ≡ NamedRead.Fault) }
        ensures geometry { M.geometry media.new ≡ M.geometry media.old }
        ensures contents { M.contents media.new ≡ M.contents media.old }
        ensures left { SameCrashStates M.left media.old media.new }
        ensures clock { M.clock media.new ≡ M.clock media.old }
        ensures write_faults { M.write_faults media.new ≡ M.write_faults media.old }
        ensures read_faults { FaultsCounted (M.read_faults media.old) (M.read_faults media.new) (result ≡ NamedRead.Fault) }
    {
        let Some(place) = self.place_of(at) else {
            return NamedRead::NotLive;
        };
        let Some(held) = self.live_on(place) else {
            return NamedRead::NotLive;
        };
        match read_page(media, place, tag, at.stamp, buf) {
            NamedRead::Done => {
                if held.tag == tag {
                    NamedRead::Done
                } else {
                    NamedRead::Lost {
                        wanted: at.stamp,
                        found: 0,
                    }
                }
            }
            NamedRead::Lost { wanted, found } => NamedRead::Lost { wanted, found },
            NamedRead::Fault => NamedRead::Fault,
            NamedRead::NotLive => unreachable!(),
        }
    }
}
