// Reads an address.
ghost use Rattle.std.specs.Prelude.{◌≡◌, ◌<◌, length};
ghost use Rattle.nl_nand.specs.Nand.{FaultsCounted, MediumOnlyRead};
ghost use Rattle.nl_vseg.specs.Places.{map_of, stamp_for};
ghost use Rattle.nl_vseg.specs.Segment.{FitsSegment, IsSegmentOf};
ghost use Rattle.nl_vseg.specs.Seen.{segment_of, IsVirtualFormed};
ghost use Rattle.nl_vseg.specs.Answers.{ReadsStampInto, ReadsValueInto, TellsStampFound};

use crate::pages::read_page;
use crate::state::State;
use nl_field::{PageBuf, VirtualRead};
use nl_nand::Nand;

impl State {
    /// Reads the page of an address: `Unmapped` exactly where it has none, and a `Fault` is counted.
    pub fn read<M: Nand>(&self, media: &mut M, vaddr: u32, buf: &mut PageBuf) -> VirtualRead
        requires formed { IsVirtualFormed self.now }
        requires fits { FitsSegment (M.geometry media.old) (segment_of self.now) }
        requires vaddr { vaddr < length self.now.places.items }
        requires segment { M.tells → IsSegmentOf (M.contents media.old) (segment_of self.now) }
        ensures answer { ReadsStampInto (stamp_for self.now.places.items vaddr) buf.new result }
        ensures found { TellsStampFound buf.new result }
        ensures value { M.tells → ReadsValueInto (map_of self.now.places.items (M.contents media.old) vaddr) buf.new result }
        ensures only_reads { MediumOnlyRead M.geometry M.contents M.clock M.write_faults M.left media.old media.new }
        ensures read_faults { FaultsCounted (M.read_faults media.old) (M.read_faults media.new) (result ≡ VirtualRead.Fault) }
    {
        match self.places[vaddr as usize] {
            None => VirtualRead::Unmapped,
            Some(place) => read_page(media, place.page, place.stamp, buf),
        }
    }
}
