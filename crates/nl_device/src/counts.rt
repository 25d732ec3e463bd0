// What is seen of a device, and the counts of its medium.
ghost use Rattle.std.specs.Prelude.{◌≡◌, ◌*◌};
ghost use Rattle.nl_device.specs.Device.{IsDevice};
ghost use Rattle.nl_device.specs.Shown.{IsStray, bytes_at, found_by_number};
ghost use Rattle.nl_device.specs.Callbacks.{names_with};
ghost use Rattle.nl_field.specs.Page.{Image};
ghost use Rattle.nl_iface.specs.Stored.{stored_in};
ghost use Rattle.nl_pseg.specs.Segment.{IsClean};
ghost use Rattle.nl_vseg.specs.Places.{map_of, stamp_for};
ghost use Rattle.nl_vseg.specs.Segment.{SegmentHasUnmapped};

use crate::device::Device;
use nl_iface::Counts;
use nl_nand::Nand;

impl<M: Nand> Counts for Device<M> {
    ghost tells = { M.tells };

    ghost clock = { λ d. M.clock d.media };

    ghost read_faults = { λ d. M.read_faults d.media };

    ghost write_faults = { λ d. M.write_faults d.media };

    ghost Crash = { Image };

    ghost stored_of = { stored_in };

    ghost contents = { λ d. M.contents d.media };

    ghost left = { λ d m c. M.left d.media m c };

    ghost formed = { λ d. IsDevice (M.geometry d.media) M.tells (M.contents d.media) d.shape d.vseg d.pseg d.pending d.kept d.next };

    ghost shape = { λ d. d.shape };

    ghost stamps = { λ d v. stamp_for d.vseg.places v };

    ghost map = { λ d v. map_of d.vseg.places (M.contents d.media) v };

    ghost failed = { λ d v x. IsStray (d.shape.vblocks * d.shape.pages) (M.contents d.media)
        (λ u. map_of d.vseg.places (M.contents d.media) u) v x };

    ghost keeps_spare = { λ d. SegmentHasUnmapped d.vseg };

    ghost next_stamp = { λ d. d.next };

    ghost names = { λ d. names_with d.pseg d.pending };

    ghost bytes = { λ d p. bytes_at (d.shape.vblocks * d.shape.pages) (M.contents d.media) p };

    ghost found = { λ d. found_by_number d.kept };

    ghost clean = { λ d. IsClean d.pseg };

    fn clock(&self) -> u64 {
        self.media.clock()
    }

    fn read_faults(&self) -> u64 {
        self.media.read_faults()
    }

    fn write_faults(&self) -> u64 {
        self.media.write_faults()
    }
}
