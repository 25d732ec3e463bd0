// The end of a device: it gives its medium back.
ghost use Rattle.std.specs.Prelude.{◌≡◌};
ghost use Rattle.nl_device.specs.Medium.{medium_of};

use crate::device::Device;
use nl_nand::Nand;

impl<M: Nand> Device<M> {
    /// Gives the medium back.
    pub fn into_media(self) -> M
        ensures { result ≡ medium_of self }
    {
        let Device {
            media,
            vseg,
            pseg,
            pending,
            kept,
            buf,
            ..
        } = self;
        drop(vseg);
        drop(pseg);
        drop(pending);
        drop(kept);
        drop(buf);
        media
    }
}
