ghost use Rattle.std.specs.Prelude.{◌≡◌, [], List, IfErr, IfOk};
ghost use Rattle.nl_device.specs.Medium.{medium_of};
ghost use Rattle.nl_field.specs.Scan.{greatest_wear, least_wear};
ghost use Rattle.nl_core_open.specs.Figures.{pairs_of};
ghost use Rattle.nl_core_open.specs.Opening.{IsBehindScan, OnlyReadsMedium};
ghost use Rattle.nl_spec_image.specs.Stands.{ConsistentAs};
ghost use Rattle.nl_tree.specs.Tree.{Tree};
ghost use Rattle.nl_tree.specs.declared.call.Line.{Line};
ghost use Rattle.nl_volume.specs.Opening.{opening_of};
ghost use Rattle.nl_volume_stage.specs.Standing.{EachIsLine};
ghost use Rattle.nl_volume.specs.Opened.{IsReason, OpensOn, medium_in};

use crate::opening::Opened;
use crate::volume::Volume;
use nl_device::Device;
use nl_field::Place;
use nl_iface::Counts;
use nl_nand::Nand;
use nl_turns::Kept;
use std::alloc::Global;

/// Why no volume was opened, with the medium.
#[derive(Drop)]
pub enum NotOpened<M: Nand> {
    /// No page is readable.
    Blank(M),
    /// The first place at fault.
    Damaged(M, Place),
    /// A read failed.
    Fault(M),
    Memory(M),
}

/// The volume of a medium, which is only read, or why there is none. Over a medium that tells its contents it opens as what the image is:
/// its tree, its next write sequence number, the number of its next transaction, its pairs and its wear are those of the image. It stands
/// for a run of whatever lines from the tree as which the image is sound. Over any medium its count of calls is below 2^63, and its next
/// write sequence number the one behind the greatest that its scan told.
pub fn open<M: Nand>(alloc: Global, media: M) -> Result<Volume<M>, NotOpened<M>>
    ensures opened { IfOk result (λ v. OpensOn ⟦<Device<M> as Counts>⟧ (M.contents media) v.core) }
    ensures behind { IfOk result (λ v. IsBehindScan (M.geometry media) (⟦<Device<M> as Counts>⟧.next_stamp v.core.device)) }
    ensures pairs { IfOk result (λ v. M.tells → (⟦<Device<M> as Counts>⟧.names v.core.device).space.pairs ≡ pairs_of (M.contents media)) }
    ensures wear { IfOk result (λ v. M.tells → (v.least ≡ least_wear (M.contents media))
        × (v.greatest ≡ greatest_wear (M.contents media))) }
    ensures stands { IfOk result (λ v. (tree : Tree) (lines : List Line) → EachIsLine lines
        → (M.tells → ConsistentAs (M.contents media) v.core.count tree)
        → ⟦<Volume<M> as Kept>⟧.stands v (opening_of ⟦<Device<M> as Counts>⟧ v.core tree lines) [] v) }
    ensures only_read { IfOk result (λ v. OnlyReadsMedium M.tells M.contents M.clock M.write_faults M.left media
        (medium_of v.core.device)) }
    ensures no_fault { IfOk result (λ v. M.read_faults (medium_of v.core.device) ≡ M.read_faults media) }
    ensures why { IfErr result (λ why. IsReason M.tells M.contents M.read_faults media why) }
    ensures left { IfErr result (λ why. OnlyReadsMedium M.tells M.contents M.clock M.write_faults M.left media (medium_in why)) }
{
    match Volume::open_volume(alloc, media) {
        Opened::Opened(volume) => Ok(volume),
        Opened::Blank(media) => Err(NotOpened::Blank(media)),
        Opened::Damaged(media, place) => Err(NotOpened::Damaged(media, place)),
        Opened::Fault(media) => Err(NotOpened::Fault(media)),
        Opened::Memory(media) => Err(NotOpened::Memory(media)),
    }
}
