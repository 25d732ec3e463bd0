ghost use Rattle.std.specs.Prelude.{◌≡◌, ◌+◌, ◌<◌, ◌^◌, [], List};
ghost use Rattle.nl_core.specs.Core.{begun_of};
ghost use Rattle.nl_field.specs.CrashStates.{Rose};
ghost use Rattle.nl_field.specs.Medium.{shape_of_image};
ghost use Rattle.nl_field.specs.Scan.{greatest_wear, least_wear, next_stamp_of};
ghost use Rattle.nl_field.specs.Virtual.{virtual_bytes};
ghost use Rattle.nl_meta.specs.Committed.{next_number};
ghost use Rattle.nl_core_open.specs.Figures.{pairs_of};
ghost use Rattle.nl_core_open.specs.Opening.{IsBehindScan, OnlyReadsMedium};
ghost use Rattle.nl_spec_image.specs.Stands.{ConsistentAs};
ghost use Rattle.nl_tree.specs.Tree.{Tree};
ghost use Rattle.nl_tree.specs.declared.call.Line.{Line as LineOf};
ghost use Rattle.nl_volume_stage.specs.Standing.{EachIsLine};
ghost use Rattle.nl_volume.specs.Opening.{IfOpened, IsVolumeOpenFault, OpensImage, opened_medium, opening_of};

use crate::volume::Volume;
use nl_core_open::{Opened as Begun, open};
use nl_device::Device;
use nl_field::{PageBuf, Place};
use nl_iface::Counts;
use nl_nand::Nand;
use nl_turns::Kept;
use nl_volume_stage::counts;
use std::alloc::Global;

/// What the opening of a volume answers.
#[derive(Drop)]
pub enum Opened<M: Nand> {
    Opened(Volume<M>),
    /// No page is readable.
    Blank(M),
    /// The first place at fault.
    Damaged(M, Place),
    /// A read failed.
    Fault(M),
    Memory(M),
}

impl<M: Nand> Volume<M> {
    /// Opens the volume on a medium, which is only read. Over a medium that tells what it stores it is blank exactly where no page is
    /// readable, and else opened exactly where the image is consistent, or damaged at the walk's first fault. Opened, it stands for a run
    /// from its count on, and from the tree as which the image is sound, with any lines that are to come. Its next write sequence number,
    /// the number of its next transaction, how many pairs it has, and the least and the greatest wear that it keeps are what the image
    /// tells. Over any medium its count of calls is below 2^63, and its next write sequence number the one behind the greatest that its
    /// scan told.
    pub fn open_volume(alloc: Global, media: M) -> Opened<M>
        ensures stands { (tree : Tree) (lines : List LineOf) → EachIsLine lines
            → IfOpened result (λ v. (M.tells → ConsistentAs (M.contents media) v.core.count tree)
            → ⟦<Volume<M> as Kept>⟧.stands v (opening_of ⟦<Device<M> as Counts>⟧ v.core tree lines) [] v) }
        ensures sound { M.tells → IfOpened result (λ v. (tree : Tree) × ConsistentAs (M.contents media) v.core.count tree) }
        ensures told { M.tells → OpensImage (M.contents media) result }
        ensures next_stamp { M.tells → IfOpened result (λ v. ⟦<Device<M> as Counts>⟧.next_stamp v.core.device
            ≡ next_stamp_of (M.contents media)) }
        ensures number { M.tells → IfOpened result (λ v. begun_of v.core + 1
            ≡ next_number (shape_of_image (M.contents media)) (virtual_bytes (M.contents media))) }
        ensures few { IfOpened result (λ v. v.core.count < 2 ^ 63) }
        ensures behind { IfOpened result (λ v. IsBehindScan (M.geometry media)
            (⟦<Device<M> as Counts>⟧.next_stamp v.core.device)) }
        ensures pairs { M.tells → IfOpened result (λ v. (⟦<Device<M> as Counts>⟧.names v.core.device).space.pairs
            ≡ pairs_of (M.contents media)) }
        ensures wear { M.tells → IfOpened result (λ v. (v.least ≡ least_wear (M.contents media))
            × (v.greatest ≡ greatest_wear (M.contents media))) }
        ensures medium { OnlyReadsMedium M.tells M.contents M.clock M.write_faults M.left media (opened_medium result) }
        ensures fault { IsVolumeOpenFault result → Rose (M.read_faults media) (M.read_faults (opened_medium result)) }
        ensures no_fault { (IsVolumeOpenFault result → ⊥) → M.read_faults (opened_medium result) ≡ M.read_faults media }
    {
        let Ok(page) = PageBuf::new(alloc) else {
            return Opened::Memory(media);
        };
        match open(alloc, media) {
            Begun::Ready(core, figures) => {
                let volume = Volume {
                    core,
                    done: 0,
                    files: figures.files,
                    page,
                    least: figures.least,
                    greatest: figures.greatest,
                };
                counts(&volume.core);
                let _calls = volume.calls();
                Opened::Opened(volume)
            }
            Begun::Blank(media) => Opened::Blank(media),
            Begun::Damaged(place, media) => Opened::Damaged(media, place),
            Begun::Fault(media) => Opened::Fault(media),
            Begun::Memory(media) => Opened::Memory(media),
        }
    }
}
