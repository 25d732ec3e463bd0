use crate::volume::Volume;
use nl_device::Device;
use nl_iface::Counts;
use nl_nand::Nand;

/// What is told of a volume that opened on a medium.
pub trait Told {
    ghost use Rattle.std.specs.Prelude.{List};
    ghost use Rattle.nl_field.specs.Page.{Image};
    ghost use Rattle.nl_tree.specs.Tree.{Tree};
    ghost use Rattle.nl_tree.specs.declared.call.Line.{Line};
    ghost use Rattle.nl_turns.specs.History.{Opening};

    /// The opening of a run by it, with this tree and these lines to come.
    ghost opening: { Self → Tree → List Line → Opening };

    /// The volume opened as what the image is, where its medium tells its contents.
    ghost opened_on: { Image → Self → Type 0 };
}

impl<M: Nand> Told for Volume<M> {
    ghost use Rattle.nl_volume.specs.Opened.{OpensOn};
    ghost use Rattle.nl_volume.specs.Opening.{opening_of};

    ghost opening = { λ v tree lines. opening_of ⟦<Device<M> as Counts>⟧ v.core tree lines };

    ghost opened_on = { λ image v. OpensOn ⟦<Device<M> as Counts>⟧ image v.core };
}
