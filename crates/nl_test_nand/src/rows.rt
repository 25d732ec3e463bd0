// A row on media in stores of bytes.
ghost use Rattle.std.specs.Prelude.{◌≡◌};

use nl_imgfile::{DiskNand, FileNand};
use nl_nand::Nand;
use nl_store::MemStore;

/// Over a store in memory the medium tells what its pages hold; over a file it does not.
pub fn tells()
    ensures memory { ⟦<DiskNand<MemStore> as Nand>⟧.tells }
    ensures file { ⟦<FileNand as Nand>⟧.tells → ⊥ }
{}
