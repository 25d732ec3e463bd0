//! Laws of the definitions. Each function stands for the law that its contract names.
ghost use Rattle.std.specs.Prelude.{ℕ};
ghost use Rattle.nl_cmd_put.specs.Complete.{PutCompletes};
ghost use Rattle.nl_field.specs.Page.{Image};
ghost use Rattle.nl_spec_headline.specs.Streams.{stops_within};

use nl_cmd_words::laws::opening_completes;
use nl_nand::Nand;

/// Where nothing fails a file is put on a sound image, or refused, unless memory is wanting.
pub fn put_completes<M: Nand>()
    ensures { (old new : M) → PutCompletes M.tells (M.tells → (m : ℕ) (c : Image) → M.left new m c → M.left old m c) (stops_within M.Nand old new) }
{
    opening_completes::<M>();
}
