//! Laws of the definitions. Each function stands for the law that its contract names.
ghost use Rattle.nl_spec_headline.specs.Streams.{stops_within};
ghost use Rattle.nl_top.specs.PutAndGet.{PutIsGot};

use nl_nand::Nand;
use nl_put_tree::laws::put_laws;
use nl_spec_image::laws::represents_one;

/// What is put is what is got.
pub fn put_is_got<M: Nand>()
    ensures { (old new : M) → PutIsGot M.tells (stops_within M.Nand old new) }
{
    put_laws();
    represents_one();
}
