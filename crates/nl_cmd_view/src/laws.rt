//! Laws of the definitions. Each function stands for the law that its contract names.
ghost use Rattle.nl_cmd_view.specs.Complete.{GetCompletes, LookCompletes, TreeCompletes};
ghost use Rattle.nl_cmd_view.specs.Looking.{ReportsImage};

use nl_cmd_words::laws::{done_completes, opening_completes};
use nl_nand::Nand;
use nl_spec_image::laws::represents_one;

/// Where nothing fails, the paths of a sound image are printed, and its report, unless memory is wanting.
pub fn look_completes<M: Nand>()
    ensures trees { TreeCompletes M.tells }
    ensures reports { LookCompletes M.tells ReportsImage }
{
    done_completes();
    opening_completes::<M>();
}

/// Where nothing fails the bytes of a file of a sound image are printed, or the refusal of its tree is told, unless memory is wanting.
pub fn get_completes<M: Nand>()
    ensures { GetCompletes M.tells }
{
    done_completes();
    opening_completes::<M>();
    represents_one();
}
