//! The law of the definitions: a function stands for it.
ghost use Rattle.nl_cmd_compare.specs.Complete.{CompareCompletes};

use nl_cmd_words::laws::done_completes;
use nl_nand::Nand;

/// Where nothing fails the numbers of a comparison are printed, unless memory is wanting.
pub fn compare_completes<M: Nand>()
    ensures { CompareCompletes M.tells }
{
    done_completes();
}
