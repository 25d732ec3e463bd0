//! The law of the definitions: a function stands for it.
ghost use Rattle.nl_cmd_map.specs.Complete.{MapCompletes};

use nl_cmd_words::laws::done_completes;
use nl_core_open::laws::sound_is_readable;
use nl_nand::Nand;

/// Where nothing fails the map of a sound image is printed, unless memory is wanting.
pub fn map_completes<M: Nand>()
    ensures { MapCompletes M.tells }
{
    done_completes();
    sound_is_readable();
}
