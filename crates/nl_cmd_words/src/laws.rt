//! Laws of the definitions. Each function stands for the law that its contract names.
ghost use Rattle.nl_cmd_words.specs.Complete.{CheckCompletes, DoneCompletes, FormatCompletes, OpeningCompletes};

use nl_core_open::laws::sound_is_readable;
use nl_nand::Nand;

/// Where nothing fails a command that was carried out ends with status 0.
pub fn done_completes()
    ensures { DoneCompletes }
{}

/// Where nothing fails the volume of a sound image is opened, unless memory is wanting.
pub fn opening_completes<M: Nand>()
    ensures { OpeningCompletes M.tells }
{
    sound_is_readable();
}

/// Where nothing fails a volume is made, unless memory is wanting.
pub fn format_completes<M: Nand>()
    ensures { FormatCompletes M.tells }
{}

/// Where nothing fails a sound image is found sound, unless memory is wanting.
pub fn check_completes<M: Nand>()
    ensures { CheckCompletes M.tells }
{
    sound_is_readable();
}
