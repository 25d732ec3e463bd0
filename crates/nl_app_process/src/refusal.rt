ghost use Rattle.std.specs.Prelude.{◌≡◌};
ghost use Rattle.nl_print.specs.Texts.{refusal_text};

use nl_tree::{Refusal, Space};

/// What is told on standard error of a refusal of the tree, without the end of the line: as a script's answers have it.
pub fn refusal_name(refusal: Refusal) -> &'static str
    ensures { result.now ≡ refusal_text refusal }
{
    match refusal {
        Refusal::Enoent => "ENOENT",
        Refusal::Eexist => "EEXIST",
        Refusal::Enotdir => "ENOTDIR",
        Refusal::Eisdir => "EISDIR",
        Refusal::Enotempty => "ENOTEMPTY",
        Refusal::Einval => "EINVAL",
        Refusal::Enametoolong => "ENAMETOOLONG",
        Refusal::Efbig => "EFBIG",
        Refusal::Enospc(Space::Dir) => "ENOSPC dir",
        Refusal::Enospc(Space::Nodes) => "ENOSPC nodes",
        Refusal::Enospc(Space::Meta) => "ENOSPC meta",
        Refusal::Enospc(Space::Pages) => "ENOSPC data",
    }
}
