//! Rows of the command line, computed from their definition.
ghost use Rattle.std.specs.Prelude.{◌≡◌, ◌∷◌, [], codes, None, Some};
ghost use Rattle.nl_cmd_words.specs.Command.{command_of};
ghost use Rattle.nl_cmd_words.specs.Paths.{path_word};
ghost use Rattle.nl_cmd_words.specs.declared.command.Command.TheVariants as command;

/// Each command without a path is named by its words.
pub fn commands()
    ensures run { command_of (codes "run" ∷ []) ≡ Some command.Run }
    ensures check { command_of (codes "check" ∷ []) ≡ Some command.Check }
    ensures tree { command_of (codes "tree" ∷ []) ≡ Some command.Tree }
    ensures report { command_of (codes "report" ∷ []) ≡ Some command.Report }
    ensures map { command_of (codes "map" ∷ []) ≡ Some command.Map }
    ensures map_svg { command_of (codes "map" ∷ codes "svg" ∷ []) ≡ Some command.MapSvg }
    ensures format { command_of (codes "format" ∷ codes "32" ∷ codes "032" ∷ []) ≡ Some (command.Format 32 32) }
    ensures soak { command_of (codes "soak" ∷ codes "0" ∷ codes "20000" ∷ codes "8" ∷ []) ≡ Some (command.Soak 0 20000 8) }
    ensures compare { command_of (codes "compare" ∷ codes "7" ∷ codes "200" ∷ codes "8" ∷ []) ≡ Some (command.Compare 7 200 8) }
{}

/// Words that name no command, or whose numbers are illegal, are none.
pub fn no_commands()
    ensures none { command_of [] ≡ None }
    ensures other { command_of (codes "runs" ∷ []) ≡ None }
    ensures map_of { command_of (codes "map" ∷ codes "png" ∷ []) ≡ None }
    ensures svg_of { command_of (codes "tree" ∷ codes "svg" ∷ []) ≡ None }
    ensures more { command_of (codes "run" ∷ codes "run" ∷ []) ≡ None }
    ensures few { command_of (codes "format" ∷ codes "32" ∷ []) ≡ None }
    ensures geometry { command_of (codes "format" ∷ codes "3" ∷ codes "32" ∷ []) ≡ None }
    ensures sign { command_of (codes "format" ∷ codes "+32" ∷ codes "32" ∷ []) ≡ None }
    ensures no_lines { command_of (codes "soak" ∷ codes "1" ∷ codes "0" ∷ codes "1" ∷ []) ≡ None }
    ensures many_lines { command_of (codes "soak" ∷ codes "1" ∷ codes "20001" ∷ codes "1" ∷ []) ≡ None }
    ensures many_workers { command_of (codes "soak" ∷ codes "1" ∷ codes "1" ∷ codes "9" ∷ []) ≡ None }
    ensures compare_nobody { command_of (codes "compare" ∷ codes "1" ∷ codes "1" ∷ codes "0" ∷ []) ≡ None }
    ensures compare_alone { command_of (codes "compare" ∷ codes "1" ∷ []) ≡ None }
{}

/// A command on a path is named by its word, and has that path.
#[tactic(auto, unfolding(nl_script::specs::Spellings::path_of, nl_field::specs::Names::is_name))]
pub fn path_commands()
    ensures get { command_of (codes "get" ∷ codes "/d/a" ∷ []) ≡ Some command.Get }
    ensures root { command_of (codes "get" ∷ codes "/" ∷ []) ≡ Some command.Get }
    ensures put { command_of (codes "put" ∷ codes "/d/a" ∷ []) ≡ Some command.Put }
    ensures path { path_word (codes "get" ∷ codes "/d/a" ∷ []) ≡ Some (codes "d" ∷ codes "a" ∷ []) }
    ensures root_path { path_word (codes "get" ∷ codes "/" ∷ []) ≡ Some [] }
{}

/// Such a word with no path, with none that a script may have, or with more is none.
#[tactic(auto, unfolding(nl_script::specs::Spellings::path_of, nl_field::specs::Names::is_name))]
pub fn no_path_commands()
    ensures alone { command_of (codes "get" ∷ []) ≡ None }
    ensures put_alone { command_of (codes "put" ∷ []) ≡ None }
    ensures put_no_path { command_of (codes "put" ∷ codes "a" ∷ []) ≡ None }
    ensures other { command_of (codes "got" ∷ codes "/a" ∷ []) ≡ None }
    ensures no_slash { command_of (codes "get" ∷ codes "a" ∷ []) ≡ None }
    ensures empty { command_of (codes "get" ∷ [] ∷ []) ≡ None }
    ensures two_slashes { command_of (codes "get" ∷ codes "/d//a" ∷ []) ≡ None }
    ensures last_slash { command_of (codes "get" ∷ codes "/d/" ∷ []) ≡ None }
    ensures dots { command_of (codes "get" ∷ codes "/.." ∷ []) ≡ None }
    ensures space { command_of (codes "get" ∷ codes "/a b" ∷ []) ≡ None }
    ensures control { command_of (codes "get" ∷ codes "/a\n" ∷ []) ≡ None }
    ensures more { command_of (codes "get" ∷ codes "/a" ∷ codes "/b" ∷ []) ≡ None }
    ensures no_path { path_word (codes "get" ∷ codes "a" ∷ []) ≡ None }
{}
