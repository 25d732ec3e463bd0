//! The law of the definitions: a function stands for it.
ghost use Rattle.std.specs.Prelude.{List};
ghost use Rattle.nl_map.specs.Runs.{RunsCover};
ghost use Rattle.nl_map_pages.specs.declared.look.Look.{Look};

/// The bars of a row have each page once, as it is found, in the order of pages.
pub fn bars_cover_each_row()
    ensures { (looks : List Look) → RunsCover looks }
{}
