//! A law of the definitions. The function stands for the law that its contract names.
ghost use Rattle.nl_cmd_answers.specs.Rows.{PlacedRowsAreARun};

/// Rows that have the places behind a count are printed as the answers of a run on a volume that opened with it.
pub fn placed_rows_are_a_run()
    ensures { PlacedRowsAreARun }
{}
