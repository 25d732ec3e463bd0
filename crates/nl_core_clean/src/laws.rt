//! The law of a cleaning in a round of reclaiming. A function stands for it.
ghost use Rattle.nl_core_clean.specs.Laws.{IsOfReclaimPass};

/// A cleaning that is done, or that finds nothing to clean, is what a round asks of its cleaning: so rounds gain, and they end.
pub fn a_cleaning_is_of_a_round()
    ensures { IsOfReclaimPass }
{}
