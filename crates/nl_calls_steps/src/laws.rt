//! Laws of the definitions. The function stands for the laws that its contract names.
ghost use Rattle.nl_calls_steps.specs.Steps.{ReadsAreAlike, StepsAreCores, StepsGo, StepsLeave, StepsRun, StepsThen};

use nl_iface::MovingPages;

/// A core is one again after a step that changes its metadata in memory, where each live page is held once then: it stands for the trees
/// that are committed, and runs as any tree for which its pages stand. A stop within leaves what was left before. One step after the other
/// is a step, and after reads all is as it was.
pub fn steps_go_on<D: MovingPages>()
    ensures cores { StepsAreCores D.Counts }
    ensures runs { StepsRun D.Counts }
    ensures trees { StepsGo D.Counts }
    ensures left { StepsLeave D.Counts }
    ensures after { StepsThen D.Counts }
    ensures reads { ReadsAreAlike D.Counts }
{}
