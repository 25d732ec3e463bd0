//! Laws of a volume along its run: what a stop leaves of it, and when a step takes effect. A function stands for each law.
ghost use Rattle.nl_spec_crashes.specs.Laws.{CallFollowsRun, EffectFollowsRun, EndsDurable, OpeningFollowsRun, OpensConsistent, SyncFollowsRun};
ghost use Rattle.nl_spec_crashes.specs.Effects.{StepTakesEffect};

use nl_iface::MovingPages;

/// A volume follows the run of its calls from its opening on: through each call of its core, through the effect of a call, and as a sync is
/// answered with its last commit. So what a stop leaves at any moment was left before, or opens as the tree after the first calls of the run, as
/// many as the syncs up to that moment made durable and not more than were answered; such an image is consistent as that tree. After a commit
/// of all calls that left it firm, what is stored opens as the tree after all of them.
pub fn crashes_follow<D: MovingPages>()
    ensures opening { OpeningFollowsRun D.Counts }
    ensures call { CallFollowsRun D.Counts }
    ensures effect { EffectFollowsRun D.Counts }
    ensures sync { SyncFollowsRun D.Counts }
    ensures ends { EndsDurable D.Counts }
    ensures sound { OpensConsistent D.Counts }
{}

/// A step of a file call takes effect, once it is counted, where the pages represent what the call makes of the tree.
pub fn steps_take_effect<D: MovingPages>()
    ensures { StepTakesEffect D.Counts }
{}
