ghost use Rattle.std.specs.Prelude.{◌≡◌, ◌<◌, length};
ghost use Rattle.nl_flight.specs.Flight.{IsFlight, begun, of_worker, with_line};
ghost use Rattle.nl_core.specs.Core.{IsCore};
ghost use Rattle.nl_calls_steps.specs.Installing.{with_landed};
ghost use Rattle.nl_calls_steps.specs.Steps.{Steps};

use nl_core::Core;
use nl_iface::MovingPages;
use nl_spec_commits::laws::device_stands;

/// Ends a worker's line whose pages a file has by now: the worker has no line and nothing in flight.
pub fn end_line<D: MovingPages>(core: &mut Core<D>, worker: u8)
    requires core { IsCore D.Counts (with_landed core.old worker (length (of_worker core.old.flight worker).pages)) }
    requires lines { IsFlight core.old.flight }
    requires known { worker < 8 }
    ensures core { IsCore D.Counts core.new }
    ensures steps { Steps D.Counts core.old core.new }
    ensures ended { core.new ≡ record core.old { flight = with_line core.old.flight worker (begun 0) } }
{
    device_stands(&core.device);
    core.end_line(worker);
}
