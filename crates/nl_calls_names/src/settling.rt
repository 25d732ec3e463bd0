ghost use Rattle.std.specs.Prelude.{◌≡◌, ◌≤◌, length};
ghost use Rattle.nl_calls_names.specs.Naming.{answer_of};
ghost use Rattle.nl_calls_names.specs.Settling.{CanDrop, IfGone, SettlesChange};

use crate::answer::Naming;
use crate::dropping::drop_node;
use nl_core::Core;
use nl_iface::MovingPages;
use nl_namespace::Change;

/// Ends a call that changed names, or did not. A node that lost its name is dropped, and its pointers, which stand behind the first ones,
/// await their free. Else only the first go on to do so.
pub(crate) fn settle<D: MovingPages>(core: &mut Core<D>, first: u32, answer: Change) -> Naming
    requires drop { IfGone answer (λ n. CanDrop n core.old) }
    requires first { first ≤ length core.old.freeing.items }
    ensures settles { SettlesChange first answer core.old core.new }
    ensures answer { result ≡ answer_of answer }
{
    match answer {
        Change::Changed { gone: Some(ino) } => {
            drop_node(&mut core.meta, &mut core.nodes, ino);
            Naming::Done
        }
        Change::Changed { gone: None } => {
            core.withdraw(first);
            Naming::Done
        }
        Change::No(refusal) => {
            core.withdraw(first);
            Naming::No(refusal)
        }
        Change::Fault => {
            core.withdraw(first);
            Naming::Fault
        }
        Change::Lost { wanted, found } => {
            core.withdraw(first);
            Naming::Lost { wanted, found }
        }
    }
}
