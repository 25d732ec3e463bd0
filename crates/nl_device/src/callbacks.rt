// Takes pending callbacks away: those that are over, and those of pages that are gone.
ghost use Rattle.std.specs.Prelude.{◌≡◌, ◌+◌, if◌then◌else◌, length};
ghost use Rattle.nl_callbacks.specs.Pending.{ArePendingEntries, beside_stamp, unacknowledged};
ghost use Rattle.nl_device.specs.Callbacks.{AreCalled, DropsNames, CallbackNamesDiffer};
ghost use Rattle.nl_pseg.specs.Space.{IsWhole};

use nl_callbacks::Pending;
use nl_pseg::PSeg;

/// Takes away each callback that was handled by a transaction up to this one, with its old name.
pub fn drop_over(pending: &mut Pending, pseg: &mut PSeg, upto: u64)
    requires whole { IsWhole pseg.old }
    requires called { AreCalled pseg.old pending.old }
    ensures dropped { DropsNames pseg.old pseg.new pending.new }
    ensures callbacks { pending.new.callbacks ≡ unacknowledged upto pending.old.callbacks }
    ensures posted { pending.new.posted ≡ pending.old.posted }
{
    'over: while let Some(name) = pending.acknowledge_next(upto) {
        pseg.drop_name(name);
    }
}

/// Where a page is gone, takes away each callback of it, which has its stamp.
pub fn cancel_gone(pending: &mut Pending, stamp: u64, gone: bool)
    requires numbers { ArePendingEntries pending.old.callbacks pending.old.posted }
    requires names { CallbackNamesDiffer pending.old.callbacks }
    ensures numbers { ArePendingEntries pending.new.callbacks pending.new.posted }
    ensures callbacks { pending.new.callbacks ≡ if gone then beside_stamp pending.old.callbacks stamp else pending.old.callbacks }
    ensures posted { pending.new.posted ≡ pending.old.posted }
    ensures room { length pending.new.callbacks + pending.new.room ≡ length pending.old.callbacks + pending.old.room }
{
    if gone {
        'each: while let Some(callback) = pending.of_stamp(stamp) {
            pending.cancel(callback.before);
        }
    }
}
