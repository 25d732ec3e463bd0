// Changes both lists of pairs at once: takes a pair out, leads one on, or puts one in.
ghost use Rattle.std.specs.Prelude.{◌≡◌, ℕ, ◌+◌, ◌<◌, ◌≤◌, length, insert, remove, slice_set, vec_capacity};
ghost use Rattle.nl_remap.specs.Links.{HasLink, link_at};
ghost use Rattle.nl_remap.specs.Table.{IsOld, IsPaired, pair, place_of};

use crate::links::{Link, place, put};

/// Takes the pair at a place of the list by old name out of both lists.
pub fn take_pair(by_old: &mut Vec<Link>, by_target: &mut Vec<Link>, at: usize)
    requires paired { IsPaired by_old.old.items by_target.old.items }
    requires within { at < length by_old.old.items }
    ensures paired { IsPaired by_old.new.items by_target.new.items }
    ensures items { by_old.new.items ≡ remove by_old.old.items at }
    ensures old_capacity { vec_capacity by_old.old ≤ vec_capacity by_old.new }
    ensures target_capacity { vec_capacity by_target.old ≤ vec_capacity by_target.new }
{
    let pair = by_old[at];
    let was = place(by_target, pair.to, pair.from);
    by_target.remove(was);
    by_old.remove(at);
}

/// Gives the pair at a place of the list by old name another target, in both lists.
pub fn lead_pair(by_old: &mut Vec<Link>, by_target: &mut Vec<Link>, at: usize, new: u32)
    requires paired { IsPaired by_old.old.items by_target.old.items }
    requires within { at < length by_old.old.items }
    requires free { IsOld by_old.old.items new → ⊥ }
    requires other { (link_at by_old.old.items at).to ≡ new → ⊥ }
    requires room { length by_old.old.items ≤ vec_capacity by_target.old }
    ensures paired { IsPaired by_old.new.items by_target.new.items }
    ensures items { by_old.new.items ≡ slice_set by_old.old.items at (pair (link_at by_old.old.items at).from new) }
    ensures old_capacity { vec_capacity by_old.old ≤ vec_capacity by_old.new }
    ensures target_capacity { vec_capacity by_target.old ≤ vec_capacity by_target.new }
{
    let pair = by_old[at];
    let was = place(by_target, pair.to, pair.from);
    by_target.remove(was);
    let now = place(by_target, new, pair.from);
    put(
        by_target,
        now,
        Link {
            from: new,
            to: pair.from,
        },
    );
    by_old[at] = Link {
        from: pair.from,
        to: new,
    };
}

/// Puts a pair into both lists. Neither of its numbers is an old name, and the old one is no target.
pub fn put_pair(by_old: &mut Vec<Link>, by_target: &mut Vec<Link>, old: u32, new: u32)
    requires paired { IsPaired by_old.old.items by_target.old.items }
    requires fresh { IsOld by_old.old.items old → ⊥ }
    requires free { IsOld by_old.old.items new → ⊥ }
    requires other { old ≡ new → ⊥ }
    requires led { (name : ℕ) → HasLink by_old.old.items (pair name old) → ⊥ }
    requires old_room { length by_old.old.items < vec_capacity by_old.old }
    requires target_room { length by_old.old.items < vec_capacity by_target.old }
    ensures paired { IsPaired by_old.new.items by_target.new.items }
    ensures items { by_old.new.items ≡ insert by_old.old.items (place_of by_old.old.items old) (pair old new) }
    ensures old_capacity { vec_capacity by_old.old ≤ vec_capacity by_old.new }
    ensures target_capacity { vec_capacity by_target.old ≤ vec_capacity by_target.new }
{
    let now = place(by_target, new, old);
    put(by_target, now, Link { from: new, to: old });
    let at = place(by_old, old, 0);
    put(by_old, at, Link { from: old, to: new });
}
