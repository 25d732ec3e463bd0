//! Laws of an opening: the walk looks at the committed pages, and a volume without a fault can be begun. A function stands for each law.
ghost use Rattle.std.specs.Prelude.{◌≡◌, ◌≢◌, ◌≤◌, ◌*◌, ◌==◌, true, All, IsSome, filter, length, map};
ghost use Rattle.std.specs.List.{AllPairs, list_any};
ghost use Rattle.nl_field.specs.ScanList.{is_lost_seen, owns_seen, physical_seen, physical_spare_seen};
ghost use Rattle.nl_field.specs.SpareRecord.{stamp_of};
ghost use Rattle.nl_recover.specs.Imaged.{IsBlankUnformed, ListsReadable, WalksTheImage};
ghost use Rattle.nl_recover.specs.Looking.{WalksAlike};
ghost use Rattle.nl_recover.specs.Retaining.{OfConsistent};
ghost use Rattle.nl_recover.specs.Starting.{WalkedStarts};

use nl_iface::VirtualPages;

/// Two maps of pages that are alike where a walk looks have one first fault.
pub fn walks_alike()
    ensures { WalksAlike }
{}

/// The pointers of a volume in which a walk found no fault can be retained by its device: the pages that a scan saw have a spare block for
/// their stamps, and a page of each of them; no two share a stamp or a name; they own their names, and few are lost.
pub fn kept_can_be_retained()
    ensures spare { OfConsistent (λ shape seen pointers. IsSome (physical_spare_seen shape seen (map (λ p. p.stamp) pointers))) }
    ensures found { OfConsistent (λ shape seen pointers.
        All (λ p. list_any (λ s. stamp_of s.rec == p.stamp) (physical_seen shape seen) ≡ true) pointers) }
    ensures differ { OfConsistent (λ shape seen pointers. AllPairs (λ p q. p.stamp ≢ q.stamp) pointers) }
    ensures names_differ { OfConsistent (λ shape seen pointers. AllPairs (λ p q. p.name ≢ q.name) pointers) }
    ensures own { OfConsistent (λ shape seen pointers. All (λ p. owns_seen shape seen p ≡ true) pointers) }
    ensures few_lost { OfConsistent (λ shape seen pointers. length (filter (is_lost_seen shape seen) pointers) ≤ 3 * shape.pages) }
{}

/// What an opening hands out can run where no write of an address failed before.
pub fn walked_starts<D: VirtualPages>()
    ensures { WalkedStarts D.Counts }
{}

/// Over a device that was started, a walk is one over the image of its medium; a scan lists no page exactly where none is readable, and
/// none is on a medium that was never formed.
pub fn openings_see_the_image()
    ensures walk { WalksTheImage }
    ensures listed { ListsReadable }
    ensures unformed { IsBlankUnformed }
{}
