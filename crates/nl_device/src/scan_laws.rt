//! Laws on what a device takes from its scan, and on who holds its pages after an opening. Each function stands for the law
//! that its contract names.
ghost use Rattle.std.specs.Prelude.{◌≡◌, ◌≢◌, ℕ, List, Option, map};
ghost use Rattle.std.specs.List.{AllPairs};
ghost use Rattle.nl_field.specs.ScanList.{is_lost_seen, owns_seen, physical_spare_seen, place_seen};
ghost use Rattle.nl_field.specs.declared.pointer.Pointer.{Pointer as PointerOf};
ghost use Rattle.nl_field.specs.declared.pointer.Tag.{Tag as TagOf};
ghost use Rattle.nl_field.specs.declared.seen.Seen.{Seen as SeenOf};
ghost use Rattle.nl_field.specs.declared.shape.Shape.{Shape as ShapeOf};
ghost use Rattle.nl_iface.specs.Holders.{IsCounted, IsHeld, tagged};
ghost use Rattle.nl_iface.specs.Moves.{Retains};
ghost use Rattle.nl_iface.specs.Names.{LivePage, Names};
ghost use Rattle.nl_device.specs.Kept.{kept_of_scan, place_among, spare_among};
ghost use Rattle.nl_device.specs.Reopened.{AreTagged, CanBeRetained, only_running};
ghost use Rattle.nl_device.specs.Retain.{CanRetain, is_stale, owns_name};

/// The spare block that a device picks for its pointers, and the place of each, are those that the list of its scan tells. So is
/// which pointers are lost, and which own their names.
pub fn places_of_a_scan()
    ensures spare { (shape : ShapeOf) (seen : List SeenOf) (stamps : List ℕ)
        → spare_among (kept_of_scan shape seen) stamps ≡ physical_spare_seen shape seen stamps }
    ensures place { (shape : ShapeOf) (seen : List SeenOf) (spare : Option ℕ) (p : PointerOf)
        → place_among (kept_of_scan shape seen) spare p ≡ place_seen shape seen spare p }
    ensures lost { (shape : ShapeOf) (seen : List SeenOf) (p : PointerOf)
        → is_stale (kept_of_scan shape seen) p ≡ is_lost_seen shape seen p }
    ensures owns { (shape : ShapeOf) (seen : List SeenOf) (p : PointerOf) → owns_name (kept_of_scan shape seen) p ≡ owns_seen shape seen p }
{}

/// Pointers that can be retained by the list of a scan can be retained by what a device keeps of it.
pub fn a_list_tells_what_can_be_retained()
    ensures { (shape : ShapeOf) (seen : List SeenOf) (pointers : List PointerOf) → CanBeRetained shape seen pointers
        → CanRetain (kept_of_scan shape seen) pointers }
{}

/// The pointers that an opening retains hold the live pages, each of them one, and each leads to its page, where no two share a
/// stamp, and each has the tag that was found.
pub fn retained_pointers_hold()
    ensures held { (running : List (TagOf × PointerOf)) (place : PointerOf → ℕ) (found : List (ℕ × LivePage)) (names : Names)
        → Retains (map tagged running) place found names
        → AllPairs (λ p q. p.stamp ≢ q.stamp) (map tagged running) → AreTagged place found running → IsHeld names (only_running running) }
    ensures counted { (running : List (TagOf × PointerOf)) (place : PointerOf → ℕ) (found : List (ℕ × LivePage)) (names : Names)
        → Retains (map tagged running) place found names → IsCounted names (only_running running) }
{}
