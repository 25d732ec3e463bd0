// Laws of an image that stands for a map. Each function stands for the law that its contract names.
ghost use Rattle.std.specs.Prelude.{◌≡◌, ℕ, ◌<◌, List, None, option_map};
ghost use Rattle.nl_field.specs.Medium.{first_physical, shape_of_image};
ghost use Rattle.nl_field.specs.Page.{Image};
ghost use Rattle.nl_field.specs.Space.{virtual_spare};
ghost use Rattle.nl_field.specs.Virtual.{or_zeros, virtual_bytes};
ghost use Rattle.nl_vseg.specs.Effects.{ImageKeepsMap, GainsValue};
ghost use Rattle.nl_vseg.specs.Maps.{IsAbove, Map, RepresentsMap, with_at};

/// An image that keeps a map stands for it, where the image before did. So each image that a stop within a write leaves stands
/// for the map before it, or for the map with the new value.
pub fn kept()
    ensures { (pages bound count : ℕ) (map : Map) (old c : Image) → RepresentsMap bound count old map → ImageKeepsMap pages bound map old c
        → RepresentsMap bound count c map }
{}

/// An image that takes a value under a number above those of its address stands for the map with that value.
pub fn taken()
    ensures { (pages bound count v s : ℕ) (main : List ℕ) (map : Map) (old c : Image) → RepresentsMap bound count old map
        → IsAbove bound old v s → GainsValue pages bound map v s main old c → RepresentsMap bound count c (with_at map v (s, main)) }
{}

/// Where an image stands for a map, each virtual address has the bytes that the map gives it.
pub fn stood()
    ensures { (image : Image) (map : Map) (v : ℕ) → v < (shape_of_image image).vaddrs
        → RepresentsMap (first_physical (shape_of_image image)) (shape_of_image image).vaddrs image map
        → virtual_bytes image v ≡ or_zeros (shape_of_image image) v (option_map (λ (x : ℕ × List ℕ). x.1) (map v)) }
{}

/// An image that stands for its map, and keeps the one before or has taken one value more into it, has a block of the virtual
/// segment that can be erased next.
pub fn spared()
    ensures keeps { (map : Map) (old c : Image) → 0 < c.pages
        → RepresentsMap (first_physical (shape_of_image c)) (shape_of_image c).vaddrs c map
        → ImageKeepsMap c.pages (first_physical (shape_of_image c)) map old c → virtual_spare c ≡ None → ⊥ }
    ensures takes { (v s : ℕ) (main : List ℕ) (map : Map) (old c : Image) → 0 < c.pages
        → RepresentsMap (first_physical (shape_of_image c)) (shape_of_image c).vaddrs c (with_at map v (s, main))
        → GainsValue c.pages (first_physical (shape_of_image c)) map v s main old c → virtual_spare c ≡ None → ⊥ }
{}
