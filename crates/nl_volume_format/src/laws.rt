//! Laws of the definitions. Each function stands for the law that its contract names.
ghost use Rattle.nl_volume_format.specs.Making.{MakingsAreSafe};

/// What a stop leaves while a volume is made has no readable page, or none that spells its numbers, or is the empty volume.
pub fn makings_are_safe()
    ensures { MakingsAreSafe }
{}
