//! Laws on what a stop leaves of a run, whatever an image is.
ghost use Rattle.nl_spec_image.specs.CrashLaws.{PrefixesStay};

/// A kind of images: as what each opens.
pub trait Stops {
    ghost use Rattle.std.specs.Prelude.{ℕ};
    ghost use Rattle.nl_tree.specs.Tree.{Tree};

    ghost opens: { Self → ℕ → Tree → Type 0 };
}

/// What opens as a prefix of a run opens as a prefix of a longer one.
pub fn prefixes_stay<I: Stops>()
    ensures { PrefixesStay I.opens }
{}
