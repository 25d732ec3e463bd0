//! Laws of images: which tree one represents, when it is consistent, and which blocks can be done without. Each is a function's contract.
ghost use Rattle.nl_spec_image.specs.Formatted.{FormattedIsConsistent};
ghost use Rattle.nl_spec_image.specs.Fresh.{FewFreshAreConsistent, FreshIsConsistent, SpareByCopies, SpareByFewPages};
ghost use Rattle.nl_spec_image.specs.HolderLists.{OneChangesHolders};
ghost use Rattle.nl_spec_image.specs.CrashConsistency.{CrashStateIsConsistent};
ghost use Rattle.nl_spec_image.specs.ReadablePages.{PagesAreReadable};
ghost use Rattle.nl_spec_image.specs.RightFor.{RepresentedIsOne, RightCharges, RightRepresents};
ghost use Rattle.nl_spec_image.specs.StandsLaws.{MetadataRepresentsTree, RepresentsOneTree, WalkDecidesConsistency, RepresentedHasCharges};

/// Metadata that is right represents a tree, also without an image: exactly one, whose charges are counts of what its pages have.
pub fn pages_represent()
    ensures some { RightRepresents }
    ensures one { RepresentedIsOne }
    ensures charges { RightCharges }
{}

/// Metadata of an image that is right represents a tree.
pub fn metadata_represents()
    ensures { MetadataRepresentsTree }
{}

/// An image represents at most one count and tree.
pub fn represents_one()
    ensures { RepresentsOneTree }
{}

/// Of images whose pages are whole exactly the consistent ones are without a first fault.
pub fn walk_finds_consistency()
    ensures { WalkDecidesConsistency }
{}

/// The charges of the tree that an image represents are those of the image's nodes.
pub fn charges_of_image()
    ensures { RepresentedHasCharges }
{}

/// A block whose pages have copies in other blocks can be done without.
pub fn spare_by_copies()
    ensures { SpareByCopies }
{}

/// With fewer readable pages than blocks, a block can be done without.
pub fn spare_by_few_pages()
    ensures { SpareByFewPages }
{}

/// The pages that formatting leaves open as the tree with only the root, on any legal geometry.
pub fn fresh_is_consistent()
    ensures { FreshIsConsistent }
{}

/// What a format leaves opens as the tree with only the root.
pub fn formatted_is_consistent()
    ensures { FormattedIsConsistent }
{}

/// At most four readable pages that a format left open as the tree with only the root.
pub fn few_fresh_are_consistent()
    ensures { FewFreshAreConsistent }
{}

/// Which pages of an image are the readable ones of a segment.
pub fn pages_are_readable()
    ensures { PagesAreReadable }
{}

/// What a device promises of what a stop leaves makes it consistent, where the committed map represents a tree and its pointers lead.
pub fn crash_leaves_consistent()
    ensures { CrashStateIsConsistent }
{}

/// One pointer that changes in the list of all changes those of its write sequence number, and no others.
pub fn one_changes_holders()
    ensures { OneChangesHolders }
{}
