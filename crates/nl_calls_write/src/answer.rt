use nl_field::InodeRec;
use nl_tree::Refusal;

/// Whether there is room for the pages of a call in a file, whose record this is.
#[derive(Clone, Copy, Debug)]
pub(crate) enum Fits {
    Fits(InodeRec),
    No(Refusal),
}
