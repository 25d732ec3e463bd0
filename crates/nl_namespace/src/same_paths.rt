//! Comparisons of paths by their names.
ghost use Rattle.std.specs.Prelude.{◌≡◌};
ghost use Rattle.nl_tree.specs.Tree.{is_at_or_under, paths_eq};

use nl_field::Text;
use std::cmp::Ordering;

/// Whether both paths are one.
pub(crate) fn are_one(a: &[Text], b: &[Text]) -> bool
    ensures { result ≡ paths_eq a.now b.now }
{
    match a {
        [] => match b {
            [] => true,
            [_, ..] => false,
        },
        [x, xs @ ..] => match b {
            [] => false,
            [y, ys @ ..] => match x.bytes().cmp(y.bytes()) {
                Ordering::Equal => are_one(xs, ys),
                _ => false,
            },
        },
    }
}

/// Whether the second path is the first or lies under it.
pub(crate) fn lies_under(a: &[Text], b: &[Text]) -> bool
    ensures { result ≡ is_at_or_under a.now b.now }
{
    match a {
        [] => true,
        [x, xs @ ..] => match b {
            [] => false,
            [y, ys @ ..] => match x.bytes().cmp(y.bytes()) {
                Ordering::Equal => lies_under(xs, ys),
                _ => false,
            },
        },
    }
}
