//! Comparisons of paths.
ghost use Rattle.std.specs.Prelude.{◌≡◌};
ghost use Rattle.std.specs.Ordering.{nat_cmp};
ghost use Rattle.std.specs.Cmp.Lexicographic.{slice_cmp};
ghost use Rattle.nl_tree.specs.Tree.{path_cmp, paths_eq, is_at_or_under};

use nl_field::Text;
use std::cmp::Ordering;

/// The order of two paths by their names.
pub(crate) fn compare(a: &[Text], b: &[Text]) -> Ordering
    ensures { result ≡ path_cmp a.now b.now }
{
    match a {
        [] => match b {
            [] => Ordering::Equal,
            [_, ..] => Ordering::Less,
        },
        [x, xs @ ..] => match b {
            [] => Ordering::Greater,
            [y, ys @ ..] => match compare_names(x, y) {
                Ordering::Equal => compare(xs, ys),
                other => other,
            },
        },
    }
}

fn compare_names(a: &Text, b: &Text) -> Ordering
    ensures { result ≡ slice_cmp nat_cmp a.now b.now }
{
    a.bytes().cmp(b.bytes())
}

/// Whether two paths have the same names.
pub fn are_equal(a: &[Text], b: &[Text]) -> bool
    ensures { result ≡ paths_eq a.now b.now }
{
    compare(a, b) == Ordering::Equal
}

/// Whether the second path is the first or lies under it.
pub fn is_under(a: &[Text], b: &[Text]) -> bool
    ensures { result ≡ is_at_or_under a.now b.now }
{
    if b.len() < a.len() {
        return false;
    }
    are_equal(a, &b[..a.len()])
}
