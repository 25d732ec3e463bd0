//! Comparisons of two readable pages: whether their records and their main bytes agree apart from wear.
ghost use Rattle.std.specs.Prelude.{◌≡◌, ℕ, IsTrue, true};
ghost use Rattle.nl_field.specs.SpareRecord.{is_spare};
ghost use Rattle.nl_field.specs.Scan.{without_wear};
ghost use Rattle.nl_field.specs.Page.{written};
ghost use Rattle.nl_scan.specs.Firsts.{is_alike, same_record};

use nl_field::{PageBuf, SpareRec, spare_into, spare_of};

fn unworn(rec: &SpareRec) -> SpareRec
    ensures { result ≡ without_wear rec.now }
{
    match *rec {
        SpareRec::Virtual { vaddr, stamp, .. } => SpareRec::Virtual {
            vaddr,
            stamp,
            wear: 0,
        },
        SpareRec::Physical { tag, stamp, .. } => SpareRec::Physical {
            tag,
            stamp,
            wear: 0,
        },
    }
}

/// Whether two records are the same apart from wear.
#[tactic(auto, using(crate::proofs::OneSpelling::one_spelling))]
pub fn same_but_wear(a: &SpareRec, b: &SpareRec) -> bool
    requires a { IsTrue (is_spare a.now) }
    requires b { IsTrue (is_spare b.now) }
    ensures bytes { result ≡ same_record a.now b.now }
    ensures same { result ≡ true → without_wear a.now ≡ without_wear b.now }
{
    let mut left = [0; 64];
    let mut right = [0; 64];
    spare_into(&unworn(a), &mut left);
    spare_into(&unworn(b), &mut right);
    left == right
}

/// Whether a lower page is readable, and agrees with a page that has this record: the same main bytes, and apart from wear
/// the same record.
pub fn are_alike(lower: &PageBuf, rec: &SpareRec, page: &PageBuf) -> bool
    requires { IsTrue (is_spare rec.now) }
    ensures { (number : ℕ) → result ≡ is_alike rec.now page.now.main (number, written lower.now) }
{
    match spare_of(lower.spare()) {
        Some(other) => lower.main() == page.main() && same_but_wear(&other, rec),
        None => false,
    }
}
