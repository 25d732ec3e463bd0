//! The wear of the pages that a scan saw.
ghost use Rattle.std.specs.Prelude.{◌≡◌};
ghost use Rattle.nl_field.specs.SpareRecord.{wear_of};
ghost use Rattle.nl_core_open.specs.Figures.{greatest_seen, least_seen};

use nl_field::SpareRec;
use nl_scan::ScanTables;

// The count of erases that a page was written with.
fn wear_on(rec: &SpareRec) -> u32
    ensures { result ≡ wear_of rec.now }
{
    match *rec {
        SpareRec::Virtual { wear, .. } => wear,
        SpareRec::Physical { wear, .. } => wear,
    }
}

/// The least wear of the pages, 0 where there is none.
pub fn least(scan: &ScanTables) -> u32
    ensures { result ≡ least_seen scan.now.seen }
{
    if scan.len() == 0 {
        return 0;
    }
    let mut least = wear_on(&scan.get(0).rec);
    'pages: for at in 1..scan.len() {
        least = least.min(wear_on(&scan.get(at).rec));
    }
    least
}

/// The greatest wear of the pages, 0 where there is none.
pub fn greatest(scan: &ScanTables) -> u32
    ensures { result ≡ greatest_seen scan.now.seen }
{
    let mut greatest = 0;
    'pages: for at in 0..scan.len() {
        greatest = greatest.max(wear_on(&scan.get(at).rec));
    }
    greatest
}
