//! The count of calls is written into the super page.
ghost use Rattle.std.specs.Prelude.{◌≡◌, ◌<◌, ◌^◌, true, IsSome, Some};
ghost use Rattle.nl_field.specs.SuperPage.{super_bytes};
ghost use Rattle.nl_meta.specs.Pages.{has_room, page_of};
ghost use Rattle.nl_journal_commit.specs.Counting.{record_of, with_count};

use nl_field::{PageBuf, Shape, SuperRec};
use nl_meta::Meta;

/// Writes the count of calls into the super page of a volume, which is dirty from now on.
pub fn store_count(meta: &mut Meta, shape: &Shape, count: u64)
    requires there { IsSome (page_of meta.old 0) }
    requires below { count < 2 ^ 63 }
    ensures { meta.new ≡ with_count shape.now count meta.old }
{
    match meta.page_mut(0) {
        Some(page) => write(page, shape, count),
        None => {}
    }
}

fn write(page: &mut PageBuf, shape: &Shape, count: u64)
    requires { count < 2 ^ 63 }
    ensures main { page.new.main ≡ super_bytes (record_of shape.now count) }
    ensures spare { page.new.spare ≡ page.old.spare }
{
    let rec = SuperRec {
        version: 1,
        blocks: shape.blocks,
        pages: shape.pages,
        count,
    };
    rec.into_page(page, 0);
}
