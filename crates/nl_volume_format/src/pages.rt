// The two pages of a new volume.
ghost use Rattle.std.specs.Prelude.{◌≡◌, ◌≤◌};
ghost use Rattle.nl_field.specs.SpareRecord.{spare_bytes};
ghost use Rattle.nl_field.specs.declared.spare.SpareRec.TheVariants.{Virtual};
ghost use Rattle.nl_spec_image.specs.Formatted.{formatted_root, formatted_super};

use nl_field::{InodeRec, Kind, PageBuf, Pointer, SpareRec, SuperRec, spare_into};

// Makes the page that of a virtual address under a stamp, written in a block that was never erased.
fn put_spare(page: &mut PageBuf, vaddr: u32, stamp: u64)
    requires { (1 ≤ stamp) × (stamp ≤ 2) }
    ensures main { page.new.main ≡ page.old.main }
    ensures spare { page.new.spare ≡ spare_bytes (Virtual vaddr stamp 0) }
{
    let mut spare = [0u8; 64];
    spare_into(
        &SpareRec::Virtual {
            vaddr,
            stamp,
            wear: 0,
        },
        &mut spare,
    );
    page.set_spare(&spare);
}

/// The first inode page of a new volume: an empty root.
#[tactic(auto, unfolding(nl_spec_image::specs::Formatted::formatted_root))]
pub fn put_root(page: &mut PageBuf)
    ensures { page.new ≡ formatted_root }
{
    page.clear();
    InodeRec {
        kind: Kind::Dir,
        generation: 0,
        size: 0,
        direct: [Pointer { name: 0, stamp: 0 }; 8],
        addresses: [0; 16],
    }
    .into_page(page, 0);
    put_spare(page, 67, 1);
}

/// The super page of a new volume.
#[tactic(auto, unfolding(nl_spec_image::specs::Formatted::formatted_super))]
pub fn put_super(page: &mut PageBuf, blocks: u32, pages: u32)
    ensures { page.new ≡ formatted_super blocks pages }
{
    SuperRec {
        version: 1,
        blocks,
        pages,
        count: 0,
    }
    .into_page(page, 0);
    put_spare(page, 0, 2);
}
