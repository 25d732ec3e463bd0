//! The numbers of a volume, from the geometry of its medium.
ghost use Rattle.std.specs.Prelude.{◌≡◌, ◌↔◌, IsTrue, IsSome, IfSome};
ghost use Rattle.nl_field.specs.Numbers.{ShapeBounds, is_legal, shape_for};

/// The numbers of a volume.
#[derive(Clone, Copy, Debug, PartialEq, Eq)]
pub struct Shape {
    pub blocks: u32,
    /// Pages of a block.
    pub pages: u32,
    pub nodes: u32,
    /// Pages of 16 nodes each.
    pub inode_pages: u32,
    /// Pages of the metadata pool.
    pub meta: u32,
    /// Virtual addresses.
    pub vaddrs: u32,
    /// Blocks of the virtual segment, the first ones.
    pub vblocks: u32,
    /// Blocks of the physical segment, the others.
    pub pblocks: u32,
    /// The most pages of all files.
    pub cap: u32,
}

/// The numbers of a volume of so many blocks of so many pages, where these are legal: 32 to 4096 blocks, 32 to 256
/// pages, and at most 262,144 pages in all.
#[tactic(auto, unfolding(crate::specs::Numbers::shape_for))]
pub fn shape_of(blocks: u32, pages: u32) -> Option<Shape>
    ensures legal { IsSome result ↔ IsTrue (is_legal blocks pages) }
    ensures numbers { IfSome result (λ shape. shape ≡ shape_for blocks pages) }
    ensures bounds { IfSome result ShapeBounds }
{
    if blocks < 32 || blocks > 4096 || pages < 32 || pages > 256 {
        return None;
    }
    let all = blocks * pages;
    if all > 262_144 {
        return None;
    }
    let nodes = all / 16;
    let inode_pages = nodes.div_ceil(16);
    let meta = all / 32;
    let vaddrs = 67 + inode_pages + meta;
    let vblocks = vaddrs.div_ceil(pages) + 4;
    let pblocks = blocks - vblocks;
    Some(Shape {
        blocks,
        pages,
        nodes,
        inode_pages,
        meta,
        vaddrs,
        vblocks,
        pblocks,
        cap: (pblocks - 4) * pages - 160,
    })
}
