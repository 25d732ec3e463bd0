// The numbers of the least volume.
use nl_field::Shape;

/// A volume of 32 blocks of 32 pages: 64 nodes in addresses 67 to 70, and a pool in addresses 71 to 102.
pub const SHAPE: Shape = Shape {
    blocks: 32,
    pages: 32,
    nodes: 64,
    inode_pages: 4,
    meta: 32,
    vaddrs: 103,
    vblocks: 8,
    pblocks: 24,
    cap: 480,
};
