//! The numbers of a medium.

/// The blocks of a medium, and the pages of one block. Both are 0 where the medium was never formed.
#[derive(Clone, Copy, Debug, PartialEq, Eq)]
pub struct Geometry {
    pub blocks: u32,
    pub pages: u32,
}
