// The device, and what it is seen as.
use crate::kept::Kept;
use nl_callbacks::Pending;
use nl_field::{PageBuf, Shape};
use nl_nand::Nand;
use nl_pseg::PSeg;
use nl_vseg::VSeg;

/// A flash medium with its two segments: pages by virtual address in the first blocks, and pages under names in the last.
#[derive(Drop)]
pub struct Device<M: Nand> {
    pub(crate) media: M,
    pub(crate) shape: Shape,
    pub(crate) vseg: VSeg,
    pub(crate) pseg: PSeg,
    /// The callbacks whose transaction was not acknowledged yet.
    pub(crate) pending: Pending,
    /// The stamp of the next page.
    pub(crate) next: u64,
    /// What the scan of its start saw in the physical segment, until a page is programmed there: a block may be erased then.
    pub(crate) kept: Kept,
    /// The page that a move reads.
    pub(crate) buf: PageBuf,
}
