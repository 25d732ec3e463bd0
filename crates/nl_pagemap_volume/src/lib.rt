//! One file system on a page-mapped device, in memory and on one thread: its calls come one after the other, and each is answered as a
//! plain tree answers it.
#![tactic(auto)]

mod answering;
mod cleaning;
mod counts;
mod freeing;
mod serving;
mod volume;

pub use serving::serve_call;
pub use volume::MapVolume;
