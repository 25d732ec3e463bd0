//! A volume: what it is for an opening and the history of turns since, and its calls.
#![tactic(auto)]

mod closing;
mod duty;
mod effect;
mod making;
mod opened;
mod opening;
mod report;
mod served;
mod staging;
mod told;
mod volume;
mod walking;

pub use closing::Closed;
pub use nl_volume_format::Made;
pub use nl_volume_list::{TreeItem, TreeWalk};
pub use opened::{NotOpened, open};
pub use opening::Opened;
pub use report::VolumeReport;
pub use told::Told;
pub use volume::{Volume, volumes_can_cross};
