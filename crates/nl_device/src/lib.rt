//! A device over a flash medium: pages by virtual address, and pages under names that the device picks.
#![tactic(auto)]

mod callbacks;
mod counts;
mod device;
pub mod formed_laws;
mod kept;
pub mod map_laws;
mod marks;
mod moving_pages;
mod named_pages;
mod opening;
mod retain;
pub mod scan_laws;
mod stamps;
mod start;
mod told;
mod virtual_pages;

pub use device::Device;
pub use start::Started;
