//! A page-mapped device over a flash medium: pages by virtual address, and pages under numbers that never change. A table in memory
//! leads each number to the page of the medium that it has. A call of its own cleans a block.
#![tactic(auto)]

mod cleaning;
mod copying;
mod counts;
mod making;
mod moving_pages;
mod named_pages;
mod pagemap;
mod placing;
mod virtual_pages;

pub use cleaning::Cleaning;
pub use pagemap::Pagemap;
