//! A flash medium: what its calls do to its pages, and what a crash may leave of them.
#![tactic(auto)]

mod answers;
mod cell;
mod fate;
mod geometry;
mod interrupted;
mod mem_nand;
mod nand;
mod record;
mod restart;
pub mod rows;
mod stop;

pub use answers::{FormAnswer, ReadAnswer, WriteAnswer};
pub use geometry::Geometry;
pub use mem_nand::MemNand;
pub use nand::Nand;
pub use stop::{Cut, Stop};
