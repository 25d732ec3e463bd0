//! What an opening takes from a scan.
pub mod fill;
pub mod own;
pub mod segments;
pub mod soil;
pub mod spare;
