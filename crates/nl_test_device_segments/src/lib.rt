//! Tests of the two segments of a device, on a medium of 32 blocks of 32 pages, and that medium.
#![tactic(auto)]

#[cfg(test)]
mod addressed;
pub mod medium;
#[cfg(test)]
mod named;
