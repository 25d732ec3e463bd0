//! Tests of the page-mapped device, on a medium of 32 blocks of 32 pages.
#![tactic(auto)]

#[cfg(test)]
mod rows;
