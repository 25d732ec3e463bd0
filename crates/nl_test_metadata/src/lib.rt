//! Tests of records and of streams, and of metadata pages, nodes, pointers, directories and lines in flight, from outside their crates.
#![tactic(auto)]

#[cfg(test)]
mod asserting;
#[cfg(test)]
mod dir;
#[cfg(test)]
mod field;
#[cfg(test)]
mod flight;
#[cfg(test)]
mod indirect;
#[cfg(test)]
mod inode;
#[cfg(test)]
mod io;
#[cfg(test)]
mod least;
#[cfg(test)]
mod meta;
#[cfg(test)]
mod super_block;
