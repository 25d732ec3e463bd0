//! Tests of media, in memory and in a store of bytes, of a scan, of tables of blocks and moved pages, and callbacks, from outside their
//! crates. Stores are files in the folder where the tests run, and in memory, with a kill within a write.
#![tactic(auto)]

#[cfg(test)]
mod blocks;
#[cfg(test)]
mod callbacks;
#[cfg(test)]
mod image_files;
#[cfg(test)]
mod kills;
#[cfg(test)]
mod medium;
#[cfg(test)]
mod nand;
#[cfg(test)]
mod remap;
#[cfg(test)]
mod rows;
#[cfg(test)]
mod scan;
#[cfg(test)]
mod victim;
