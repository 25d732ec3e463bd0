//! Tests of a new volume, from outside its crate, and rows: the definitions of records, metadata, images and of what an opening tells give
//! the answers of worked examples, evaluated in the prover.
#![tactic(auto)]

#[cfg(test)]
mod making;
#[cfg(test)]
mod metadata;
#[cfg(test)]
mod records;
#[cfg(test)]
mod rows;
#[cfg(test)]
mod trees;
