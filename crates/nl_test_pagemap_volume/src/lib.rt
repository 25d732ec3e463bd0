//! Tests of a volume on the page-mapped device, on a medium of 32 blocks of 32 pages: worked rows, and a file that is written over until
//! blocks have to be cleaned.
#![tactic(auto)]

#[cfg(test)]
mod making;
#[cfg(test)]
mod over;
#[cfg(test)]
mod rows;
