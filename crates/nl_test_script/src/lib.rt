//! Tests of trees of files, of scripts, of soaks and of printed texts, from outside their crates, and rows: the definitions of trees and of
//! orders give the answers of worked examples.
#![tactic(auto)]

#[cfg(test)]
mod order_rows;
#[cfg(test)]
mod print;
#[cfg(test)]
mod rows;
#[cfg(test)]
mod script;
#[cfg(test)]
mod soak;
#[cfg(test)]
mod tree;
