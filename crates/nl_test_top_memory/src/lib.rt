//! A test of the top call of which each allocation may fail.
#![tactic(auto)]

#[cfg(test)]
mod wanting;
