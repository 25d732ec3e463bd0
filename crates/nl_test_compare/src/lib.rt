//! Tests of comparisons: the pairs that are told are those of a volume of its own which answers the same calls.
#![tactic(auto)]

#[cfg(test)]
mod pairs;
