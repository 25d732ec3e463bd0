//! Tests of the top call on media in memory, with workers that run beside each other.
#![tactic(auto)]

#[cfg(test)]
mod asserting;
#[cfg(test)]
mod gates;
#[cfg(test)]
mod held;
#[cfg(test)]
mod rounds;
#[cfg(test)]
mod stopped;
#[cfg(test)]
mod workload;
