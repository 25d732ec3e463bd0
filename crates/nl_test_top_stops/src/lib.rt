//! Tests of the top call on media in memory that stop, or that no volume opens on.
#![tactic(auto)]

#[cfg(test)]
mod asserting;
#[cfg(test)]
mod damaged;
#[cfg(test)]
mod erased;
#[cfg(test)]
mod puts;
#[cfg(test)]
mod saving;
#[cfg(test)]
mod stops;
