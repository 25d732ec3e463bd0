//! Tests of a core over a small full volume, which is built byte by byte and read back: rounds of reclaiming, what a stop within each of
//! their operations leaves, failures of the medium, pages that are programmed where few blocks are Free, background tasks, and syncs that go
//! on unit by unit beside each other.
#![tactic(auto)]

#[cfg(test)]
mod duties;
#[cfg(test)]
mod failing;
#[cfg(test)]
mod image;
#[cfg(test)]
mod programs;
#[cfg(test)]
mod reading;
#[cfg(test)]
mod rig;
#[cfg(test)]
mod rounds;
#[cfg(test)]
mod stops;
#[cfg(test)]
mod units;
#[cfg(test)]
mod visit;
