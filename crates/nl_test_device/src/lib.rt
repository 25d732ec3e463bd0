//! Tests of a device, and of what the crates above it do over one, on a medium in memory of 32 blocks of 32 pages.
#![tactic(auto)]

#[cfg(test)]
mod above;
#[cfg(test)]
mod asserting;
#[cfg(test)]
mod blank_device;
#[cfg(test)]
mod cleaning;
#[cfg(test)]
mod device;
#[cfg(test)]
mod fetching;
#[cfg(test)]
mod journal;
#[cfg(test)]
mod reopening;
