//! Tests of the top call on media in memory: scripts of one worker, soaks, what a volume shows, its map as text and as a picture, the
//! bytes of a file, files that are put, how large tables become, what a volume has room for, and what is refused.
#![tactic(auto)]

#[cfg(test)]
mod asserting;
#[cfg(test)]
mod compares;
#[cfg(test)]
mod gets;
#[cfg(test)]
mod limits;
#[cfg(test)]
mod maps;
#[cfg(test)]
mod pictures;
#[cfg(test)]
mod puts;
#[cfg(test)]
mod refused;
#[cfg(test)]
mod rows;
#[cfg(test)]
mod soaks;
#[cfg(test)]
mod views;
