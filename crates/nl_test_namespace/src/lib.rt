//! Tests of the pages and the size of a file over a device, and of names of files on a volume that runs over one, on media in memory.
#![tactic(auto)]

#[cfg(test)]
mod asserting;
#[cfg(test)]
mod calls;
#[cfg(test)]
mod contents;
#[cfg(test)]
mod device;
#[cfg(test)]
mod files;
#[cfg(test)]
mod making;
#[cfg(test)]
mod names;
#[cfg(test)]
mod paths;
#[cfg(test)]
mod volume;
#[cfg(test)]
mod writer;
