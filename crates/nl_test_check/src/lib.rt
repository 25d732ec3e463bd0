//! Small images, byte by byte, and what a check finds of them; and what the phases of the walk over pointers say of lists of pointers.
#![tactic(auto)]

#[cfg(test)]
mod full;
#[cfg(test)]
mod medium;
#[cfg(test)]
mod pointers;
#[cfg(test)]
mod several;
#[cfg(test)]
mod tests;
