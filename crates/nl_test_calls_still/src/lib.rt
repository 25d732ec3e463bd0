//! A core over the second device, whose memory has pages that never move: it programs, drops and commits, and answers the file calls of
//! one worker as a plain tree does.
#![tactic(auto)]

#[cfg(test)]
mod filling;
#[cfg(test)]
mod rows;
#[cfg(test)]
mod running;
