//! A small value behind the turn lock: threads that take turns, and scripts that the workers run over it, under gates.
#![tactic(auto)]

#[cfg(test)]
mod closing;
#[cfg(test)]
mod counting;
#[cfg(test)]
mod failing;
#[cfg(test)]
mod gates;
#[cfg(test)]
mod line;
#[cfg(test)]
mod rounds;
#[cfg(test)]
mod run;
#[cfg(test)]
mod script;
#[cfg(test)]
mod turns;
#[cfg(test)]
mod work;
#[cfg(test)]
mod workers;
