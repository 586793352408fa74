//! The tests of the crates of pairs, over what these export.
#![tactic(auto)]

#[cfg(test)]
mod checks;
#[cfg(test)]
mod events;
#[cfg(test)]
mod geometry;
#[cfg(test)]
mod matching;
#[cfg(test)]
mod plain;
#[cfg(test)]
mod requests;
#[cfg(test)]
mod running;
#[cfg(test)]
mod scripts;
#[cfg(test)]
mod sizes;
#[cfg(test)]
mod words;
