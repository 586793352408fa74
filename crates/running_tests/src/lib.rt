//! The tests of the running pair, whose rounds are driven by its two ends.
#![tactic(auto)]

#[cfg(test)]
mod calls;
#[cfg(test)]
mod ends;
#[cfg(test)]
mod held;
#[cfg(test)]
mod rounds;
#[cfg(test)]
mod shared;
#[cfg(test)]
mod sizes;
#[cfg(test)]
mod soak;
