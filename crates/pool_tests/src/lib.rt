//! The tests of `rank_pool`, over what it exports.
#![tactic(auto)]

#[cfg(test)]
mod jobs;
#[cfg(test)]
mod meet;
#[cfg(test)]
mod runs;
