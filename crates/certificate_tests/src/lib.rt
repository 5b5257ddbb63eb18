//! Tests of certificate sources.
#![tactic(auto)]

#[cfg(test)]
mod changes;
#[cfg(test)]
mod limits;
#[cfg(test)]
mod prefixes;
#[cfg(test)]
mod told;
