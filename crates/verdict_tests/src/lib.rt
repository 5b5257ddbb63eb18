//! Tests of the call from three files to the line.
#![tactic(auto)]

#[cfg(test)]
mod tests;
