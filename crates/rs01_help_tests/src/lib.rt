//! Tests of `rs01_help`, over its public calls alone.
#![tactic(auto)]

#[cfg(test)]
mod tests;
