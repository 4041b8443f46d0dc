//! Tests of `rs01_linear`, over its public calls alone.
#![tactic(auto)]

#[cfg(test)]
mod tests;
