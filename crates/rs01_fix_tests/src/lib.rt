//! Tests of `rs01_fix`, over its public calls alone.
#![tactic(auto)]

#[cfg(test)]
mod tests;
