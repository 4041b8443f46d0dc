//! Tests of `rs01_top`, over its public calls alone.
#![tactic(auto)]

#[cfg(test)]
mod tests;
