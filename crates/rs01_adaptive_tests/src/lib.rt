//! Tests of `rs01_adaptive`, over its public calls alone.
#![tactic(auto)]

#[cfg(test)]
mod tests;
