//! Tests of `rs01_fakes`, over its public calls alone.
#![tactic(auto)]

#[cfg(test)]
mod tests;
