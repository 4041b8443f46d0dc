//! Tests of `rs01_create`, over its public calls alone.
#![tactic(auto)]

#[cfg(test)]
mod tests;
