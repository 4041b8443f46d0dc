//! Tests of `rs01_workers`, over its public calls alone.
#![tactic(auto)]

#[cfg(test)]
mod tests;
