//! Tests of `rs01_host`, over its public calls alone.
#![tactic(auto)]

#[cfg(test)]
mod tests;
