//! Tests of `rs01_repair`, over its public calls alone.
#![tactic(auto)]

#[cfg(test)]
mod tests;
