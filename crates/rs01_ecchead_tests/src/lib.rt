//! Tests of `rs01_ecchead`, over its public calls alone.
#![tactic(auto)]

#[cfg(test)]
mod tests;
