//! Tests of `rs01_erase`, over its public calls alone.
#![tactic(auto)]

#[cfg(test)]
mod tests;
