//! Tests of `rs01_columns`, over its public calls alone.
#![tactic(auto)]

#[cfg(test)]
mod tests;
