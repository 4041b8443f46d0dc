//! Tests of `rs01_table`, over its public calls alone.
#![tactic(auto)]

#[cfg(test)]
mod tests;
