//! Tests of `rs01_verify`, over its public calls alone.
#![tactic(auto)]

#[cfg(test)]
mod tests;
