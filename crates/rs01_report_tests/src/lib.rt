//! Tests of `rs01_report`, over its public calls alone.
#![tactic(auto)]

#[cfg(test)]
mod tests;
