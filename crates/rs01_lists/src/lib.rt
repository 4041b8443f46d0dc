//! Lists that contracts see as the list of their items, and buffers of zeros.
#![tactic(auto)]

mod bytes;
mod listed;

pub use bytes::{copy_padded, push_padded, push_zeros, zeroed};
pub use listed::Listed;

#[cfg(test)]
mod tests;
