//! The sectors that are still unread, and the longest run of them.
#![tactic(auto)]

pub mod laws;
mod summary;
mod tree;
mod unread;

pub use unread::Unread;

#[cfg(test)]
mod tests;
