//! Where the sectors of an image and the parity bytes of its error correction file lie, and what a
//! layer's work is given and gives.
#![tactic(auto)]

mod blocks;
mod extent;
mod input;
pub mod laws;
mod lists;
mod shape;
mod task;

pub use blocks::{block_into, column_of_blocks_into, push_block, push_layer};
pub use extent::Extent;
pub use input::LayerInput;
pub use lists::{Bytes, Flags, Placed, PlacedList, SumList};
pub use shape::{Shape, ShapeRefusal};
pub use task::{LayerOut, LayerTask};

#[cfg(test)]
mod tests;
