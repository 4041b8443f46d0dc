//! Column programs, which work on many codewords side by side.
//!
//! A column holds a byte of each of 1024 codewords, and a program adds multiples of columns to
//! others, sixteen bytes at a time. What a program computes is linear, so the words that are 1 at
//! one place and 0 elsewhere tell it: a program is tried on these when it is made, and kept only
//! where it computes what it is made for.
#![tactic(auto)]

mod adding;
mod candidates;
mod certificate;
mod draft;
mod encoder;
mod fifteen;
mod group;
mod kept;
mod laying;
mod matrix;
mod pairs;
mod pattern;
mod products;
mod program;
mod running;
mod sixteen;
mod steps;
mod syndromes;
mod transform;
mod turning;

pub use adding::add_column;
pub use encoder::LayerEncoder;
pub use products::write_products;
pub use syndromes::LayerSyndromes;
