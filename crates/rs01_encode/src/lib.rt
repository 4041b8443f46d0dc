//! The systematic encoder of the code: the parity of a codeword's data, by a shift register, and of
//! a layer's 2048 codewords.
//!
//! A codeword has 255 bytes. Of these 155 to 247 are data and come first; the 8 to 100 bytes of
//! parity after them are what the data, as the upper coefficients of a polynomial, leave when it is
//! divided by the generator polynomial.
#![tactic(auto)]

mod columns;
mod encoder;
mod register;
mod task;

pub use columns::encode_columns;
pub use encoder::{Encoder, encode_codeword};
pub use task::{EncodeTask, PlainEncodeTask};
