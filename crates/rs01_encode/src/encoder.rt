//! The encoder that keeps its generator polynomial from codeword to codeword.

ghost use Rattle.std.specs.Prelude.{◌≡◌, ℕ, ◌+◌, ◌≤◌, ◌++◌, length};
ghost use Rattle.rs01_poly.specs.Code.{IsCodeword, encode, generator, lower};

use crate::register::divide;
use rs01_poly::generator;
use std::marker::Model;

/// The encoder of codewords with a given number of parity bytes, as which a contract sees it.
/// It keeps the generator polynomial, which many codewords then share.
#[derive(Drop)]
pub struct Encoder {
    parity_count: usize,
    coefficients: [u8; 101],
}

impl Model for Encoder {
    ghost use Rattle.std.specs.Prelude.{ℕ};
    ghost use Rattle.rs01_encode.specs.Register.{HoldsGenerator};

    ghost Value = { ℕ };

    ghost view = { λ e. e.parity_count };

    ghost invariant = { λ e. HoldsGenerator e.parity_count e.coefficients };
}

impl Encoder {
    /// The encoder for `r` parity bytes.
    pub fn new(r: u32) -> Encoder
        requires least { 8 ≤ r }
        requires most { r ≤ 100 }
        ensures { result ≡ r }
    {
        let mut coefficients = [0u8; 101];
        generator(r, &mut coefficients);
        Encoder {
            parity_count: r as usize,
            coefficients,
        }
    }

    /// The coefficients of the generator polynomial below the leading one, the highest first.
    pub fn low(&self) -> &[u8]
        ensures { result.now ≡ lower (generator self.now) }
    {
        &self.coefficients[1..self.parity_count + 1]
    }

    /// Writes the parity of the data, the coefficient of the highest power first.
    pub fn encode(&self, data_: &[u8], parity: &mut [u8])
        requires count { length parity.old ≡ self.now }
        requires whole { length data_.now + length parity.old ≡ 255 }
        ensures parity { parity.new ≡ encode data_.now }
        ensures codeword { IsCodeword (data_.now ++ parity.new) (length parity.old) }
    {
        let low = &self.coefficients[1..self.parity_count + 1];
        divide(data_, low, parity);
    }
}

/// Writes the parity of one codeword's data, the coefficient of the highest power first.
pub fn encode_codeword(data_: &[u8], parity: &mut [u8])
    requires whole { length data_.now + length parity.old ≡ 255 }
    requires least { 8 ≤ length parity.old }
    requires most { length parity.old ≤ 100 }
    ensures parity { parity.new ≡ encode data_.now }
    ensures codeword { IsCodeword (data_.now ++ parity.new) (length parity.old) }
{
    let r = parity.len() as u32;
    Encoder::new(r).encode(data_, parity);
}

#[cfg(test)]
mod tests {
    use super::*;

    // The parity of data that is the constant 1 is the generator polynomial below its leading
    // coefficient.
    #[test]
    fn last_data_byte_gives_the_generator(rt: HostRuntime) {
        let mut data_ = [0u8; 223];
        data_[222] = 1;
        let mut parity = [7u8; 32];
        encode_codeword(&data_, &mut parity);
        assert_eq!(rt; parity[0], 91);
        assert_eq!(rt; parity[1], 127);
        assert_eq!(rt; parity[2], 86);
        assert_eq!(rt; parity[30], 91);
        assert_eq!(rt; parity[31], 1);
    }

    #[test]
    fn zeros_give_zeros(rt: HostRuntime) {
        let encoder = Encoder::new(100);
        let mut parity = [7u8; 100];
        encoder.encode(&[0u8; 155], &mut parity);
        for byte in parity {
            assert_eq!(rt; byte, 0);
        }
    }
}
