//! The shift register, which divides by the generator polynomial.

ghost use Rattle.std.specs.Prelude.{◌≡◌, ◌+◌, ◌<◌, length};
ghost use Rattle.rs01_poly.specs.Code.{encode, generator, lower};
ghost use Rattle.rs01_encode.specs.Register.{IsShifted};

use rs01_gf256::Gf;

// One step of the division. The register moves on by one place, and the feedback's multiple of the
// generator polynomial is added.
fn shift(register: &mut [u8], low: &[u8], byte: u8)
    requires some { 0 < length register.old }
    requires same { length low.now ≡ length register.old }
    ensures { IsShifted register.old register.new low.now byte }
{
    let feedback = Gf(byte ^ register[0]);
    let last = register.len() - 1;
    for k in 0..last {
        register[k] = register[k + 1] ^ feedback.mul(Gf(low[k])).0;
    }
    register[last] = feedback.mul(Gf(low[last])).0;
}

/// Writes the parity of the data, given the lower coefficients of the generator polynomial.
pub fn divide(data_: &[u8], low: &[u8], parity: &mut [u8])
    requires some { 0 < length parity.old }
    requires whole { length data_.now + length parity.old ≡ 255 }
    requires generator { low.now ≡ lower (generator (length parity.old)) }
    ensures { parity.new ≡ encode data_.now }
{
    parity.fill(0);
    for byte in data_ {
        shift(parity, low, *byte);
    }
}
