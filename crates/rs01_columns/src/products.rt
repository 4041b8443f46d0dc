//! The table of products, by which a column is multiplied.

ghost use Rattle.std.specs.Prelude.{◌≡◌, ◌<◌, length};
ghost use Rattle.rs01_columns.specs.Lanes.{HoldsProducts, product_there};

use rs01_gf256::Gf;
use rs01_lists::zeroed;
use std::alloc::{AllocError, Global};

// The product that stands at a place of the table.
fn product_at(place: usize) -> u8
    requires { place < 8192 }
    ensures { result ≡ product_there place }
{
    let c = (place / 32) as u8;
    let n = (place % 32) as u8;
    if n < 16 {
        Gf(c).mul(Gf(n)).0
    } else {
        Gf(c).mul(Gf(16 * (n - 16))).0
    }
}

/// Writes the products of each element by the low and by the high nibbles. The table has 8192
/// bytes.
pub fn write_products(table: &mut [u8])
    requires { length table.old ≡ 8192 }
    ensures { HoldsProducts table.new }
{
    for place in 0..table.len() {
        table[place] = product_at(place);
    }
}

/// The table of products.
#[derive(Drop)]
pub struct Products {
    bytes: Vec<u8>,
    ghost right: { HoldsProducts bytes.items },
}

impl Products {
    /// Makes the table.
    pub fn new(alloc: Global) -> Result<Products, AllocError> {
        let mut bytes = zeroed(alloc, 8192)?;
        write_products(&mut bytes);
        Ok(Products { bytes })
    }

    /// Its bytes.
    #[inline(always)]
    pub fn bytes(&self) -> &[u8]
        ensures { HoldsProducts result.now }
    {
        self.bytes.as_slice()
    }
}
