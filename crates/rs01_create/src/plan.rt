//! What the size of an image settles.
ghost use Rattle.std.specs.Prelude.{◌≡◌};

use rs01_layers::{Extent, Shape};

/// How far an image goes, and the shape of its error correction file.
#[derive(Clone, Copy)]
pub struct Plan {
    pub extent: Extent,
    pub shape: Shape,
    ghost shaped: { shape.sectors ≡ extent.sectors },
}
