//! Boxed drives in order.
ghost use Rattle.std.specs.Prelude.{◌<◌, ◌≤◌, ◌^◌, length};

use rs01_outside::Drive;

/// Drives in order, at most 65,536, and how many reads were asked of them.
#[derive(Drop)]
pub struct Rack {
    pub(crate) drives: Vec<Box<dyn Drive>>,
    pub(crate) asks: u128,
    ghost few: { length drives.items ≤ 65536 },
    ghost counted: { asks < 2 ^ 128 },
}
