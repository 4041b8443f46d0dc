//! The bytes of the image that a demonstration makes.
ghost use Rattle.std.specs.Prelude.{◌≡◌, ◌+◌, ◌/◌, ◌^◌, ℕ, length};
ghost use Rattle.rs01_demo.specs.Generator.{next, stretch, value_at};

// The value that follows a value.
fn next(value: u64) -> u64
    ensures { result ≡ next value }
{
    value
        .wrapping_mul(6364136223846793005)
        .wrapping_add(1442695040888963407)
}

// The byte that a value stands for: its eight highest bits.
fn byte_of(value: u64) -> u8
    ensures { result ≡ value / 2 ^ 56 }
{
    (value >> 56) as u8
}

// Fills a buffer with the bytes that follow a value, and gives the value of the last one.
pub fn fill(value: u64, into: &mut [u8]) -> u64
    ensures bytes { (number from : ℕ) → value ≡ value_at number from
        → into.new ≡ stretch number from (length into.old) }
    ensures last { (number from : ℕ) → value ≡ value_at number from
        → result ≡ value_at number (from + length into.old) }
{
    let mut last = value;
    for place in 0..into.len() {
        last = next(last);
        into[place] = byte_of(last);
    }
    last
}
