//! Values from their power sums.

ghost use Rattle.std.specs.Prelude.{◌≡◌, ◌≢◌, ℕ, ◌-◌, ◌<◌, ◌≤◌, ◌↔◌, List, ◌∷◌, All, IsTrue, bit_xor, length, slice_index};
ghost use Rattle.rs01_gf256.specs.Field.{times};
ghost use Rattle.rs01_erase.specs.PowerSums.{AreQuotients, AreSolvedBy, AreValues, Differ, power_sum};

use rs01_gf256::Gf;

// Adds to each sum the one before it times `x`. By this the value whose locator is `x` is gone from
// the sums, and each other value is multiplied by the sum of its locator and `x`.
fn eliminate(first: u8, sums: &mut [u8], x: Gf)
    ensures { (j : ℕ) → j < length sums.old → slice_index sums.new j
        ≡ bit_xor (slice_index sums.old j) (times x.0 (slice_index (first ∷ sums.old) j)) }
{
    let mut before = first;
    for sum in sums.iter_mut() {
        let here = *sum;
        *sum = here ^ x.mul(Gf(before)).0;
        before = here;
    }
}

// Divides each value by the sum of its locator and `x`, and gives the sum of the new values.
fn divide(values: &mut [u8], locators: &[u8], x: Gf) -> u8
    requires same { length values.old ≡ length locators.now }
    requires apart { (k : ℕ) → k < length locators.now → slice_index locators.now k ≢ x.0 }
    ensures quotients { AreQuotients values.new values.old locators.now x.0 }
    ensures sum { result ≡ power_sum 0 values.new locators.now }
{
    let mut total = 0;
    for k in 0..locators.len() {
        let quotient = Gf(values[k]).mul(Gf(locators[k]).add(x).inv());
        values[k] = quotient.0;
        total ^= quotient.0;
    }
    total
}

// Whether every sum is 0.
fn all_zero(sums: &[u8]) -> bool
    ensures { IsTrue result ↔ All (λ sum. sum ≡ 0) sums.now }
{
    sums.iter().all(|sum| *sum == 0)
}

/// Finds the values with these power sums, one for each locator, and writes them over the first
/// sums. False where there are none.
pub fn solve(sums: &mut [u8], locators: &[u8]) -> bool
    requires enough { length locators.now ≤ length sums.old }
    requires differ { Differ locators.now }
    ensures solved { IsTrue result → AreSolvedBy sums.old sums.new locators.now }
    ensures found { (values : List ℕ) → AreValues sums.old values locators.now → IsTrue result }
{
    match locators {
        [] => all_zero(sums),
        [first, others @ ..] => {
            let x = Gf(*first);
            let (head, rest) = sums.split_at_mut(1);
            eliminate(head[0], rest, x);
            if !solve(rest, others) {
                return false;
            }
            head[0] ^= divide(&mut rest[..others.len()], others, x);
            true
        }
    }
}
