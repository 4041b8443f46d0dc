//! How full the layers are.
ghost use Rattle.std.specs.Prelude.{◌≡◌, ◌^◌, ◌<◌, ◌≤◌, count_by, length, nat_lt};
ghost use Rattle.rs01_verify.specs.Fullness.{first_largest, fullest_of};

use rs01_report::Fullest;

// The first place of a list that no number of it is above.
fn largest(counts: &[u32]) -> usize
    ensures first { result ≡ first_largest counts.now }
    ensures within { 0 < length counts.now → result < length counts.now }
{
    let mut best = 0;
    for place in 0..counts.len() {
        if counts[place] > counts[best] {
            best = place;
        }
    }
    best
}

// How many numbers are above a bound.
fn above(counts: &[u32], bound: u32) -> usize
    ensures count { result ≡ count_by (λ count. nat_lt bound count) counts.now }
    ensures fits { result ≤ length counts.now }
{
    let mut found = 0;
    for count in counts {
        if *count > bound {
            found += 1;
        }
    }
    found
}

// The layer with most erased sectors and the number of layers beyond their bound, by the count of each layer.
pub fn fullest(counts: &[u32], parity: u32) -> Fullest
    requires some { 0 < length counts.now }
    requires fits { length counts.now < 2 ^ 32 }
    ensures { result ≡ fullest_of counts.now parity }
{
    let layer = largest(counts);
    Fullest {
        layer: layer as u32,
        erased: counts[layer],
        parity,
        beyond: above(counts, parity) as u32,
    }
}
