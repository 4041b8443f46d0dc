//! What is read in the lines that a run has put.
ghost use Rattle.std.specs.Prelude.{◌≡◌, ◌≤◌, length, option_map};
ghost use Rattle.std.specs.List.{prefix_len};
ghost use Rattle.rs01_words.specs.Value.{is_digit};
ghost use Rattle.rs01_help.specs.Reading.{after, fullest_in, holds, number_after, number_at};

use rs01_words::{is_digit, number_up_to};

/// What stands behind a text where it stands first.
pub(crate) fn after<'a>(text: &[u8], bytes: &'a [u8]) -> Option<&'a [u8]>
    ensures { option_map (λ x. x.now) result ≡ after text.now bytes.now }
{
    for at in 0..bytes.len() {
        if bytes[at..].starts_with(text) {
            return Some(&bytes[at + text.len()..]);
        }
    }
    None
}

/// Whether a text stands somewhere.
pub(crate) fn holds(text: &[u8], bytes: &[u8]) -> bool
    ensures { result ≡ holds text.now bytes.now }
{
    after(text, bytes).is_some()
}

// How many digits stand first.
fn digit_count(bytes: &[u8]) -> usize
    ensures value { result ≡ prefix_len is_digit bytes.now }
    ensures within { result ≤ length bytes.now }
{
    for at in 0..bytes.len() {
        if !is_digit(bytes[at]) {
            return at;
        }
    }
    bytes.len()
}

// The number whose digits stand first.
fn number_at(bytes: &[u8]) -> Option<u64>
    ensures { result ≡ number_at bytes.now }
{
    number_up_to(&bytes[..digit_count(bytes)], u64::MAX)
}

/// The number behind a text.
#[tactic(auto, unfolding(crate::specs::Reading::number_after))]
pub(crate) fn number_after(text: &[u8], bytes: &[u8]) -> Option<u64>
    ensures { result ≡ number_after text.now bytes.now }
{
    match after(text, bytes) {
        None => None,
        Some(rest) => number_at(rest),
    }
}

/// How many sectors of the fullest layer are erased, and how many can be restored, by its line.
#[tactic(auto, unfolding(crate::specs::Reading::fullest_in))]
pub(crate) fn fullest_in(bytes: &[u8]) -> Option<(u64, u64)>
    ensures { result ≡ fullest_in bytes.now }
{
    let Some(rest) = after(b"\nfullest layer ", bytes) else {
        return None;
    };
    match (number_after(b": ", rest), number_after(b" of ", rest)) {
        (Some(erased), Some(parity)) => Some((erased, parity)),
        _ => None,
    }
}
