//! Lists of the erased places of a codeword.

ghost use Rattle.std.specs.Prelude.{◌≡◌, ℕ, ◌<◌, ◌≤◌, ◌↔◌, IsTrue, length, take};
ghost use Rattle.rs01_erase.specs.Completion.{ArePlaces};
ghost use Rattle.rs01_erase.specs.LayerValue.{erased_places};

/// Whether these are places of a codeword that rise, each below 255: such are the lists that
/// `restore_codeword` and `Pattern::new` take.
pub fn are_places(erased: &[u8]) -> bool
    ensures { IsTrue result ↔ ArePlaces erased.now }
{
    for k in 0..erased.len() {
        if erased[k] == 255 || (k > 0 && erased[k - 1] >= erased[k]) {
            return false;
        }
    }
    true
}

/// Writes the places whose flag is set, rising, in front of the list, and gives their number. The
/// rest of the list is of no meaning. A codeword has 255 places, so there are at most as many flags.
pub fn places_of(flags: &[bool], places: &mut [u8; 255]) -> usize
    requires { length flags.now ≤ 255 }
    ensures places { take result places.new ≡ erased_places flags.now }
    ensures count { result ≡ length (erased_places flags.now) }
    ensures within { result ≤ length flags.now }
    ensures sound { ArePlaces (take result places.new) }
{
    let mut count = 0;
    for (place, flag) in flags.iter().enumerate() {
        if *flag {
            places[count] = place as u8;
            count += 1;
        }
    }
    count
}
