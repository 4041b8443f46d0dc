//! The number of sectors that the drives agree on.
ghost use Rattle.std.specs.Prelude.{◌≡◌, ◌<◌, ◌++◌, ◌∷◌, [], ℕ, List, length, map};
ghost use Rattle.rs01_rack.specs.Rack.{AllTell, ChangesAt, views_of};
ghost use Rattle.rs01_rack.specs.State.{rack_state};
ghost use Rattle.rs01_rack.specs.Seen.{IsSeen};
ghost use Rattle.rs01_rack.specs.Counting.{GivesNumber, HasCause, IsCounted, number_of};

use crate::rack::Rack;
use crate::refusal::RackRefusal;
use rs01_outside::{Drive, Failed};

// What is kept of the numbers that drives gave: the first, and the first that isn't that one.
#[derive(Clone, Copy)]
struct Seen {
    first: Option<u32>,
    other: Option<u32>,
}

// One number more.
fn and_then(seen: Seen, number: u32) -> Seen
    ensures { (numbers : List ℕ) → IsSeen seen numbers → IsSeen result (numbers ++ number ∷ []) }
{
    match seen.first {
        None => Seen {
            first: Some(number),
            other: None,
        },
        Some(first) => {
            let differs = if number == first { None } else { Some(number) };
            Seen {
                first: Some(first),
                other: seen.other.or(differs),
            }
        }
    }
}

// The number of sectors of one drive.
fn count_box(drive: &mut Box<dyn Drive>) -> Result<u32, Failed>
    ensures { IsCounted result (state drive.old) (state drive.new) }
{
    drive.sectors()
}

// The number of sectors of the drive at a place.
fn count_place(drives: &mut Vec<Box<dyn Drive>>, place: usize) -> Result<u32, Failed>
    requires { place < length drives.old.items }
    ensures { ChangesAt place (IsCounted result)
        (map state drives.old.items) (map state drives.new.items) }
{
    count_box(&mut drives[place])
}

impl Rack {
    /// The number of sectors that all drives have. The drives are asked in order, each once, up to
    /// the first that fails.
    ///
    /// `NoDrive` comes exactly where there is no drive. `Failed` names the first drive that failed,
    /// whose count of faults rose. `Differ` comes exactly where no drive failed and a number isn't
    /// that of drive 0; it has that number and the first other one. No other count of faults
    /// changes, no view changes, and no read is counted. Where all drives tell, their views decide
    /// the answer.
    pub fn sectors(&mut self) -> Result<u32, RackRefusal>
        ensures asked { GivesNumber result (rack_state state self.old) (rack_state state self.new) }
        ensures cause { HasCause result (rack_state state self.old) (rack_state state self.new) }
        ensures told { AllTell (rack_state state self.new)
            → result ≡ number_of (views_of (rack_state state self.old)) }
    {
        let mut seen = Seen {
            first: None,
            other: None,
        };
        for place in 0..self.drives.len() {
            match count_place(&mut self.drives, place) {
                Ok(number) => seen = and_then(seen, number),
                Err(Failed) => return Err(RackRefusal::Failed(place)),
            }
        }
        match (seen.first, seen.other) {
            (None, _) => Err(RackRefusal::NoDrive),
            (Some(number), None) => Ok(number),
            (Some(number), Some(other)) => Err(RackRefusal::Differ(number, other)),
        }
    }
}
