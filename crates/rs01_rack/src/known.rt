//! What a rack tells of itself.
ghost use Rattle.std.specs.Prelude.{◌≡◌, ◌<◌, ◌≤◌, IsOkAnd, length, map};
ghost use Rattle.rs01_rack.specs.Rack.{IsAskedAt, OfDrive, RackState, faults_of};
ghost use Rattle.rs01_rack.specs.State.{rack_state};

use crate::rack::Rack;
use rs01_outside::Drive;
use std::alloc::{AllocError, Global};

// How often a drive failed.
fn faults_of(drive: &Box<dyn Drive>) -> u64
    ensures { result ≡ (state drive.now).faults }
{
    drive.faults()
}

// The sector that a drive was asked for at a place in the order of its asks.
fn asked_of(drive: &Box<dyn Drive>, i: u64) -> Option<u32>
    ensures { IsAskedAt i result (state drive.now) }
{
    drive.asked_at(i)
}

impl Rack {
    /// A rack of these drives, at most 65,536, of which nothing was asked. It takes no memory, and
    /// so it never fails.
    pub fn new(_alloc: Global, drives: Vec<Box<dyn Drive>>) -> Result<Rack, AllocError>
        requires { length drives.items ≤ 65536 }
        ensures { IsOkAnd result (λ rack. rack_state state rack
            ≡ record { drives = map state drives.items; asks = 0 }) }
    {
        Ok(Rack { drives, asks: 0 })
    }

    /// How many drives there are.
    pub fn drives(&self) -> usize
        ensures { result ≡ length (rack_state state self.now).drives }
    {
        self.drives.len()
    }

    /// How many reads were asked of the drives. At the last value of a `u128` it stays.
    pub fn asks(&self) -> u128
        ensures { result ≡ (rack_state state self.now).asks }
    {
        self.asks
    }

    /// The sector that a drive was asked for at the place `i` in the order of its asks, counted
    /// from 0. `None` where there were not so many asks, and always where the drive doesn't tell
    /// its view.
    pub fn asked_at(&self, drive: usize, i: u64) -> Option<u32>
        requires { drive < length (rack_state state self.now).drives }
        ensures { OfDrive (rack_state state self.now).drives drive (IsAskedAt i result) }
    {
        asked_of(&self.drives[drive], i)
    }

    /// The sum of the drives' counts of faults.
    pub fn faults(&self) -> u128
        ensures { result ≡ faults_of (rack_state state self.now) }
    {
        let mut sum: u128 = 0;
        for place in 0..self.drives.len() {
            sum += u128::from(faults_of(&self.drives[place]));
        }
        sum
    }
}
