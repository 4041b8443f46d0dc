//! Making the image.
ghost use Rattle.std.specs.Prelude.{◌≡◌, ◌+◌, ◌-◌, ◌*◌, ◌<◌, IfErr, IsTrue, [], is_err, length, min};
ghost use Rattle.rs01_outside.specs.DeskState.{OnlyChanges};
ghost use Rattle.rs01_linear.specs.Marking.{Extends};
ghost use Rattle.rs01_demo.specs.Faults.{IsFault, Works};
ghost use Rattle.rs01_demo.specs.Generator.{image};
ghost use Rattle.rs01_demo.specs.Steps.{Follows, GoesOn, MakesImage};

use crate::generator::fill;
use crate::refusal::DemoRefusal;
use rs01_lists::zeroed;
use rs01_outside::{Desk, Failed};
use std::alloc::Global;

// How many sectors are made at once.
pub const RUN: u32 = 64;

// How many sectors the next run has.
pub fn run_of(sectors: u32, first: u32) -> u32
    requires { first < sectors }
    ensures { result ≡ min (sectors - first) 64 }
{
    (sectors - first).min(RUN)
}

// Writes the bytes that follow a value, as many as a buffer holds, and gives the value of the last one.
fn write_run<D: Desk>(
    desk: &mut D,
    name: &str,
    first: u32,
    before: u64,
    run: &mut [u8],
) -> Result<u64, Failed>
    ensures changes { OnlyChanges name.now (D.state desk.old) (D.state desk.new) (is_err result) }
    ensures value { Follows (2048 * first) (length run.old) before result }
    ensures written { GoesOn (2048 * first) (length run.old) before name.now
        (D.state desk.old) (D.state desk.new) result }
{
    let last = fill(before, run);
    match desk.write_at(name, 2048 * u64::from(first), run) {
        Ok(()) => Ok(last),
        Err(Failed) => Err(Failed),
    }
}

// Writes the image over an empty file, by long runs.
fn write_image<D: Desk>(
    desk: &mut D,
    name: &str,
    number: u64,
    sectors: u32,
    buffer: &mut [u8],
) -> Result<(), Failed>
    requires { length buffer.old ≡ 131072 }
    ensures changes { OnlyChanges name.now (D.state desk.old) (D.state desk.new) (is_err result) }
    ensures written { Extends (image number sectors) [] name.now 0 (λ _. 2048 * sectors)
        (D.state desk.old) (D.state desk.new) result }
{
    let mut value = number;
    let mut first = 0u32;
    while first < sectors {
        let count = run_of(sectors, first);
        let run = &mut buffer[..2048 * count as usize];
        value = write_run(desk, name, first, value, run)?;
        first += count;
    }
    Ok(())
}

// Makes the image of so many sectors from a number, under a name.
pub fn make_image<D: Desk>(
    alloc: Global,
    desk: &mut D,
    name: &str,
    number: u64,
    sectors: u32,
) -> Result<(), DemoRefusal>
    ensures works { Works name.now (D.state desk.old) (D.state desk.new) result }
    ensures fault { IfErr result IsFault }
    ensures made { IsTrue (D.state desk.old).tells → MakesImage (image number sectors) name.now
        (D.state desk.old).files (D.state desk.new).files result }
{
    let mut buffer = zeroed(alloc, 2048 * RUN as usize)?;
    let Ok(()) = desk.make(name) else {
        return Err(DemoRefusal::WriteFault);
    };
    match write_image(desk, name, number, sectors, &mut buffer) {
        Ok(()) => Ok(()),
        Err(Failed) => Err(DemoRefusal::WriteFault),
    }
}
