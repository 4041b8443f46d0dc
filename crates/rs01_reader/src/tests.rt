//! Courses of readings by turns.
ghost use Rattle.std.specs.Prelude.{◌≡◌, IfSome};

use crate::course::Course;
use rs01_layers::Shape;
use rs01_linear::{Asked, Fate};
use std::alloc::{AllocError, Global};
use std::process::Abort;
use std::test::Fail;

// The shape of so many sectors, and none where there is no such shape.
fn shape_of(sectors: u32, parity: u32) -> Option<Shape>
    ensures { IfSome result (λ shape. shape.sectors ≡ sectors) }
{
    match Shape::new(sectors, parity) {
        Ok(shape) => Some(shape),
        Err(_) => None,
    }
}

// A reading of so many sectors of which none is good, without an error correction file where the parity is 0.
fn fresh(alloc: Global, sectors: u32, parity: u32) -> Result<Course, AllocError> {
    let fates = vec![in alloc; Fate::LeftOut; sectors as usize]?;
    Course::new(alloc, shape_of(sectors, parity), fates, 0, 0)
}

// Asks for the next sector, if there is one, and marks it: those from one to below another can't be read. Tells the sector
// and the layer that came within its bound, if one did.
#[tactic(auto, using(crate::proofs::AskLemmas::next_facts))]
fn ask(course: &mut Course, from: u32, to: u32) -> Option<(u32, Option<u32>)> {
    match course.next_sector() {
        None => None,
        Some(sector) => {
            let answer = if sector >= from && sector < to {
                Asked::Unreadable
            } else {
                Asked::Read
            };
            let settled = course.mark(sector, answer);
            Some((sector, settled))
        }
    }
}

// The sectors in the order in which they are asked for, and the sectors by which a layer came within its bound.
fn walk(
    alloc: Global,
    course: &mut Course,
    from: u32,
    to: u32,
) -> Result<(Vec<u32>, Vec<u32>), AllocError> {
    let mut asked = Vec::new(alloc);
    let mut settled = Vec::new(alloc);
    for _ask in 0..1000u32 {
        let Some((sector, layer)) = ask(course, from, to) else {
            return Ok((asked, settled));
        };
        asked.push(sector)?;
        if layer.is_some() {
            settled.push(sector)?;
        }
    }
    Ok((asked, settled))
}

// The numbers from 0 to below the first, and then these.
fn numbers(alloc: Global, first: u32, then: &[u32]) -> Result<Vec<u32>, AllocError> {
    let mut all = Vec::new(alloc);
    for number in 0..first {
        all.push(number)?;
    }
    all.extend_from_slice(then)?;
    Ok(all)
}

#[test]
fn turns_over_the_longest_runs(rt: HostRuntime) -> Result<(), Fail> {
    let alloc = rt.alloc();
    let last: [u32; 8] = [243, 241, 245, 240, 239, 242, 244, 246];
    let cases: [(u32, u32, u32, u32, u32, &[u32]); 4] = [
        (10, 0, 4, 5, 5, &[7, 8, 9, 6, 5]),
        (247, 8, 238, 247, 239, &last),
        (446, 32, 0, 0, 382, &[]),
        (20, 32, 0, 0, 0, &[]),
    ];
    for (sectors, parity, from, to, first, then) in cases {
        let mut course = fresh(alloc, sectors, parity)?;
        let (asked, _settled) = walk(alloc, &mut course, from, to)?;
        assert!(rt; asked == numbers(alloc, first, then)?);
        assert!(rt; course.next_sector().is_none());
    }
    Ok(())
}

#[test]
fn layers_settle_once(rt: HostRuntime) -> Result<(), Fail> {
    let alloc = rt.alloc();
    let mut course = fresh(alloc, 446, 32)?;
    assert!(rt; course.next_settled().is_none());
    let (_asked, settled) = walk(alloc, &mut course, 0, 0)?;
    let wanted: [u32; 2] = [380, 381];
    assert!(rt; settled.as_slice() == wanted.as_slice());
    let mut spared = fresh(alloc, 20, 32)?;
    assert_eq!(rt; spared.next_settled(), Some(0));
    assert!(rt; spared.next_settled().is_none());
    spared.give(0)?;
    Ok(())
}

#[test]
fn what_became_of_each_sector(rt: HostRuntime) -> Result<(), Fail> {
    let alloc = rt.alloc();
    let mut course = fresh(alloc, 10, 0)?;
    let (_asked, _settled) = walk(alloc, &mut course, 4, 5)?;
    for sector in 0..10usize {
        let wanted = if sector == 4 {
            Fate::Unreadable
        } else {
            Fate::Read
        };
        assert!(rt; course.fates().get(sector).copied() == Some(wanted));
    }
    assert!(rt; course.shape().is_none());
    Ok(())
}
