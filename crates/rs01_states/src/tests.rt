//! Readings by their marks: what is spared, and when a layer comes within its bound.
ghost use Rattle.std.specs.Prelude.{◌≡◌, IfOk, IfSome, length};

use super::*;
use rs01_layers::Shape;
use std::alloc::{AllocError, Global};
use std::test::Fail;

// A mark: the sector, and whether it was read.
type Mark = (u32, bool);

fn letter(state: State) -> char {
    match state {
        State::Unread => 'u',
        State::Good => 'g',
        State::Failed => 'f',
        State::Spared => 's',
    }
}

// A letter for each sector.
fn letters(alloc: Global, states: &States, sectors: u32) -> Result<String, AllocError>
    requires { length states.now.states ≡ sectors }
{
    let mut text = String::new(alloc);
    for sector in 0..sectors {
        text.push(letter(states.state(sector)))?;
    }
    Ok(text)
}

// The first unread sector from the mark's on is marked.
fn mark_one(states: &mut States, mark: Mark) -> Option<u32>
    ensures len { length states.new.states ≡ length states.old.states }
    ensures shape { states.new.shape ≡ states.old.shape }
{
    let (from, is_read) = mark;
    match states.first_unread_from(from) {
        Some(sector) => {
            if is_read {
                states.mark_good(sector)
            } else {
                states.mark_failed(sector);
                None
            }
        }
        None => None,
    }
}

// The start of a reading whose first sectors are good.
fn start(
    alloc: Global,
    sectors: u32,
    shape: Option<Shape>,
    first_good: usize,
) -> Result<States, AllocError>
    requires { IfSome shape (λ given. given.sectors ≡ sectors) }
    ensures len { IfOk result (λ made. length made.states ≡ sectors) }
    ensures shape { IfOk result (λ made. made.shape ≡ shape) }
{
    let mut good = vec![in alloc; false; sectors as usize]?;
    let count = first_good.min(good.len());
    good[..count].fill(true);
    States::new(alloc, sectors, shape, &good)
}

// Twenty sectors in one layer, with eight parity bytes in a codeword.
#[test]
fn one_layer(rt: HostRuntime) -> Result<(), Fail> {
    let alloc = rt.alloc();
    for (first_good, marks, answers, wanted) in [
        (
            0,
            ((0, true), (5, false)),
            (None, None),
            "guuuufuuuuuuuuuuuuuu",
        ),
        (
            10,
            ((10, true), (10, true)),
            (None, Some(0)),
            "ggggggggggggssssssss",
        ),
        (
            10,
            ((19, true), (12, true)),
            (None, Some(0)),
            "ggggggggggssgssssssg",
        ),
        (
            11,
            ((13, false), (11, true)),
            (None, Some(0)),
            "ggggggggggggsfssssss",
        ),
        (
            11,
            ((11, false), (12, false)),
            (None, None),
            "gggggggggggffuuuuuuu",
        ),
        (
            11,
            ((11, true), (12, true)),
            (Some(0), None),
            "ggggggggggggssssssss",
        ),
        (
            12,
            ((12, true), (0, false)),
            (None, None),
            "ggggggggggggssssssss",
        ),
        (
            20,
            ((0, true), (0, false)),
            (None, None),
            "gggggggggggggggggggg",
        ),
    ] {
        let mut states = start(alloc, 20, Some(Shape::new(20, 8)?), first_good)?;
        let (first, second) = marks;
        let given = (mark_one(&mut states, first), mark_one(&mut states, second));
        assert_eq!(rt; given, answers);
        assert_eq!(rt; letters(alloc, &states, 20)?.as_str(), wanted);
    }
    Ok(())
}

// The even and the odd ones of 494 sectors, with eight parity bytes in a codeword.
#[test]
fn two_layers(rt: HostRuntime) -> Result<(), Fail> {
    let alloc = rt.alloc();
    for (first_good, marks, answers, open_, unread) in [
        (
            470,
            ((470, true), (471, true)),
            (None, None),
            (11, 11),
            Some(472),
        ),
        (
            476,
            ((476, true), (477, false)),
            (Some(0), None),
            (8, 9),
            Some(479),
        ),
        (
            476,
            ((477, true), (476, true)),
            (Some(1), Some(0)),
            (8, 8),
            None,
        ),
        (
            476,
            ((478, false), (480, false)),
            (None, None),
            (9, 9),
            Some(476),
        ),
        (
            477,
            ((477, false), (479, true)),
            (None, Some(1)),
            (8, 8),
            None,
        ),
        (478, ((0, true), (0, false)), (None, None), (8, 8), None),
    ] {
        let shape = Shape::new(494, 8)?;
        assert_eq!(rt; shape.layers(), 2);
        let mut states = start(alloc, 494, Some(shape), first_good)?;
        let (first, second) = marks;
        let given = (mark_one(&mut states, first), mark_one(&mut states, second));
        assert_eq!(rt; given, answers);
        assert_eq!(rt; (states.open_count(0), states.open_count(1)), open_);
        let (even, odd) = open_;
        assert_eq!(rt; (states.within(0), states.within(1)), (even <= 8, odd <= 8));
        assert_eq!(rt; states.first_unread_from(0), unread);
    }
    Ok(())
}

// Without a shape nothing is ever spared.
#[test]
fn no_shape(rt: HostRuntime) -> Result<(), Fail> {
    let alloc = rt.alloc();
    for (first_good, marks, wanted, unread) in [
        (0, ((0, true), (2, false)), "gufu", Some(1)),
        (2, ((2, true), (3, false)), "gggf", None),
        (3, ((3, true), (0, true)), "gggg", None),
    ] {
        let mut states = start(alloc, 4, None, first_good)?;
        let (first, second) = marks;
        let given = (mark_one(&mut states, first), mark_one(&mut states, second));
        assert_eq!(rt; given, (None, None));
        assert_eq!(rt; letters(alloc, &states, 4)?.as_str(), wanted);
        assert_eq!(rt; states.first_unread_from(0), unread);
    }
    Ok(())
}
