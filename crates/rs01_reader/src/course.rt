//! How far a reading by turns has come.
ghost use Rattle.std.specs.Prelude.{◌≡◌, ◌<◌, ◌≤◌, ◌^◌, ◌++◌, ◌∷◌, [], IfErr, IfNone, IfOk, IfSome, OnOk, length, map, true};
ghost use Rattle.rs01_states.specs.Sparing.{IsUnread, is_within, layer_count, newly_within, state_of};
ghost use Rattle.rs01_linear.specs.declared.asking.Asked.TheVariants as asked;
ghost use Rattle.rs01_turns.specs.Turns.{next_sector};
ghost use Rattle.rs01_reader.specs.Courses.{
  CourseSeen,
  IsWhole,
  LooksOn,
  NoneWithin,
  course_after,
  failed_course,
  is_kept,
  settled_after,
  start_of,
};

use crate::sparing::{take_found, take_read};
use crate::turning::{goes_on, new_turn};
use rs01_intervals::Unread;
use rs01_layers::Shape;
use rs01_linear::{Asked, Fate};
use rs01_states::{State, States};
use std::alloc::{AllocError, Global};
use std::marker::Model;

/// What is kept of a reading by turns: each sector's state and what became of it, the sector behind the one that was read
/// last, the layers that were given, and the desk's counts of faults at the start.
///
/// A mark looks at no other sector, but where a layer comes within its bound by it, and then at that layer's sectors alone.
/// Besides it goes up the tree over the runs of unread sectors.
#[derive(Drop)]
pub struct Course {
    shape: Option<Shape>,
    states: States,
    unread: Unread,
    place: Option<u32>,
    fates: Vec<Fate>,
    given: Vec<u32>,
    // The layers below were looked at for whether they were within their bound at the start.
    first: u32,
    kept_reads: u64,
    kept_writes: u64,
}

impl Model for Course {
    ghost use Rattle.rs01_reader.specs.Courses.{CourseSeen, IsWhole};

    ghost Value = { CourseSeen };

    ghost view = { λ c. record {
      shape = c.shape;
      states = c.states.states;
      place = c.place;
      fates = c.fates.items;
      given = c.given.items;
      first = c.first;
      kept_reads = c.kept_reads;
      kept_writes = c.kept_writes;
    } };

    ghost invariant = { λ c. IsWhole c.shape c.states c.unread c.fates.items };
}

// A flag of each sector, set where it was found good.
fn good_flags(alloc: Global, fates: &[Fate]) -> Result<Vec<bool>, AllocError>
    ensures { IfOk result (λ flags. flags.items ≡ map is_kept fates.now) }
{
    let mut flags = Vec::with_capacity(alloc, fates.len())?;
    for fate in fates {
        flags.push(matches!(*fate, Fate::Kept))?;
    }
    Ok(flags)
}

// How many layers there are: none without a shape.
fn layer_count(shape: &Option<Shape>) -> u32
    ensures { result ≡ layer_count shape.now }
{
    match shape {
        Some(shape) => shape.layers(),
        None => 0,
    }
}

impl Course {
    /// The start of a reading, by what was found of each sector of the image file: it is kept where it was good. What needn't
    /// be read is spared at once. The desk's counts of faults are kept.
    pub fn new(
        alloc: Global,
        shape: Option<Shape>,
        fates: Vec<Fate>,
        read_faults: u64,
        write_faults: u64,
    ) -> Result<Course, AllocError>
        requires few { length fates.items < 2 ^ 32 }
        requires shape { IfSome shape (λ given. given.sectors ≡ length fates.items) }
        ensures { IfOk result (λ course. course
            ≡ start_of shape fates.items read_faults write_faults) }
    {
        let sectors = fates.len() as u32;
        let good = good_flags(alloc, &fates)?;
        let states = States::new(alloc, sectors, shape, &good)?;
        let mut unread = Unread::new(alloc, sectors)?;
        take_found(&mut unread, &states, sectors);
        let given = Vec::new(alloc);
        Ok(Course {
            shape,
            states,
            unread,
            place: None,
            fates,
            given,
            first: 0,
            kept_reads: read_faults,
            kept_writes: write_faults,
        })
    }

    /// The sector that is asked for next, if one is.
    pub fn next_sector(&self) -> Option<u32>
        ensures { result ≡ next_sector self.now.states self.now.place }
    {
        let sectors = self.fates.len() as u32;
        match self.place {
            Some(place) => goes_on(&self.unread, sectors, place),
            None => new_turn(&self.unread, sectors),
        }
    }

    // An unread sector was read.
    fn mark_read(&mut self, sector: u32) -> Option<u32>
        requires { IsUnread self.old.states sector }
        ensures after { self.new ≡ course_after self.old sector asked.Read }
        ensures settled { result
            ≡ newly_within self.old.shape sector self.old.states self.new.states }
    {
        let sectors = self.fates.len() as u32;
        let layers = layer_count(&self.shape);
        let settled = self.states.mark_good(sector);
        take_read(&mut self.unread, sectors, layers, sector, settled);
        self.fates[sector as usize] = Fate::Read;
        self.place = Some(sector + 1);
        settled
    }

    // An unread sector was asked for in vain.
    fn mark_failed(&mut self, sector: u32, fate: Fate)
        requires { IsUnread self.old.states sector }
        ensures { self.new ≡ failed_course self.old sector fate }
    {
        self.states.mark_failed(sector);
        self.unread.take(sector);
        self.fates[sector as usize] = fate;
        self.place = None;
    }

    /// Marks an unread sector by what came of asking for it, and tells the layer that came within its bound by this, if one
    /// did.
    pub fn mark(&mut self, sector: u32, asked: Asked) -> Option<u32>
        requires { IsUnread self.old.states sector }
        ensures after { self.new ≡ course_after self.old sector asked }
        ensures settled { result
            ≡ settled_after self.old.shape sector asked self.old.states self.new.states }
    {
        match asked {
            Asked::Read => self.mark_read(sector),
            Asked::Unreadable => {
                self.mark_failed(sector, Fate::Unreadable);
                None
            }
            Asked::Altered => {
                self.mark_failed(sector, Fate::Altered);
                None
            }
        }
    }

    /// The next layer, in rising order, that is within its bound and wasn't looked at yet. It and those below it count as
    /// looked at from now on. There is none exactly where no further layer is within its bound, and then all were looked at.
    pub fn next_settled(&mut self) -> Option<u32>
        ensures { LooksOn self.old self.new result }
    {
        let layers = layer_count(&self.shape);
        let found = first_within(&self.states, layers, self.first);
        self.first = match found {
            Some(layer) => layer + 1,
            None => layers,
        };
        found
    }

    /// Notes that a layer was given. Where memory runs out nothing has changed.
    pub fn give(&mut self, layer: u32) -> Result<(), AllocError>
        ensures given { OnOk result (self.new
            ≡ record self.old { given = self.old.given ++ layer ∷ [] }) }
        ensures kept { IfErr result (λ _. self.new ≡ self.old) }
    {
        self.given.push(layer)?;
        Ok(())
    }

    /// The shape of the error correction file, where one is given.
    pub fn shape(&self) -> Option<Shape>
        ensures shape { result ≡ self.now.shape }
        ensures sectors { IfSome result (λ shape. shape.sectors ≡ length self.now.states) }
    {
        self.shape
    }

    /// The state of a sector.
    pub fn state(&self, sector: u32) -> State
        requires { sector < length self.now.states }
        ensures { result ≡ state_of self.now.states sector }
    {
        self.states.state(sector)
    }

    /// What became of each sector so far: one that wasn't good at the start and wasn't asked for is left out.
    pub fn fates(&self) -> &[Fate]
        ensures fates { result.now ≡ self.now.fates }
        ensures all { length result.now ≡ length self.now.states }
    {
        &self.fates
    }

    /// The desk's count of faults of reading at the start.
    pub fn kept_reads(&self) -> u64
        ensures { result ≡ self.now.kept_reads }
    {
        self.kept_reads
    }

    /// The desk's count of faults of writing at the start.
    pub fn kept_writes(&self) -> u64
        ensures { result ≡ self.now.kept_writes }
    {
        self.kept_writes
    }
}

// The first layer from a number on that is within its bound.
fn first_within(states: &States, layers: u32, from: u32) -> Option<u32>
    requires { layers ≡ layer_count states.now.shape }
    ensures found { IfSome result (λ layer. (from ≤ layer) × (layer < layers)) }
    ensures within { IfSome result (λ layer.
        is_within states.now.shape layer states.now.states ≡ true) }
    ensures before { IfSome result (NoneWithin states.now.shape states.now.states from) }
    ensures none { IfNone result (NoneWithin states.now.shape states.now.states from layers) }
{
    for layer in from..layers {
        if states.within(layer) {
            return Some(layer);
        }
    }
    None
}
