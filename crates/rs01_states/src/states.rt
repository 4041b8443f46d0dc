//! What is known of all sectors of a medium.

ghost use Rattle.std.specs.Prelude.{◌≡◌, ◌<◌, IfOk, IfSome, length};
ghost use Rattle.rs01_layers.specs.declared.shape.Shape.{Shape};
ghost use Rattle.rs01_states.specs.Sparing.{
  IsUnread,
  Survey,
  after_failed,
  after_good,
  at_start,
  is_within,
  layer_count,
  newly_within,
  next_unread,
  open_count,
  state_of,
  survey_of,
};
ghost use Rattle.rs01_states.specs.Tally.{IsKept};

use crate::settling;
use crate::state::State;
use rs01_layers::Shape;
use std::alloc::{AllocError, Global};
use std::marker::Model;

/// The state of each sector, and the shape of the error correction file where there is one.
///
/// A layer is within its bound where at most as many of its sectors aren't good as a codeword has
/// parity bytes: these restore them, and its unread sectors are spared. Without a shape no layer
/// is within a bound, and nothing is spared. Only `new` takes memory.
#[derive(Drop)]
pub struct States {
    shape: Option<Shape>,
    states: Vec<State>,
    // Of each layer, how many of its sectors aren't good: so a mark looks at its own layer alone.
    // It is empty without a shape.
    counts: Vec<u32>,
}

impl Model for States {
    ghost use Rattle.rs01_states.specs.Sparing.{Survey, survey_of};
    ghost use Rattle.rs01_states.specs.Tally.{IsKept};

    ghost Value = { Survey };

    ghost view = { λ s. survey_of s.shape s.states.items };

    ghost invariant = { λ s. IsKept s.shape s.states.items s.counts.items };
}

impl States {
    /// The start of a reading: a sector is good where its flag is set and unread else, and what
    /// needn't be read is spared at once.
    ///
    /// There are as many flags as sectors, and the shape, where one is given, has that number.
    #[tactic(auto, using(crate::proofs::StateLemmas::lengths))]
    pub fn new(
        alloc: Global,
        sectors: u32,
        shape: Option<Shape>,
        good: &[bool],
    ) -> Result<States, AllocError>
        requires flags { length good.now ≡ sectors }
        requires shape { IfSome shape (λ given. given.sectors ≡ sectors) }
        ensures start { IfOk result (λ made. made ≡ at_start shape good.now) }
        ensures len { IfOk result (λ made. length made.states ≡ sectors) }
    {
        let mut states = settling::found(alloc, good)?;
        match shape {
            None => {
                let counts = Vec::new(alloc);
                Ok(States {
                    shape,
                    states,
                    counts,
                })
            }
            Some(given) => {
                let layers = given.layers();
                let counts = settling::open_counts(alloc, &states, layers)?;
                settling::spare_all(&mut states, layers, given.parity(), &counts);
                Ok(States {
                    shape,
                    states,
                    counts,
                })
            }
        }
    }

    /// The state of a sector, where there is one with that number.
    pub fn state(&self, sector: u32) -> State
        requires { sector < length self.now.states }
        ensures { result ≡ state_of self.now.states sector }
    {
        self.states[sector as usize]
    }

    /// How many sectors of a layer aren't good. There is a layer with that number, and so a shape.
    pub fn open_count(&self, layer: u32) -> u32
        requires { layer < layer_count self.now.shape }
        ensures { result ≡ open_count (layer_count self.now.shape) layer self.now.states }
    {
        self.counts[layer as usize]
    }

    /// Whether a layer is within its bound. There is a layer with that number, and so a shape.
    #[tactic(auto, unfolding(crate::specs::Sparing::within_bound))]
    pub fn within(&self, layer: u32) -> bool
        requires { layer < layer_count self.now.shape }
        ensures { result ≡ is_within self.now.shape layer self.now.states }
    {
        let open_ = self.open_count(layer);
        match self.shape {
            Some(shape) => open_ <= shape.parity(),
            None => false,
        }
    }

    /// An unread sector was read and is good from now on. Where its layer comes within its bound
    /// by this, the layer's unread sectors are spared, and the layer is answered.
    #[tactic(auto, using(crate::proofs::StateLemmas::lengths))]
    pub fn mark_good(&mut self, sector: u32) -> Option<u32>
        requires { IsUnread self.old.states sector }
        ensures after { self.new ≡ after_good self.old sector }
        ensures len { length self.new.states ≡ length self.old.states }
        ensures came { result ≡ newly_within self.old.shape sector self.old.states self.new.states }
    {
        match self.shape {
            None => {
                self.states[sector as usize] = State::Good;
                None
            }
            Some(shape) => {
                let layers = shape.layers();
                let bound = shape.parity();
                if settling::mark_good(&mut self.states, &mut self.counts, layers, bound, sector) {
                    Some(sector % layers)
                } else {
                    None
                }
            }
        }
    }

    /// An unread sector was asked for, and no drive gave a usable answer. Nothing is spared by
    /// this, since a failed sector has to be restored as an unread one has.
    #[tactic(auto, using(crate::proofs::StateLemmas::lengths))]
    pub fn mark_failed(&mut self, sector: u32)
        requires { IsUnread self.old.states sector }
        ensures after { self.new ≡ after_failed self.old sector }
        ensures len { length self.new.states ≡ length self.old.states }
    {
        self.states[sector as usize] = State::Failed;
    }

    /// The first unread sector from a number on, or `None` exactly where there is none.
    pub fn first_unread_from(&self, sector: u32) -> Option<u32>
        ensures first { result ≡ next_unread self.now.states sector }
        ensures unread { IfSome result (IsUnread self.now.states) }
    {
        for at in sector as usize..self.states.len() {
            if self.states[at].is_unread() {
                return Some(at as u32);
            }
        }
        None
    }
}
