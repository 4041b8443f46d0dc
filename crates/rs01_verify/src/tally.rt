//! The sectors that were found erased.
ghost use Rattle.std.specs.Prelude.{◌≡◌, ◌<◌, [], IfOk, OnOk, replicate};

use rs01_ecchead::Condition;
use rs01_layers::Shape;
use std::alloc::{AllocError, Global};

// The missing sectors, the altered ones, and how many of both each layer has.
#[derive(Drop)]
pub struct Tally {
    pub missing: Vec<u32>,
    pub altered: Vec<u32>,
    pub counts: Vec<u32>,
}

ghost use Rattle.rs01_verify.specs.Tallied.{Adds, IsCounted, Lists, layers_in};

impl Tally {
    // No sector in so many layers.
    pub fn new(alloc: Global, layers: u32) -> Result<Tally, AllocError>
        ensures missing { IfOk result (λ tally. tally.missing.items ≡ []) }
        ensures altered { IfOk result (λ tally. tally.altered.items ≡ []) }
        ensures counts { IfOk result (λ tally. tally.counts.items ≡ replicate layers 0) }
    {
        let counts = vec![in alloc; 0u32; layers as usize]?;
        Ok(Tally {
            missing: Vec::new(alloc),
            altered: Vec::new(alloc),
            counts,
        })
    }

    // Puts a sector into the list of what it was found as.
    pub fn list(&mut self, sector: u32, found: Condition) -> Result<(), AllocError>
        ensures { OnOk result (Lists sector found self.old self.new) }
    {
        match found {
            Condition::Sound => {}
            Condition::Missing => self.missing.push(sector)?,
            Condition::Altered => self.altered.push(sector)?,
        }
        Ok(())
    }

    // Adds a sector as it was found.
    pub fn add(&mut self, shape: &Shape, sector: u32, found: Condition) -> Result<(), AllocError>
        requires sector { sector < shape.now.sectors }
        requires counted { IsCounted (layers_in shape.now) sector self.old }
        ensures { OnOk result (Adds shape.now sector found self.old self.new) }
    {
        self.list(sector, found)?;
        if found != Condition::Sound {
            self.counts[shape.layer_of(sector) as usize] += 1;
        }
        Ok(())
    }
}
