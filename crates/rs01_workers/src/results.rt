//! What a window's work gave.
ghost use Rattle.std.specs.Prelude.{◌≡◌, ◌≤◌, ◌<◌, Some, length, slice_get};
ghost use Rattle.rs01_workers.specs.Work.{stop_or};

use rs01_layers::{LayerInput, LayerOut};
use std::marker::Model;

/// The inputs of a window in the order in which they were given, what the task gave of each, and
/// whether no more inputs come.
#[derive(Drop)]
pub struct Results {
    inputs: Vec<LayerInput>,
    outs: Vec<LayerOut>,
    over: bool,
}

impl Model for Results {
    ghost use Rattle.rs01_workers.specs.Work.{IsWindow, Worked};

    ghost Value = { Worked };

    ghost view = { λ r. record { inputs = r.inputs.items; outs = r.outs.items; over = r.over } };

    ghost invariant = { λ r. IsWindow (record { inputs = r.inputs.items; outs = r.outs.items; over = r.over }) };
}

impl Results {
    // The results of these inputs, each with what the task gave of it.
    pub(crate) fn of(inputs: Vec<LayerInput>, outs: Vec<LayerOut>, over: bool) -> Results
        requires paired { length outs.items ≡ length inputs.items }
        requires few { length inputs.items ≤ 64 }
        ensures { result ≡ record { inputs = inputs.items; outs = outs.items; over = over } }
    {
        Results { inputs, outs, over }
    }

    /// How many inputs there are, at most 64.
    pub fn len(&self) -> u32
        ensures inputs { result ≡ length self.now.inputs }
        ensures outs { result ≡ length self.now.outs }
        ensures few { result ≤ 64 }
    {
        self.inputs.len() as u32
    }

    /// The input at a place, counted from 0.
    pub fn input(&self, i: u32) -> &LayerInput
        requires { i < length self.now.inputs }
        ensures { slice_get self.now.inputs i ≡ Some result.now }
    {
        &self.inputs[i as usize]
    }

    /// What the task gave of the input at a place, counted from 0.
    pub fn out(&self, i: u32) -> &LayerOut
        requires { i < length self.now.outs }
        ensures { slice_get self.now.outs i ≡ Some result.now }
    {
        &self.outs[i as usize]
    }

    /// Whether no more inputs come. Else there are 64.
    pub fn over(&self) -> bool
        ensures { result ≡ self.now.over }
    {
        self.over
    }
}

/// Why a window was given up. Its inputs are dropped.
#[derive(Drop)]
pub enum WindowStop<S: Drop> {
    /// The filler stopped so.
    Stopped(S),
    /// Memory ran out.
    OutOfMemory,
}

impl<S: Drop> WindowStop<S> {
    /// How the filler stopped, or `out_of_memory` where it was memory that ran out.
    pub fn stop_or(self, out_of_memory: S) -> S
        ensures { result ≡ stop_or self out_of_memory }
    {
        match self {
            WindowStop::Stopped(stop) => stop,
            WindowStop::OutOfMemory => out_of_memory,
        }
    }
}
