//! Settling a window: putting its layers in place, and keeping what is told of them.
ghost use Rattle.std.specs.Prelude.{◌≡◌, ◌+◌, ◌≤◌, IfErr, OnOk, is_err, length, ℕ};
ghost use Rattle.rs01_outside.specs.DeskState.{OnlyChanges};
ghost use Rattle.rs01_repair.specs.Finding.{Sources, layers_in};
ghost use Rattle.rs01_fix.specs.Steps.{AreKept, HasRoom, IsBefore, IsEitherWay, Leads};
ghost use Rattle.rs01_fix.specs.Windows.{AreAnswers, AreAnswersOf, IsAnswer, IsAnswerOf};

use crate::places::put_layer;
use crate::repairs::Repairs;
use rs01_layers::{LayerInput, LayerOut};
use rs01_outside::{Desk, Failed};
use rs01_repair::Found;
use rs01_workers::Results;
use std::alloc::AllocError;

// Puts the layers of a window in place, whose first one is `first`.
pub fn put_window<D: Desk>(
    desk: &mut D,
    name: &str,
    found: &Found,
    first: u32,
    results: &Results,
) -> Result<(), Failed>
    requires layers { first + length results.now.inputs ≤ layers_in found.now }
    requires answers { AreAnswers found.now first results.now }
    ensures changes { OnlyChanges name.now (D.state desk.old) (D.state desk.new) (is_err result) }
    ensures put { (was : Sources found.now) → AreAnswersOf found.now was first results.now
        → Leads (IsBefore found.now was first 0)
        (IsBefore found.now was (first + length results.now.inputs) 0)
        (IsEitherWay found.now was) name.now (D.state desk.old) (D.state desk.new) result }
{
    for i in 0..results.len() {
        put_layer(desk, name, found, first + i, results.out(i))?;
    }
    Ok(())
}

// Keeps what is told of a layer.
fn keep_layer(
    found: &Found,
    layer: u32,
    input: &LayerInput,
    answer: &LayerOut,
    repairs: &mut Repairs,
) -> Result<(), AllocError>
    requires answer { IsAnswer found.now layer input.now answer.now }
    requires room { HasRoom found.now layer repairs.old }
    ensures room { OnOk result (HasRoom found.now (layer + 1) repairs.new) }
    ensures kept { OnOk result ((was : Sources found.now)
        → IsAnswerOf found.now was layer input.now answer.now
        → AreKept found.now was layer repairs.old
        → AreKept found.now was (layer + 1) repairs.new) }
{
    repairs.flag(found, layer, input.erased.items());
    repairs.add(found, layer, answer)?;
    Ok(())
}

// Keeps what is told of the layers of a window, whose first one is `first`.
pub fn keep_window(
    found: &Found,
    first: u32,
    results: &Results,
    repairs: &mut Repairs,
) -> Result<(), AllocError>
    requires layers { first + length results.now.inputs ≤ layers_in found.now }
    requires answers { AreAnswers found.now first results.now }
    requires room { HasRoom found.now first repairs.old }
    ensures room { OnOk result
        (HasRoom found.now (first + length results.now.inputs) repairs.new) }
    ensures kept { OnOk result ((was : Sources found.now)
        → AreAnswersOf found.now was first results.now
        → AreKept found.now was first repairs.old
        → AreKept found.now was (first + length results.now.inputs) repairs.new) }
{
    for i in 0..results.len() {
        keep_layer(found, first + i, results.input(i), results.out(i), repairs)?;
    }
    Ok(())
}
