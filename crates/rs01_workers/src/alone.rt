//! Work on the caller's thread.
ghost use Rattle.std.specs.Prelude.{◌≡◌, ◌≤◌, [], IfErr, IfOk, OnOk};
ghost use Rattle.rs01_layers.specs.declared.input.LayerInput.{LayerInput};
ghost use Rattle.rs01_workers.specs.Work.{Stands, Works, WorksTo};

use crate::filler::Filler;
use crate::results::{Results, WindowStop};
use crate::windows::Windows;
use rs01_layers::LayerTask;
use std::alloc::Global;

// How many layers a window has where all windows are worked on one thread. What is read of so few
// is still in the processor's cache when it is worked, and takes a quarter of a whole window's memory.
const FEW: u32 = 16;

// Asks a filler for inputs until it has none left or gave so many, and works each of them.
fn work_some<T: LayerTask, F: Filler>(
    alloc: Global,
    task: &T,
    fill: &mut F,
    most: u32,
) -> Result<Results, WindowStop<F::Stop>>
    requires most { most ≤ 64 }
    requires going { F.going fill.old }
    requires fit { (f : F) (input : LayerInput) → F.fits f input → T.fit input }
    ensures leads { F.leads fill.old fill.new }
    ensures works { let done = F.done in
        IfOk result (WorksTo most F.gave F.fits F.going done T.value fill.old fill.new) }
    ensures stands { IfErr result (Stands F.going F.done F.halted fill.new) }
{
    let mut inputs = Vec::new(alloc);
    let mut outs = Vec::new(alloc);
    let mut count = 0u32;
    while count < most {
        match fill.next(alloc) {
            Ok(Some(input)) => {
                let Ok(out) = task.work(alloc, &input) else {
                    return Err(WindowStop::OutOfMemory);
                };
                let (Ok(()), Ok(())) = (inputs.push(input), outs.push(out)) else {
                    return Err(WindowStop::OutOfMemory);
                };
                count += 1;
            }
            Ok(None) => return Ok(Results::of(inputs, outs, true)),
            Err(stop) => return Err(WindowStop::Stopped(stop)),
        }
    }
    Ok(Results::of(inputs, outs, false))
}

/// Asks a filler for inputs until it has none left or gave 64, and works each of them on the
/// caller's thread before it asks for the next.
///
/// It stops where the filler does, and where memory runs out. Then nothing is kept of the inputs.
pub fn work_one<T: LayerTask, F: Filler>(
    alloc: Global,
    task: &T,
    fill: &mut F,
) -> Result<Results, WindowStop<F::Stop>>
    requires going { F.going fill.old }
    requires fit { (f : F) (input : LayerInput) → F.fits f input → T.fit input }
    ensures leads { F.leads fill.old fill.new }
    ensures works { IfOk result (Works F.gave F.fits F.going F.done T.value fill.old fill.new) }
    ensures stands { IfErr result (Stands F.going F.done F.halted fill.new) }
{
    work_some(alloc, task, fill, 64)
}

/// Works all layers on the caller's thread, window by window, of 16 layers each.
///
/// It stops where the filler or the taking of a window's answers does, and where memory runs out.
pub fn work_all_one<T: LayerTask, W: Windows<T>>(
    alloc: Global,
    task: &T,
    windows: &mut W,
) -> Result<(), WindowStop<W::Stop>>
    requires going { W.going windows.old }
    requires none { W.gave windows.old ≡ [] }
    ensures leads { W.leads windows.old windows.new }
    ensures finished { OnOk result (W.finished windows.new) }
    ensures stands { IfErr result (Stands W.going W.done W.halted windows.new) }
{
    loop {
        let results = work_some(alloc, task, windows, FEW)?;
        let over = results.over();
        match windows.settle(alloc, results) {
            Ok(()) => {}
            Err(stop) => return Err(WindowStop::Stopped(stop)),
        }
        if over {
            return Ok(());
        }
    }
}
