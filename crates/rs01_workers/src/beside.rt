//! Work by several threads: the caller fills a window while others work on it.
ghost use Rattle.std.specs.Prelude.{◌≡◌, ◌<◌, [], IfErr, IfOk, OnOk};
ghost use Rattle.std.specs.Thread.{IsSync};
ghost use Rattle.rs01_layers.specs.declared.input.LayerInput.{LayerInput};
ghost use Rattle.rs01_table.specs.Seats.{AreFree, id_of, posted_by};
ghost use Rattle.rs01_table.specs.Views.{IsRight, source};
ghost use Rattle.rs01_workers.specs.Filling.{
  AreThrough,
  Fills,
  IsEmptyWindow,
  IsReady,
  IsThrough,
  KeepsPoster,
};
ghost use Rattle.rs01_workers.specs.Work.{Stands, Works};

use crate::filled::Filled;
use crate::filler::Filler;
use crate::finish::gather;
use crate::results::{Results, WindowStop};
use crate::windows::Windows;
use rs01_layers::{LayerInput, LayerTask};
use rs01_outside::Gate;
use rs01_table::{Given, Poster, Seats, WindowTable, Worker};
use std::alloc::Global;
use std::sync::Wait;
use std::thread::{Threads, join_mut};

// The input with the task's value, or alone where memory runs out.
fn worked<T: LayerTask>(alloc: Global, task: &T, input: LayerInput) -> Given
    requires { T.fit input }
    ensures source { source result ≡ input }
    ensures right { IsRight T.value result }
{
    match task.work(alloc, &input) {
        Ok(out) => Given::Done(input, out),
        Err(_) => Given::Left(input),
    }
}

// A worker takes inputs and works them until the window is over.
fn serve<R: Wait, T: LayerTask, G: Gate>(
    rt: &R,
    alloc: Global,
    task: &T,
    gate: &G,
    number: u32,
    table: &WindowTable<T>,
    worker: &mut Worker<T>,
)
    requires { IsReady table.now worker.old }
    ensures { IsThrough table.now worker.new }
{
    for _ in rt.forever() {
        let ticket = table.draw(worker);
        let Some(input) = table.take(rt, worker, ticket) else {
            return;
        };
        gate.enter(number, (ticket.number & 0xffff_ffff) as u32);
        let given = worked(alloc, task, input);
        table.give(worker, ticket, given);
    }
    unreachable!()
}

// The caller posts what the filler gives, up to 64 inputs.
fn fill_all<T: LayerTask, F: Filler>(
    alloc: Global,
    table: &WindowTable<T>,
    poster: &mut Poster<T>,
    fill: &mut F,
) -> Filled<F::Stop>
    requires going { F.going fill.old }
    requires fit { (f : F) (input : LayerInput) → F.fits f input → T.fit input }
    requires empty { IsEmptyWindow table.now poster.old }
    ensures poster { KeepsPoster poster.old poster.new }
    ensures fills { Fills F.leads F.gave F.fits F.going F.done F.halted fill.old fill.new
        (posted_by poster.new) result }
{
    let mut count = 0u32;
    while count < 64 {
        match fill.next(alloc) {
            Ok(Some(input)) => {
                let Ok(_) = table.post(poster, input) else {
                    unreachable!()
                };
                count += 1;
            }
            Ok(None) => return Filled::Ended,
            Err(stop) => return Filled::Halted(stop),
        }
    }
    Filled::Full
}

// The caller fills the window, closes it, and works by a worker of its own.
fn alone<R: Wait, T: LayerTask, F: Filler, G: Gate>(
    rt: &R,
    alloc: Global,
    task: &T,
    gate: &G,
    table: &WindowTable<T>,
    poster: &mut Poster<T>,
    fill: &mut F,
    own: &mut Worker<T>,
) -> Filled<F::Stop>
    requires going { F.going fill.old }
    requires fit { (f : F) (input : LayerInput) → F.fits f input → T.fit input }
    requires empty { IsEmptyWindow table.now poster.old }
    requires own { IsReady table.now own.old }
    ensures poster { KeepsPoster poster.old poster.new }
    ensures own { IsThrough table.now own.new }
    ensures fills { Fills F.leads F.gave F.fits F.going F.done F.halted fill.old fill.new
        (posted_by poster.new) result }
{
    let filled = fill_all(alloc, table, poster, fill);
    table.close(poster);
    serve(rt, alloc, task, gate, 0, table, own);
    filled
}

// The same as `alone`, with the other workers beside it, each in a thread of its own.
fn beside<'a, R: Threads + Wait + Sync, T: LayerTask, F: Filler, G: Gate>(
    rt: &'a R,
    alloc: &'a Global,
    task: &'a T,
    gate: &'a G,
    table: &'a WindowTable<T>,
    poster: &mut Poster<T>,
    fill: &mut F,
    own: &mut Worker<T>,
    others: &mut Vec<Worker<T>>,
) -> Filled<F::Stop>
    requires going { F.going fill.old }
    requires fit { (f : F) (input : LayerInput) → F.fits f input → T.fit input }
    requires empty { IsEmptyWindow table.now poster.old }
    requires own { IsReady table.now own.old }
    requires others { AreFree (id_of table.now) others.old.items }
    ensures poster { KeepsPoster poster.old poster.new }
    ensures own { IsThrough table.now own.new }
    ensures others { AreThrough table.now others.old others.new }
    ensures fills { Fills F.leads F.gave F.fits F.going F.done F.halted fill.old fill.new
        (posted_by poster.new) result }
{
    let Some(other) = others.pop() else {
        return alone(rt, *alloc, task, gate, table, poster, fill, own);
    };
    let mut other = other;
    let number = ((others.len() & 0xffff_ffff) as u32).wrapping_add(1);
    let ((), filled) = join_mut(
        rt,
        &mut || -> ()
            requires { IsReady table.now other }
            ensures { IsThrough table.entry.now other.exit }
        { serve(rt, *alloc, task, gate, number, table, &mut other) },
        &mut || -> Filled<F::Stop>
            requires { IsSync R.row × IsSync T.row × IsSync G.row × F.going fill.now
                × ((f : F) (input : LayerInput) → F.fits f input → T.fit input)
                × IsEmptyWindow table.now poster.now × IsReady table.now own.now
                × AreFree (id_of table.now) others.now.items }
            ensures poster { KeepsPoster poster.entry.now poster.exit.now }
            ensures own { IsThrough table.entry.now own.exit.now }
            ensures others { AreThrough table.entry.now others.entry.now others.exit.now }
            ensures fills { Fills F.leads F.gave F.fits F.going F.done F.halted fill.entry.now
                fill.exit.now (posted_by poster.exit.now) result }
        { beside(rt, alloc, task, gate, table, poster, fill, own, others) },
    );
    others.push_reserved(other);
    filled
}

/// Asks a filler for inputs until it has none left or gave 64, and works each of them, by so many
/// workers, of which the caller is the first. The others work while the filler is asked, and the
/// caller works too once it was.
///
/// It stops where the filler does, and where memory runs out. Then nothing is kept of the inputs.
/// Nothing is said of whether it returns, since it waits for the others.
pub fn work_window<R: Threads + Wait + Sync, T: LayerTask, F: Filler, G: Gate>(
    rt: &R,
    alloc: Global,
    task: &T,
    fill: &mut F,
    workers: u32,
    gate: &G,
) -> Result<Results, WindowStop<F::Stop>>
    requires some { 0 < workers }
    requires going { F.going fill.old }
    requires fit { (f : F) (input : LayerInput) → F.fits f input → T.fit input }
    ensures leads { F.leads fill.old fill.new }
    ensures works { IfOk result (Works F.gave F.fits F.going F.done T.value fill.old fill.new) }
    ensures stands { IfErr result (Stands F.going F.done F.halted fill.new) }
{
    let Ok(seats) = WindowTable::<T>::new(alloc, 64, workers) else {
        return Err(WindowStop::OutOfMemory);
    };
    let Seats {
        table,
        poster,
        workers: others,
    } = seats;
    let mut poster = poster;
    let mut others = others;
    let Some(own) = others.pop() else {
        unreachable!()
    };
    let mut own = own;
    let filled = beside(
        rt,
        &alloc,
        task,
        gate,
        &table,
        &mut poster,
        fill,
        &mut own,
        &mut others,
    );
    others.push_reserved(own);
    let over = match filled {
        Filled::Halted(stop) => return Err(WindowStop::Stopped(stop)),
        Filled::Ended => true,
        Filled::Full => false,
    };
    match gather(alloc, task, table, poster, others) {
        Ok((inputs, outs)) => Ok(Results::of(inputs, outs, over)),
        Err(_) => Err(WindowStop::OutOfMemory),
    }
}

/// Works all layers, window by window, by so many workers, of which the caller is the first. The
/// workers of each window start with it and end with it.
///
/// It stops where the filler or the taking of a window's answers does, and where memory runs out.
/// Nothing is said of whether it returns, since it waits for the workers of each window.
pub fn work_all<R: Threads + Wait + Sync, T: LayerTask, W: Windows<T>, G: Gate>(
    rt: &R,
    alloc: Global,
    task: &T,
    windows: &mut W,
    workers: u32,
    gate: &G,
) -> Result<(), WindowStop<W::Stop>>
    requires some { 0 < workers }
    requires going { W.going windows.old }
    requires none { W.gave windows.old ≡ [] }
    ensures leads { W.leads windows.old windows.new }
    ensures finished { OnOk result (W.finished windows.new) }
    ensures stands { IfErr result (Stands W.going W.done W.halted windows.new) }
{
    loop {
        let results = work_window(rt, alloc, task, windows, workers, gate)?;
        let over = results.over();
        match windows.settle(alloc, results) {
            Ok(()) => {}
            Err(stop) => return Err(WindowStop::Stopped(stop)),
        }
        if over {
            return Ok(());
        }
    }
}
