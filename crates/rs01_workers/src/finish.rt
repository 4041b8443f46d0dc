//! What comes of a window that ends.
ghost use Rattle.std.specs.Prelude.{◌≡◌, All, IfOk, length, map};
ghost use Rattle.rs01_layers.specs.declared.input.LayerInput.{LayerInput};
ghost use Rattle.rs01_table.specs.Seats.{HaveNone, IsPosterOf, id_of, posted_by, workers_of};
ghost use Rattle.rs01_table.specs.Views.{IsRight, source};
ghost use Rattle.rs01_workers.specs.Work.{IsWorkOf};

use rs01_layers::{LayerInput, LayerOut, LayerTask};
use rs01_table::{Given, Poster, WindowTable, Worker};
use std::alloc::{AllocError, Global};

// An input with its value. One that came back alone is worked here.
fn complete<T: LayerTask>(
    alloc: Global,
    task: &T,
    given: Given,
) -> Result<(LayerInput, LayerOut), AllocError>
    requires fit { T.fit (source given) }
    requires right { IsRight T.value given }
    ensures { IfOk result (λ whole. (whole.0 ≡ source given) × (whole.1 ≡ T.value whole.0)) }
{
    match given {
        Given::Done(input, out) => Ok((input, out)),
        Given::Left(input) => {
            let out = task.work(alloc, &input)?;
            Ok((input, out))
        }
    }
}

// Each input with its value.
fn finish<T: LayerTask>(
    alloc: Global,
    task: &T,
    given: Vec<Given>,
) -> Result<(Vec<LayerInput>, Vec<LayerOut>), AllocError>
    requires fit { All T.fit (map source given.items) }
    requires right { All (IsRight T.value) given.items }
    ensures { IfOk result (λ all.
        IsWorkOf T.value (map source given.items) all.0.items all.1.items) }
{
    let mut inputs = Vec::new(alloc);
    let mut outs = Vec::new(alloc);
    for one in given {
        let (input, out) = complete(alloc, task, one)?;
        inputs.push(input)?;
        outs.push(out)?;
    }
    Ok((inputs, outs))
}

// The window ends, and each input that was posted has its value.
pub fn gather<T: LayerTask>(
    alloc: Global,
    task: &T,
    table: WindowTable<T>,
    poster: Poster<T>,
    workers: Vec<Worker<T>>,
) -> Result<(Vec<LayerInput>, Vec<LayerOut>), AllocError>
    requires mine { IsPosterOf table poster }
    requires all { length workers.items ≡ workers_of poster }
    requires none { HaveNone (id_of table) workers.items }
    requires fit { All T.fit (posted_by poster) }
    ensures { IfOk result (λ all. IsWorkOf T.value (posted_by poster) all.0.items all.1.items) }
{
    let given = table.end(alloc, poster, workers)?;
    let all = finish(alloc, task, given)?;
    Ok(all)
}
