//! A poster and two workers, one event after the other.
ghost use Rattle.std.specs.Prelude.{◌≡◌, IfSome};
ghost use Rattle.rs01_table.specs.Seats.{id_of, AreFree, IsFree, IsWorkerOf};

use rs01_fakes::{Numbering, numbered_layer};
use rs01_layers::{LayerOut, LayerTask};
use rs01_table::*;
use rs01_window::PostRefusal;
use std::alloc::{AllocError, Global};
use std::test::Fail;

// The last of some free workers.
fn next_worker(
    table: &WindowTable<Numbering>,
    workers: &mut Vec<Worker<Numbering>>,
) -> Option<Worker<Numbering>>
    requires free { AreFree (id_of table.now) workers.old.items }
    ensures free { AreFree (id_of table.now) workers.new.items }
    ensures worker { IfSome result (λ w. IsWorkerOf table.now w × IsFree w) }
{
    match workers.pop() {
        Some(worker) => Some(worker),
        None => None,
    }
}

fn given_text(alloc: Global, given: &Given) -> Result<String, AllocError> {
    match given {
        Given::Left(input) => format!(in alloc; "left {}", input.layer),
        Given::Done(input, LayerOut::Beyond(number)) => {
            format!(in alloc; "done {}: {number}", input.layer)
        }
        Given::Done(input, _) => format!(in alloc; "done {}", input.layer),
    }
}

// Two slots and two workers, and three layers that are to be posted.
#[test]
fn two_slots_and_two_workers(rt: HostRuntime) -> Result<(), Fail> {
    let alloc = rt.alloc();
    let Seats {
        table,
        mut poster,
        mut workers,
    } = WindowTable::<Numbering>::new(alloc, 2, 2)?;
    let Some(mut second) = next_worker(&table, &mut workers) else {
        return Err("no second worker")?;
    };
    let Some(mut first) = next_worker(&table, &mut workers) else {
        return Err("no first worker")?;
    };
    let ticket = table.draw(&mut first);
    assert_eq!(rt; ticket.number, 0);
    let Taken::NotYet = table.try_take(&mut first, ticket) else {
        return Err("nothing is posted yet")?;
    };
    let Ok(0) = table.post(&mut poster, numbered_layer(alloc, 10)?) else {
        return Err("the first slot is free")?;
    };
    let Taken::Got(kept) = table.try_take(&mut first, ticket) else {
        return Err("the first input is posted")?;
    };
    assert_eq!(rt; kept.layer, 10);
    let Ok(1) = table.post(&mut poster, numbered_layer(alloc, 11)?) else {
        return Err("the second slot is free")?;
    };
    let Err(refused) = table.post(&mut poster, numbered_layer(alloc, 12)?) else {
        return Err("both slots are taken")?;
    };
    assert_eq!(rt; (refused.why, refused.input.layer), (PostRefusal::Full, 12));
    let other = table.draw(&mut second);
    assert_eq!(rt; other.number, 1);
    let Some(input) = table.take(&rt, &mut second, other) else {
        return Err("the second input is posted")?;
    };
    let out = Numbering.work(alloc, &input)?;
    table.give(&mut second, other, Given::Done(input, out));
    let other = table.draw(&mut second);
    assert_eq!(rt; other.number, 2);
    let Taken::NotYet = table.try_take(&mut second, other) else {
        return Err("the window isn't closed")?;
    };
    table.close(&mut poster);
    table.close(&mut poster);
    let Err(refused) = table.post(&mut poster, numbered_layer(alloc, 13)?) else {
        return Err("the window is closed")?;
    };
    assert_eq!(rt;
        (refused.why, refused.input.layer),
        (PostRefusal::Closed, 13)
    );
    let Taken::Over = table.try_take(&mut second, other) else {
        return Err("the window is closed")?;
    };
    table.give(&mut first, ticket, Given::Left(kept));
    let ticket = table.draw(&mut first);
    assert_eq!(rt; ticket.number, 3);
    let None = table.take(&rt, &mut first, ticket) else {
        return Err("the window is over")?;
    };
    let mut workers = Vec::new(alloc);
    workers.push(first)?;
    workers.push(second)?;
    let mut all = String::new(alloc);
    for given in &table.end(alloc, poster, workers)? {
        all.push_str(given_text(alloc, given)?.as_str())?;
        all.push_str("; ")?;
    }
    assert_eq!(rt; all.as_str(), "left 10; done 11: 11; ");
    Ok(())
}
