//! The interpreter of column programs.

ghost use Rattle.std.specs.Prelude.{◌≡◌, ℕ, ◌+◌, ◌%◌, ◌<◌, ◌≤◌, IsTrue, length, slice_index};
ghost use Rattle.rs01_columns.specs.Bank.{IsBank};
ghost use Rattle.rs01_columns.specs.Running.{AddTogether, Advances, AreAt, ArePaired, AreWithin, Becomes, IsWithin, TakeAlike, stepped_four};
ghost use Rattle.rs01_columns.specs.Fours.{ArePlacesOf};
ghost use Rattle.rs01_columns.specs.Ranges.{FitApart, IsRaised, OnlyHere};
ghost use Rattle.rs01_columns.specs.Program.{begun, meaning, raised, stepped};

use crate::adding::{
    EightTables, FourPlaces, TwoPlaces, add_column, add_eight, add_four, tables_of,
};
use crate::fifteen::transform_tables;
use crate::group::{group_at, transform_group};
use crate::products::Products;
use crate::program::{FourSteps, Program, Step};

// Adds a multiple of one range of a bank to another, which lies apart.
fn add_range(bank: &mut [u8], into: usize, from: usize, width: usize, factor: u8, table: &Products)
    requires whole { width % 16 ≡ 0 }
    requires apart { FitApart (length bank.old) into from width }
    ensures here { IsRaised bank.old bank.new bank.old factor from into width }
    ensures rest { OnlyHere bank.old bank.new into width }
{
    if from < into {
        let (below, above) = bank.split_at_mut(into);
        add_column(
            &mut above[..width],
            &below[from..from + width],
            factor,
            table.bytes(),
        );
    } else {
        let (below, above) = bank.split_at_mut(from);
        add_column(
            &mut below[into..into + width],
            &above[..width],
            factor,
            table.bytes(),
        );
    }
}

// Clears a range of a bank.
fn clear(bank: &mut [u8], at: usize, width: usize)
    requires room { at + width ≤ length bank.old }
    ensures here { (k : ℕ) → k < width → slice_index bank.new (at + k) ≡ 0 }
    ensures rest { OnlyHere bank.old bank.new at width }
{
    bank[at..at + width].fill(0);
}

// Clears a column where a step begins it afresh.
fn begin(bank: &mut [u8], step: Step, columns: usize)
    requires into { step.into < columns }
    requires bank { IsBank columns bank.old }
    ensures { Becomes bank.old bank.new (begun step) }
{
    if step.fresh {
        clear(bank, 1088 * step.into as usize, 1024);
    }
}

// Adds the multiple of a step.
fn add(bank: &mut [u8], step: Step, columns: usize, products: &Products)
    requires step { IsWithin columns step }
    requires bank { IsBank columns bank.old }
    ensures { Becomes bank.old bank.new (raised step) }
{
    let into = 1088 * step.into as usize;
    let from = 1088 * step.from as usize;
    add_range(bank, into, from, 1024, step.factor, products);
}

// One step.
fn apply(bank: &mut [u8], step: Step, columns: usize, products: &Products)
    requires step { IsWithin columns step }
    requires bank { IsBank columns bank.old }
    ensures { Becomes bank.old bank.new (stepped step) }
{
    begin(bank, step, columns);
    add(bank, step, columns, products);
}

// Whether four steps add to the same column.
fn add_together(steps: FourSteps) -> bool
    ensures { IsTrue result → AddTogether steps }
{
    let same = steps.one.into == steps.two.into
        && steps.one.into == steps.three.into
        && steps.one.into == steps.four.into;
    let fresh = steps.one.fresh || steps.two.fresh || steps.three.fresh || steps.four.fresh;
    same && !fresh
}

// Where the columns begin from which four steps take.
fn places_of(steps: FourSteps) -> FourPlaces
    ensures { ArePlacesOf result steps }
{
    FourPlaces {
        one: 1088 * steps.one.from as usize,
        two: 1088 * steps.two.from as usize,
        three: 1088 * steps.three.from as usize,
        four: 1088 * steps.four.from as usize,
    }
}

// Four steps that add to the same column.
fn apply_four(bank: &mut [u8], steps: FourSteps, columns: usize, products: &Products)
    requires together { AddTogether steps }
    requires within { AreWithin columns steps }
    requires bank { IsBank columns bank.old }
    ensures { Becomes bank.old bank.new (stepped_four steps) }
{
    let into = 1088 * steps.one.into as usize;
    add_four(bank, into, places_of(steps), tables_of(steps, products));
}

// Whether four steps take from the same columns as four others, and add to a column behind theirs.
fn take_alike(steps: FourSteps, others: FourSteps) -> bool
    ensures { IsTrue result → TakeAlike steps others }
{
    let alike = steps.one.from == others.one.from
        && steps.two.from == others.two.from
        && steps.three.from == others.three.from
        && steps.four.from == others.four.from;
    alike && steps.one.into < others.one.into
}

// Whether eight steps add multiples of four columns, the same ones, to two columns.
fn are_paired(steps: FourSteps, others: FourSteps) -> bool
    ensures { IsTrue result → ArePaired steps others }
{
    take_alike(steps, others) && add_together(steps) && add_together(others)
}

// Eight steps that add multiples of four columns to two.
fn apply_eight(
    bank: &mut [u8],
    steps: FourSteps,
    others: FourSteps,
    columns: usize,
    products: &Products,
)
    requires paired { ArePaired steps others }
    requires within { AreWithin columns steps }
    requires others_within { AreWithin columns others }
    requires bank { IsBank columns bank.old }
    ensures { Becomes bank.old bank.new (λ f. stepped_four others (stepped_four steps f)) }
{
    let into = TwoPlaces {
        first: 1088 * steps.one.into as usize,
        second: 1088 * others.one.into as usize,
    };
    let tables = EightTables {
        low: tables_of(steps, products),
        high: tables_of(others, products),
    };
    add_eight(bank, into, places_of(steps), tables);
}

// The four steps from this place on.
fn four_at(program: &Program, place: usize) -> FourSteps
    requires { place + 4 ≤ length program.now.steps.items }
    ensures at { AreAt program.now.steps.items place result }
    ensures within { AreWithin program.now.columns result }
{
    FourSteps {
        one: program.steps[place],
        two: program.steps[place + 1],
        three: program.steps[place + 2],
        four: program.steps[place + 3],
    }
}

// Runs the steps from this place on that transform fifteen columns, if they do, and else the step
// at this place, or four or eight from it on where they go together. Gives the place after them.
fn advance(program: &Program, place: usize, bank: &mut [u8], products: &Products) -> usize
    requires place { place < length program.now.steps.items }
    requires bank { IsBank program.now.columns bank.old }
    ensures { Advances program.now.steps.items place result bank.old bank.new }
{
    if let Some(group) = group_at(&program.steps, place) {
        transform_group(bank, group, transform_tables(products));
        return place + 76;
    }
    let left = program.steps.len() - place;
    if left >= 8 {
        let four = four_at(program, place);
        let others = four_at(program, place + 4);
        if are_paired(four, others) {
            apply_eight(bank, four, others, program.columns, products);
            return place + 8;
        }
    }
    if left >= 4 {
        let four = four_at(program, place);
        if add_together(four) {
            apply_four(bank, four, program.columns, products);
            return place + 4;
        }
    }
    apply(bank, program.steps[place], program.columns, products);
    place + 1
}

/// Runs a program on a bank of its columns.
pub fn run(program: &Program, bank: &mut [u8], products: &Products)
    requires { IsBank program.now.columns bank.old }
    ensures { Becomes bank.old bank.new (meaning program.now.steps.items) }
{
    let mut place = 0;
    while place < program.steps.len() {
        place = advance(program, place, bank, products);
    }
}
