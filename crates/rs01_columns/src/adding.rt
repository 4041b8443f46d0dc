//! Multiples of columns are added to others.

ghost use Rattle.std.specs.Prelude.{◌≡◌, ℕ, ◌+◌, ◌%◌, ◌<◌, ◌≤◌, length, slice_index, bit_xor};
ghost use Rattle.rs01_columns.specs.Lanes.{HasLanes, HoldsProducts};
ghost use Rattle.rs01_columns.specs.Ranges.{HasAdded, IsRaised, OnlyHere};
ghost use Rattle.rs01_columns.specs.Fours.{AreBothRaised, AreLoaded, AreRaised, AreTablesOf, BothTakeFour, HasRoom, HasRoomForBoth, OnlyInBoth, TakesFour, places_on, raised_by};

use crate::products::Products;
use crate::program::FourSteps;
use crate::sixteen::{FourSixteens, Table, add_product, load, store, table_of};
use std::simd::prelude::*;

// One block of sixteen places.
#[inline(always)]
fn add_block(column: &mut [u8], other: &[u8], table: Table, at: usize)
    requires column { at + 16 ≤ length column.old }
    requires other { at + 16 ≤ length other.now }
    ensures here { IsRaised column.old column.new other.now table.factor at at 16 }
    ensures rest { OnlyHere column.old column.new at 16 }
{
    let v = load(other, at);
    let old = load(column, at);
    store(column, at, add_product(old, table, v));
}

// Adds the products of another column.
fn add_products(column: &mut [u8], other: &[u8], table: Table)
    requires whole { length column.old % 16 ≡ 0 }
    requires same { length other.now ≡ length column.old }
    ensures { HasAdded column.old column.new other.now table.factor }
{
    for i in 0..column.len() / 16 {
        add_block(column, other, table, i * 16);
    }
}

// Adds the other column.
fn add_plainly(column: &mut [u8], other: &[u8])
    requires same { length other.now ≡ length column.old }
    ensures { (k : ℕ) → k < length column.old
        → slice_index column.new k ≡ bit_xor (slice_index column.old k) (slice_index other.now k) }
{
    for k in 0..column.len() {
        column[k] = column[k] ^ other[k];
    }
}

/// Adds a multiple of another column, given the table of products.
pub fn add_column(column: &mut [u8], other: &[u8], factor: u8, products: &[u8])
    requires whole { length column.old % 16 ≡ 0 }
    requires same { length other.now ≡ length column.old }
    requires products { HoldsProducts products.now }
    ensures { HasAdded column.old column.new other.now factor }
{
    if factor == 1 {
        add_plainly(column, other);
    } else {
        add_products(column, other, table_of(factor, products));
    }
}

/// Where four columns begin.
#[derive(Clone, Copy)]
pub struct FourPlaces {
    pub one: usize,
    pub two: usize,
    pub three: usize,
    pub four: usize,
}

/// The tables of four factors.
#[derive(Clone, Copy)]
pub struct FourTables {
    one: Table,
    two: Table,
    three: Table,
    four: Table,
}

/// The tables of the factors of four steps.
#[inline(always)]
pub fn tables_of(steps: FourSteps, products: &Products) -> FourTables
    ensures { AreTablesOf result steps }
{
    let bytes = products.bytes();
    FourTables {
        one: table_of(steps.one.factor, bytes),
        two: table_of(steps.two.factor, bytes),
        three: table_of(steps.three.factor, bytes),
        four: table_of(steps.four.factor, bytes),
    }
}

// The places so many bytes on.
#[inline(always)]
fn moved(from: FourPlaces, on: usize, len: usize) -> FourPlaces
    requires { HasRoom len on from }
    ensures { result ≡ places_on from on }
{
    FourPlaces {
        one: from.one + on,
        two: from.two + on,
        three: from.three + on,
        four: from.four + on,
    }
}

// Sixteen bytes from each of the places on.
#[inline(always)]
fn load_four(bank: &[u8], from: FourPlaces) -> FourSixteens
    requires { HasRoom (length bank.now) 16 from }
    ensures { AreLoaded bank.now from result }
{
    FourSixteens {
        one: load(bank, from.one),
        two: load(bank, from.two),
        three: load(bank, from.three),
        four: load(bank, from.four),
    }
}

// Sixteen bytes with four products.
#[inline(always)]
fn add_four_products(old: u8x16, tables: FourTables, v: FourSixteens) -> u8x16
    requires { length old ≡ 16 }
    ensures { HasLanes result (λ k. raised_by tables
        (slice_index old k) (slice_index v.one k) (slice_index v.two k)
        (slice_index v.three k) (slice_index v.four k)) }
{
    let first = add_product(old, tables.one, v.one);
    let second = add_product(first, tables.two, v.two);
    let third = add_product(second, tables.three, v.three);
    add_product(third, tables.four, v.four)
}

// Sixteen bytes take four products.
#[inline(always)]
fn four_block(bank: &mut [u8], into: usize, from: FourPlaces, tables: FourTables)
    requires into { into + 16 ≤ length bank.old }
    requires from { HasRoom (length bank.old) 16 from }
    ensures here { AreRaised bank.old bank.new tables from into 16 }
    ensures rest { OnlyHere bank.old bank.new into 16 }
{
    let v = load_four(bank, from);
    let old = load(bank, into);
    store(bank, into, add_four_products(old, tables, v));
}

/// Adds multiples of four columns of a bank to one that lies apart.
pub fn add_four(bank: &mut [u8], into: usize, from: FourPlaces, tables: FourTables)
    requires places { TakesFour (length bank.old) into from }
    ensures here { AreRaised bank.old bank.new tables from into 1024 }
    ensures rest { OnlyHere bank.old bank.new into 1024 }
{
    let len = bank.len();
    for i in 0..64usize {
        four_block(bank, into + 16 * i, moved(from, 16 * i, len), tables);
    }
}

/// Where two columns begin.
#[derive(Clone, Copy)]
pub struct TwoPlaces {
    pub first: usize,
    pub second: usize,
}

/// The tables for each of two columns.
#[derive(Clone, Copy)]
pub struct EightTables {
    pub low: FourTables,
    pub high: FourTables,
}

// Sixteen bytes of two columns take four products each.
#[inline(always)]
fn eight_block(bank: &mut [u8], into: TwoPlaces, from: FourPlaces, tables: EightTables)
    requires into { HasRoomForBoth (length bank.old) 16 into }
    requires from { HasRoom (length bank.old) 16 from }
    ensures here { AreBothRaised bank.old bank.new tables from into 16 }
    ensures rest { OnlyInBoth bank.old bank.new into 16 }
{
    let v = load_four(bank, from);
    let here = load(bank, into.first);
    let there = load(bank, into.second);
    store(bank, into.first, add_four_products(here, tables.low, v));
    store(bank, into.second, add_four_products(there, tables.high, v));
}

/// Adds multiples of four columns of a bank to two that lie apart.
pub fn add_eight(bank: &mut [u8], into: TwoPlaces, from: FourPlaces, tables: EightTables)
    requires places { BothTakeFour (length bank.old) into from }
    ensures here { AreBothRaised bank.old bank.new tables from into 1024 }
    ensures rest { OnlyInBoth bank.old bank.new into 1024 }
{
    let len = bank.len();
    for i in 0..64usize {
        let on = 16 * i;
        let here = TwoPlaces {
            first: into.first + on,
            second: into.second + on,
        };
        eight_block(bank, here, moved(from, on, len), tables);
    }
}
