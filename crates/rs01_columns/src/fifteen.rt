//! The transform of fifteen columns, of sixteen bytes each.

ghost use Rattle.std.specs.Prelude.{◌≡◌, ◌+◌, ◌<◌, bit_xor, length, slice_index};
ghost use Rattle.rs01_columns.specs.Fifteen.{LanesBecome, fifteen_steps, five_steps, result_steps, step, sum_steps, three_steps};
ghost use Rattle.rs01_columns.specs.Lanes.{HasLanes};
ghost use Rattle.rs01_columns.specs.Program.{meaning, stepped};
ghost use Rattle.rs01_gf256.specs.Field.{times};

use crate::products::Products;
use crate::sixteen::{Table, add_product, load, store, sum, table_of};
use std::simd::prelude::*;

/// The tables of the factors by which the transform multiplies.
#[derive(Clone, Copy)]
pub struct TransformTables {
    third: Table,
    cross: Table,
    fifth: Table,
    square: Table,
    low: Table,
    high: Table,
    ghost third_factor: { third.factor ≡ 0xaa },
    ghost cross_factor: { cross.factor ≡ 0xab },
    ghost fifth_factor: { fifth.factor ≡ 0x6c },
    ghost square_factor: { square.factor ≡ 0x18 },
    ghost low_factor: { low.factor ≡ 0x74 },
    ghost high_factor: { high.factor ≡ 0xdf },
}

/// These tables.
pub fn transform_tables(products: &Products) -> TransformTables {
    let bytes = products.bytes();
    TransformTables {
        third: table_of(0xaa, bytes),
        cross: table_of(0xab, bytes),
        fifth: table_of(0x6c, bytes),
        square: table_of(0x18, bytes),
        low: table_of(0x74, bytes),
        high: table_of(0xdf, bytes),
    }
}

// Adds sixteen bytes to others, once.
#[inline(always)]
fn add_once(old: u8x16, v: u8x16) -> u8x16
    requires old { length old ≡ 16 }
    requires v { length v ≡ 16 }
    ensures { HasLanes result
        (λ k. bit_xor (slice_index old k) (times 1 (slice_index v k))) }
{
    sum(old, v)
}

// Adds a column to another.
#[inline(always)]
fn add(room: &mut [u8], into: usize, from: usize)
    requires room { length room.old ≡ 240 }
    requires into { into < 15 }
    requires from { from < 15 }
    ensures { LanesBecome room.old room.new (stepped (step into from 1)) }
{
    let v = load(room, 16 * from);
    let old = load(room, 16 * into);
    store(room, 16 * into, add_once(old, v));
}

// Adds a multiple of a column to another.
#[inline(always)]
fn add_times(room: &mut [u8], into: usize, from: usize, table: Table)
    requires room { length room.old ≡ 240 }
    requires into { into < 15 }
    requires from { from < 15 }
    ensures { LanesBecome room.old room.new (stepped (step into from table.factor)) }
{
    let v = load(room, 16 * from);
    let old = load(room, 16 * into);
    store(room, 16 * into, add_product(old, table, v));
}

// The transform of three columns.
#[inline(always)]
fn three(room: &mut [u8], x: usize, y: usize, z: usize, tables: TransformTables)
    requires room { length room.old ≡ 240 }
    requires x { x < 15 }
    requires y { y < 15 }
    requires z { z < 15 }
    ensures { LanesBecome room.old room.new (meaning (three_steps x y z)) }
{
    add(room, y, z);
    add(room, x, y);
    add(room, z, x);
    add_times(room, z, y, tables.third);
    add(room, y, z);
}

// The first half of the transform of the five columns from `x` on.
#[inline(always)]
fn five_sums(room: &mut [u8], x: usize, tables: TransformTables)
    requires room { length room.old ≡ 240 }
    requires x { x < 11 }
    ensures { LanesBecome room.old room.new
        (meaning (sum_steps x (x + 1) (x + 2) (x + 3) (x + 4))) }
{
    add(room, x + 1, x + 4);
    add(room, x + 2, x + 3);
    add(room, x + 4, x + 3);
    add(room, x + 3, x);
    add_times(room, x + 3, x + 4, tables.cross);
    add_times(room, x + 3, x + 1, tables.fifth);
    add_times(room, x + 3, x + 2, tables.square);
}

// The second half.
#[inline(always)]
fn five_results(room: &mut [u8], x: usize, tables: TransformTables)
    requires room { length room.old ≡ 240 }
    requires x { x < 11 }
    ensures { LanesBecome room.old room.new
        (meaning (result_steps x (x + 1) (x + 2) (x + 3) (x + 4))) }
{
    add(room, x + 4, x + 3);
    add_times(room, x + 4, x + 1, tables.low);
    add_times(room, x + 4, x + 2, tables.high);
    add(room, x, x + 1);
    add(room, x, x + 2);
    add(room, x + 2, x + 1);
    add_times(room, x + 1, x + 2, tables.cross);
    add(room, x + 2, x + 1);
    add(room, x + 1, x + 4);
    add(room, x + 2, x + 3);
}

// The transform of the five columns from `x` on.
#[inline(always)]
fn five(room: &mut [u8], x: usize, tables: TransformTables)
    requires room { length room.old ≡ 240 }
    requires x { x < 11 }
    ensures { LanesBecome room.old room.new
        (meaning (five_steps x (x + 1) (x + 2) (x + 3) (x + 4))) }
{
    five_sums(room, x, tables);
    five_results(room, x, tables);
}

/// The transform of the fifteen columns.
#[inline(always)]
pub fn transform(room: &mut [u8], tables: TransformTables)
    requires { length room.old ≡ 240 }
    ensures { LanesBecome room.old room.new (meaning fifteen_steps) }
{
    three(room, 0, 5, 10, tables);
    three(room, 1, 6, 11, tables);
    three(room, 2, 7, 12, tables);
    three(room, 3, 8, 13, tables);
    three(room, 4, 9, 14, tables);
    five(room, 0, tables);
    five(room, 5, tables);
    five(room, 10, tables);
}
