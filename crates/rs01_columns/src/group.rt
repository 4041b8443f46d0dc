//! Fifteen columns of a bank that are transformed together.

ghost use Rattle.std.specs.Prelude.{◌≡◌, ◌≢◌, ◌⊎◌, ℕ, ◌+◌, ◌*◌, ◌<◌, ◌≤◌, IfSome, IsTrue, length, map, slice_index};
ghost use Rattle.rs01_columns.specs.Bank.{lane};
ghost use Rattle.rs01_columns.specs.Fifteen.{AreFifteen, BeginsWith, HasPut, HasTaken, OnlyInThese, fifteen_steps, moved};
ghost use Rattle.rs01_columns.specs.Program.{meaning};
ghost use Rattle.rs01_columns.specs.Running.{Becomes};

use crate::fifteen::{TransformTables, transform};
use crate::pattern::FIFTEEN;
use crate::program::Step;
use crate::sixteen::{load, store};
use crate::transform::place;

/// Fifteen columns of a word, all different.
#[derive(Clone, Copy)]
pub struct Group {
    columns: [u16; 15],
    ghost fifteen: { AreFifteen columns },
}

// Takes sixteen bytes of each of fifteen columns of a bank, from lane `on` on.
#[inline(always)]
fn take(room: &mut [u8], bank: &[u8], columns: &[u16; 15], on: usize)
    requires room { length room.old ≡ 240 }
    requires columns { AreFifteen columns.now }
    requires on { on + 16 ≤ 1024 }
    requires bank { 1088 * 255 ≤ length bank.now }
    ensures { HasTaken room.new bank.now columns.now on 15 }
{
    for i in 0..15usize {
        let at = 1088 * columns[i] as usize + on;
        store(room, 16 * i, load(bank, at));
    }
}

// Puts them back.
#[inline(always)]
fn put(bank: &mut [u8], room: &[u8], columns: &[u16; 15], on: usize)
    requires room { length room.now ≡ 240 }
    requires columns { AreFifteen columns.now }
    requires on { on + 16 ≤ 1024 }
    requires bank { 1088 * 255 ≤ length bank.old }
    ensures here { HasPut bank.new room.now columns.now on 15 }
    ensures rest { OnlyInThese bank.old bank.new columns.now on 15 }
{
    for i in 0..15usize {
        let at = 1088 * columns[i] as usize + on;
        store(bank, at, load(room, 16 * i));
    }
}

// Transforms sixteen bytes of each of fifteen columns.
fn transform_block(bank: &mut [u8], columns: &[u16; 15], on: usize, tables: TransformTables)
    requires columns { AreFifteen columns.now }
    requires on { on + 16 ≤ 1024 }
    requires bank { 1088 * 255 ≤ length bank.old }
    ensures here { (l : ℕ) → l < 16 → (j : ℕ) → lane bank.new (on + l) j
        ≡ meaning (map (moved columns.now) fifteen_steps) (lane bank.old (on + l)) j }
    ensures rest { (l : ℕ) → l < 1024 → ((l < on) ⊎ (on + 16 ≤ l))
        → (j : ℕ) → lane bank.new l j ≡ lane bank.old l j }
{
    let mut room = [0u8; 240];
    take(&mut room, bank, columns, on);
    transform(&mut room, tables);
    put(bank, &room, columns, on);
}

/// Transforms fifteen columns of a bank.
pub fn transform_group(bank: &mut [u8], group: Group, tables: TransformTables)
    requires { 1088 * 255 ≤ length bank.old }
    ensures { Becomes bank.old bank.new (meaning (map (moved group.columns) fifteen_steps)) }
{
    for b in 0..64usize {
        transform_block(bank, &group.columns, 16 * b, tables);
    }
}

// The columns of the number c below 17.
fn columns_of(c: u16) -> [u16; 15]
    requires { c < 17 }
{
    let mut columns = [0u16; 15];
    for i in 0..15u16 {
        columns[i as usize] = place(i / 5, i % 5, c);
    }
    columns
}

// Whether a column is of a word, and differs from those before it.
fn is_new(columns: &[u16; 15], i: usize) -> bool
    requires { i < 15 }
    ensures below { IsTrue result → slice_index columns.now i < 255 }
    ensures differs { IsTrue result
        → (k : ℕ) → k < i → slice_index columns.now i ≢ slice_index columns.now k }
{
    for k in 0..i {
        if columns[i] == columns[k] {
            return false;
        }
    }
    columns[i] < 255
}

// Whether these are fifteen columns of a word, all different.
fn are_fifteen(columns: &[u16; 15]) -> bool
    ensures { IsTrue result → AreFifteen columns.now }
{
    for i in 0..15usize {
        if !is_new(columns, i) {
            return false;
        }
    }
    true
}

// Whether a column is the one of this number.
fn is_numbered(columns: &[u16; 15], number: u16, column: u16) -> bool
    ensures { IsTrue result → column ≡ slice_index columns.now number }
{
    (number as usize) < 15 && columns[number as usize] == column
}

// Whether a step is the other one, whose columns are given by their numbers.
fn is_moved(columns: &[u16; 15], step: Step, other: Step) -> bool
    ensures { IsTrue result → step ≡ moved columns.now other }
{
    let same = step.factor == other.factor && step.fresh == other.fresh;
    same && is_numbered(columns, other.into, step.into)
        && is_numbered(columns, other.from, step.from)
}

// Whether the steps from a place on begin with the transform of these columns.
fn begins_with(steps: &[Step], at: usize, columns: &[u16; 15]) -> bool
    requires { at + 76 ≤ length steps.now }
    ensures { IsTrue result
        → BeginsWith steps.now at 76 (map (moved columns.now) fifteen_steps) }
{
    for i in 0..76usize {
        if !is_moved(columns, steps[at + i], FIFTEEN[i]) {
            return false;
        }
    }
    true
}

/// The columns that the steps from a place on transform, where they do.
pub fn group_at(steps: &[Step], at: usize) -> Option<Group>
    requires { at ≤ length steps.now }
    ensures room { IfSome result (λ _. at + 76 ≤ length steps.now) }
    ensures begins { IfSome result (λ group.
        BeginsWith steps.now at 76 (map (moved group.columns) fifteen_steps)) }
{
    let c = at / 76;
    if at % 76 != 0 || c >= 17 || steps.len() - at < 76 {
        return None;
    }
    let columns = columns_of(c as u16);
    if are_fifteen(&columns) && begins_with(steps, at, &columns) {
        Some(Group { columns })
    } else {
        None
    }
}
