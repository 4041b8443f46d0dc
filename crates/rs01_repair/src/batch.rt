//! Layers that are read together.
ghost use Rattle.std.specs.Prelude.{◌≡◌, ◌+◌, ◌-◌, ◌*◌, ◌<◌, ◌≤◌, [], IfOk, List, OnOk, length, ℕ, slice_index_or};
ghost use Rattle.rs01_outside.specs.DeskState.{InFile, OnlyReads};
ghost use Rattle.rs01_ecchead.specs.Walked.{is_walk_fault};
ghost use Rattle.rs01_repair.specs.Finding.{HasEcc, IsLayer, layers_in, places_in};
ghost use Rattle.rs01_repair.specs.Parts.{AreRead, AreReadFrom, HaveBlocks, HaveBlocksOf};

use crate::found::Found;
use crate::judging::Judging;
use crate::part::{Part, empty_part};
use crate::place::read_place;
use rs01_ecchead::{WalkFault, read_bytes};
use rs01_lists::zeroed;
use rs01_outside::Desk;
use std::alloc::{AllocError, Global};

// How many layers are read at once: few enough that what is read of them is still in the processor's cache when it is
// worked, and that others work on them while the next ones of the same window are read.
const MOST: u32 = 16;

/// Neighbouring layers that were read together: the number of the first one, what was read of each, and their recorded
/// parity, one layer after the other. Those before `next` were given away.
#[derive(Drop)]
pub struct Batch {
    pub next: u32,
    pub first: u32,
    pub parts: Vec<Part>,
    pub parity: Vec<u8>,
}

ghost use Rattle.rs01_repair.specs.Given.{IsParity, IsReady};

impl Batch {
    /// Nothing was read yet, and the layer `next` is to come.
    pub fn new(alloc: Global, next: u32) -> Batch
        ensures next { result.next ≡ next }
        ensures first { result.first ≡ next }
        ensures parts { length result.parts.items ≡ 0 }
        ensures parity { result.parity.items ≡ [] }
    {
        Batch {
            next,
            first: next,
            parts: Vec::new(alloc),
            parity: Vec::new(alloc),
        }
    }
}

// So many layers of which nothing was read.
fn empty_parts(alloc: Global, count: u32, found: &Found) -> Result<Vec<Part>, AllocError>
    ensures len { IfOk result (λ parts. length parts.items ≡ count) }
    ensures none { IfOk result (λ parts. HaveBlocks found.now 0 parts.items) }
    ensures told { (first : ℕ) (file : List ℕ)
        → IfOk result (λ parts. HaveBlocksOf found.now file first 0 parts.items) }
{
    let places = found.ecc.shape().data();
    let mut parts = Vec::new(alloc);
    for _layer in 0..count {
        parts.push(empty_part(alloc, places)?)?;
    }
    Ok(parts)
}

// Reads all places of so many layers from `first` on, each place of all of them at once.
fn read_blocks<D: Desk>(
    alloc: Global,
    desk: &mut D,
    image: &str,
    found: &Found,
    first: u32,
    count: u32,
) -> Result<Vec<Part>, WalkFault>
    requires layers { first + count ≤ layers_in found.now }
    requires few { count ≤ 16 }
    ensures reads { OnlyReads (D.state desk.old) (D.state desk.new) (is_walk_fault result) }
    ensures len { IfOk result (λ parts. length parts.items ≡ count) }
    ensures blocks { IfOk result (λ parts.
        HaveBlocks found.now (places_in found.now) parts.items) }
    ensures told { InFile (D.state desk.old) image.now (λ file. IfOk result (λ parts.
        HaveBlocksOf found.now file first (places_in found.now) parts.items)) }
{
    let mut parts = empty_parts(alloc, count, found)?;
    let mut buffer = zeroed(alloc, 2048 * MOST as usize)?;
    for place in 0..found.ecc.shape().data() {
        read_place(desk, image, found, first, place, &mut buffer, &mut parts)?;
    }
    Ok(parts)
}

// Reads so many layers from `first` on and judges them.
fn read_layers<D: Desk, J: Judging>(
    alloc: Global,
    desk: &mut D,
    image: &str,
    found: &Found,
    judging: &J,
    first: u32,
    count: u32,
) -> Result<Vec<Part>, WalkFault>
    requires layers { first + count ≤ layers_in found.now }
    requires few { count ≤ 16 }
    ensures reads { OnlyReads (D.state desk.old) (D.state desk.new) (is_walk_fault result) }
    ensures len { IfOk result (λ parts. length parts.items ≡ count) }
    ensures read { IfOk result (λ parts.
        AreRead found.now first (places_in found.now) parts.items) }
    ensures told { InFile (D.state desk.old) image.now (λ file. IfOk result (λ parts.
        AreReadFrom found.now file first (places_in found.now) parts.items)) }
{
    let mut parts = read_blocks(alloc, desk, image, found, first, count)?;
    judging.judge(found, first, &mut parts);
    Ok(parts)
}

// Reads the recorded parity of so many layers from `first` on, at once.
fn read_parity<D: Desk>(
    alloc: Global,
    desk: &mut D,
    ecc: &str,
    found: &Found,
    first: u32,
    count: u32,
) -> Result<Vec<u8>, WalkFault>
    requires first { IsLayer found.now first }
    requires layers { first + count ≤ layers_in found.now }
    requires few { count ≤ 16 }
    ensures reads { OnlyReads (D.state desk.old) (D.state desk.new) (is_walk_fault result) }
    ensures len { IfOk result (λ parity.
        length parity.items ≡ 2048 * found.now.ecc.head.parity * count) }
    ensures parity { (e : List ℕ) → HasEcc found.now e (D.state desk.old) ecc.now
        → IfOk result (λ parity. IsParity found.now e first count parity.items) }
{
    let shape = found.ecc.shape();
    let size = 2048 * shape.parity() as usize * count as usize;
    Ok(read_bytes(alloc, desk, ecc, shape.parity_offset(first, 0), size)?)
}

// Reads the next layers in place of those that were given away.
pub fn refill<D: Desk, J: Judging>(
    alloc: Global,
    desk: &mut D,
    image: &str,
    ecc: &str,
    found: &Found,
    judging: &J,
    batch: &mut Batch,
) -> Result<(), WalkFault>
    requires { IsLayer found.now batch.old.next }
    ensures reads { OnlyReads (D.state desk.old) (D.state desk.new) (is_walk_fault result) }
    ensures next { batch.new.next ≡ batch.old.next }
    ensures some { OnOk result
        (batch.new.next < batch.new.first + length batch.new.parts.items) }
    ensures ready { OnOk result
        (IsReady found.now image.now ecc.now (D.state desk.new) batch.new) }
{
    let first = batch.next;
    let count = (found.ecc.shape().layers() - first).min(MOST);
    batch.parts = read_layers(alloc, desk, image, found, judging, first, count)?;
    batch.parity = read_parity(alloc, desk, ecc, found, first, count)?;
    batch.first = first;
    Ok(())
}
