//! Putting the sectors of a layer in place.
ghost use Rattle.std.specs.Prelude.{◌≡◌, ◌+◌, ◌<◌, length};
ghost use Rattle.std.specs.Option.{ForSome, option_copied};
ghost use Rattle.rs01_repair.specs.Finding.{IsLayer, IsPlaceOf};
ghost use Rattle.rs01_fix.specs.Places.{HasWholeBlocks, PutsOn, PutsSector};

use rs01_layers::LayerOut;
use rs01_outside::{Desk, Failed};
use rs01_repair::{Found, restored_block};
use rs01_sums::marker;

// Puts the bytes of a sector in place.
fn write_sector<D: Desk>(
    desk: &mut D,
    name: &str,
    found: &Found,
    sector: u32,
    block: &[u8],
) -> Result<(), Failed>
    requires sector { sector < found.now.ecc.head.sectors }
    requires block { length block.now ≡ 2048 }
    ensures { PutsSector found.now sector (Some block.now) name.now
        (D.state desk.old) (D.state desk.new) result }
{
    let length = found.ecc.extent().length(sector) as usize;
    desk.write_at(name, 2048 * u64::from(sector), &block[..length])
}

// Puts the marker of a sector in place, where it was absent.
fn put_marker<D: Desk>(desk: &mut D, name: &str, found: &Found, sector: u32) -> Result<(), Failed>
    requires { sector < found.now.ecc.head.sectors }
    ensures { PutsSector found.now sector None name.now
        (D.state desk.old) (D.state desk.new) result }
{
    if !found.is_absent(sector) {
        return Ok(());
    }
    let mut block = [0u8; 2048];
    marker(sector, &mut block);
    write_sector(desk, name, found, sector, &block)
}

// Puts a sector in place, which may have a restored block.
fn put_sector<D: Desk>(
    desk: &mut D,
    name: &str,
    found: &Found,
    sector: u32,
    block: Option<&[u8]>,
) -> Result<(), Failed>
    requires sector { sector < found.now.ecc.head.sectors }
    requires block { ForSome block (λ bytes. length bytes.now ≡ 2048) }
    ensures { PutsSector found.now sector (option_copied block.entry) name.now
        (D.state desk.old) (D.state desk.new) result }
{
    match block {
        Some(bytes) => write_sector(desk, name, found, sector, bytes),
        None => put_marker(desk, name, found, sector),
    }
}

// Puts what is at a place of a layer in place. A sector that stays as it is isn't written.
fn put_place<D: Desk>(
    desk: &mut D,
    name: &str,
    found: &Found,
    layer: u32,
    place: u32,
    answer: &LayerOut,
) -> Result<(), Failed>
    requires place { IsPlaceOf found.now layer place }
    requires blocks { HasWholeBlocks answer.now }
    ensures { PutsOn found.now answer.now layer place layer (place + 1) name.now
        (D.state desk.old) (D.state desk.new) result }
{
    match found.ecc.shape().sector_at(layer, place) {
        Some(sector) => put_sector(desk, name, found, sector, restored_block(answer, place)),
        None => Ok(()),
    }
}

// Puts the sectors of a layer in place, by its answer.
pub fn put_layer<D: Desk>(
    desk: &mut D,
    name: &str,
    found: &Found,
    layer: u32,
    answer: &LayerOut,
) -> Result<(), Failed>
    requires layer { IsLayer found.now layer }
    requires blocks { HasWholeBlocks answer.now }
    ensures { PutsOn found.now answer.now layer 0 (layer + 1) 0 name.now
        (D.state desk.old) (D.state desk.new) result }
{
    for place in 0..found.ecc.shape().data() {
        put_place(desk, name, found, layer, place, answer)?;
    }
    Ok(())
}
