//! Putting the restored sectors of a layer in place.
ghost use Rattle.std.specs.Prelude.{◌≡◌, ◌+◌, ◌<◌, Some, length};
ghost use Rattle.std.specs.Option.{ForSome, option_copied};
ghost use Rattle.rs01_layers.specs.Layout.{layers_of};
ghost use Rattle.rs01_adaptive.specs.Putting.{HasWhole, IsPlaceOf, PutsBlock, PutsLayer, PutsOn};

use rs01_ecchead::Ecc;
use rs01_layers::LayerOut;
use rs01_outside::{Desk, Failed};
use rs01_repair::restored_block;

// Puts a sector's own bytes of a block in place, where there is one.
fn put_block<D: Desk>(
    desk: &mut D,
    name: &str,
    ecc: &Ecc,
    sector: u32,
    block: Option<&[u8]>,
) -> Result<(), Failed>
    requires sector { sector < ecc.now.head.sectors }
    requires block { ForSome block (λ bytes. length bytes.now ≡ 2048) }
    ensures { PutsBlock ecc.now sector (option_copied block.entry) name.now
        (D.state desk.old) (D.state desk.new) result }
{
    let Some(bytes) = block else {
        return Ok(());
    };
    let length = ecc.extent().length(sector) as usize;
    desk.write_at(name, 2048 * u64::from(sector), &bytes[..length])
}

// Puts the restored sector at a place of a layer in place, where there is one.
fn put_place<D: Desk>(
    desk: &mut D,
    name: &str,
    ecc: &Ecc,
    layer: u32,
    place: u32,
    answer: &LayerOut,
) -> Result<(), Failed>
    requires place { IsPlaceOf ecc.now layer place }
    requires blocks { HasWhole answer.now }
    ensures { PutsOn ecc.now layer answer.now place (place + 1) name.now
        (D.state desk.old) (D.state desk.new) result }
{
    match ecc.shape().sector_at(layer, place) {
        Some(sector) => put_block(desk, name, ecc, sector, restored_block(answer, place)),
        None => Ok(()),
    }
}

/// Puts the restored sectors of a layer in place, each by one write.
///
/// Nothing else changes. After a fault each byte of such a sector is the old one or the restored one.
pub fn put_layer<D: Desk>(
    desk: &mut D,
    name: &str,
    ecc: &Ecc,
    layer: u32,
    answer: &LayerOut,
) -> Result<(), Failed>
    requires layer { layer < layers_of ecc.now.head.sectors ecc.now.head.parity }
    requires blocks { HasWhole answer.now }
    ensures { PutsLayer ecc.now layer answer.now name.now
        (D.state desk.old) (D.state desk.new) result }
{
    for place in 0..ecc.shape().data() {
        put_place(desk, name, ecc, layer, place, answer)?;
    }
    Ok(())
}
