//! Taking the answers to the layers of a window.
ghost use Rattle.rs01_layers.specs.Layout.{layers_of};
ghost use Rattle.rs01_adaptive.specs.Noting.{HasLayers};
ghost use Rattle.rs01_adaptive.specs.Settling.{CanSettle, CanTake, SettlesAll, SettlesOne};

use crate::noting::Noted;
use crate::putting::put_layer;
use rs01_ecchead::Ecc;
use rs01_layers::LayerOut;
use rs01_outside::{Desk, Failed};
use rs01_reader::{Setup, Stop};
use rs01_workers::Results;

// Puts the restored sectors of a layer in place, and keeps its answer.
fn settle_layer<D: Desk>(
    desk: &mut D,
    image: &str,
    ecc: &Ecc,
    noted: &mut Noted,
    layer: u32,
    answer: &LayerOut,
) -> Result<(), Stop>
    requires can { CanSettle ecc.now layer answer.now }
    requires all { HasLayers (layers_of ecc.now.head.sectors ecc.now.head.parity) noted.old }
    ensures { SettlesOne ecc.now layer answer.now image.now noted.old noted.new
        (D.state desk.old) (D.state desk.new) result }
{
    match put_layer(desk, image, ecc, layer, answer) {
        Ok(()) => {
            noted.note(ecc, layer, answer);
            Ok(())
        }
        Err(Failed) => Err(Stop::WriteFault),
    }
}

// The same of all layers of a window.
pub fn settle_results<D: Desk>(
    desk: &mut D,
    setup: &Setup,
    noted: &mut Noted,
    results: &Results,
) -> Result<(), Stop>
    requires { CanTake setup.now.medium.now.ecc noted.old results.now }
    ensures { SettlesAll setup.now noted.old noted.new (D.state desk.old) (D.state desk.new)
        results.now result }
{
    let Some(ecc) = setup.medium.ecc() else {
        return Ok(());
    };
    for i in 0..results.len() {
        settle_layer(
            desk,
            setup.image,
            ecc,
            noted,
            results.input(i).layer,
            results.out(i),
        )?;
    }
    Ok(())
}
