//! What holds of the layout as a whole.

ghost use Rattle.rs01_layers.specs.Placing.{
  EachSectorHasAPlace,
  EachSectorHasOnePlace,
  ParityFillsFile,
  ParityIsInFile,
  ParityStandsApart,
  PlaceDeterminesSector,
};

/// Layer and place determine a sector.
pub fn place_determines_sector()
    ensures { PlaceDeterminesSector }
{}

/// Each sector stands at its place of its layer, and at no other place.
pub fn sectors_have_one_place()
    ensures there { EachSectorHasAPlace }
    ensures nowhere_else { EachSectorHasOnePlace }
{}

/// The parity bytes of all codewords stand apart, behind the header and the checksums, and fill
/// the file from there to its end.
pub fn parity_fills_the_file()
    ensures within { ParityIsInFile }
    ensures apart { ParityStandsApart }
    ensures whole { ParityFillsFile }
{}
