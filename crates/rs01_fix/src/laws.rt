//! What repairing gives back. Each law is a function without a body, whose contract is the law.
ghost use Rattle.rs01_fix.specs.ComesBack.{ImagesComeBack, RepairGoesOn};

/// Where the error correction file is intact, and each sector of the image file that isn't erased is the image's, each
/// layer with at most as many erased sectors as a codeword has parity bytes is the image's afterwards, exactly the erased
/// sectors of the other layers are lost, and no layer is strange.
///
/// A sector is erased where it is absent, marked as missing, or has another checksum than the recorded one. So the second
/// premise says that no altered sector has its recorded checksum.
pub fn images_come_back()
    ensures { ImagesComeBack }
{}

/// A repair that a fault interrupted goes on: where the file that it left has, as the one before, no sector that isn't
/// erased and isn't the image's, a second repair gives back each layer that the first would have given back.
pub fn repair_goes_on()
    ensures { RepairGoesOn }
{}
