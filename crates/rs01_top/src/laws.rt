//! What a run of `fix` gives back. The law is a function without a body, whose contract is the law.
ghost use Rattle.rs01_top.specs.Restoring.{RunsBringBack};

/// Where the error correction file is intact, and each sector of the image file that isn't erased is the image's, a run of
/// `fix` that met no fault leaves every layer with at most as many erased sectors as a codeword has parity bytes as it is in
/// the image, and its report, which was put, names exactly the erased sectors of the other layers as lost.
///
/// What holds of a run is said by the clause of `run` and of `run_one`, whatever the number of workers.
pub fn runs_bring_back()
    ensures { RunsBringBack }
{}
