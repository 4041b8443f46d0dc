//! What holds of headers, of whole files, of erased sectors and of judgements.
ghost use Rattle.rs01_ecchead.specs.Condition.{IsJudgedByTheFile};
ghost use Rattle.rs01_ecchead.specs.Erased.{ErasedIsMissingOrAltered, MissingIsNotAltered};
ghost use Rattle.rs01_ecchead.specs.Header.{ReadsBack};
ghost use Rattle.rs01_ecchead.specs.ReadAgain.{AreReadAgain};

/// A header is read as it was written: reading the bytes of any fields in range gives these fields.
pub fn headers_read_back()
    ensures { ReadsBack }
{}

/// A sector is erased exactly where it is missing or altered, and no sector is both.
pub fn erased_sectors_are_missing_or_altered()
    ensures either { ErasedIsMissingOrAltered }
    ensures not_both { MissingIsNotAltered }
{}

/// A sector of an image file is judged as missing or altered exactly where it is, and as sound else.
pub fn sectors_are_judged_by_their_file()
    ensures { IsJudgedByTheFile }
{}

/// The error correction file of an image of 1 byte to 16,777,215 sectors, with 8 to 100 parity bytes a codeword, is
/// opened, and tells the fields, the checksums and the parity of this image.
pub fn files_are_read_again()
    ensures { AreReadAgain }
{}
