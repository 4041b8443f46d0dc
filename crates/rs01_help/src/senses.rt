//! What a person is told of each command, option and plain word beside its row.
//!
//! Each function gives one column of `specs/Senses.antt`.
ghost use Rattle.std.specs.Prelude.{◌≡◌};
ghost use Rattle.rs01_help.specs.Senses.{option_sense, plain_sense, verb_sense};

use rs01_words::{OptionWord, PlainName, Verb};

/// What a command does.
pub(crate) fn verb_sense(verb: Verb) -> &'static str
    ensures { result.now ≡ verb_sense verb }
{
    match verb {
        Verb::Create => "makes ECC from IMAGE, and replaces what stands under that name",
        Verb::Fix => "computes lost sectors again, and writes them into IMAGE",
        Verb::Verify => "tells what is missing or altered in IMAGE, and changes nothing",
        Verb::Scan => "tells which sectors the drives still give, and writes nothing",
        Verb::Read =>
            "asks the drives for each sector that IMAGE doesn't have good, and writes it there",
        Verb::Demo => "makes demo.iso and demo.ecc anew, damages the image and repairs it",
    }
}

/// What an option is for.
pub(crate) fn option_sense(option: OptionWord) -> &'static str
    ensures { result.now ≡ option_sense option }
{
    match option {
        OptionWord::Parity => "parity bytes in a codeword of 255",
        OptionWord::Workers => "threads that work",
        OptionWord::Cut => "cuts off what follows the image in its file",
        OptionWord::Drive =>
            "a drive, or a file in place of one; asked in this order; given at least once",
        OptionWord::Adaptive => "goes on in the middle of the longest unread run",
        OptionWord::Jump => "without --adaptive: how far behind a failed sector it goes on",
        OptionWord::Tries => "how often a drive is asked for a sector",
    }
}

/// What a plain word stands for.
pub(crate) fn plain_sense(name: PlainName) -> &'static str
    ensures { result.now ≡ plain_sense name }
{
    match name {
        PlainName::Image => "the image's file, or a device",
        PlainName::Ecc => "its error correction file",
        PlainName::Number => "what the image is made from",
        PlainName::Sectors => "how many sectors it has",
        PlainName::Parity => "parity bytes in a codeword of 255",
        PlainName::Lost => "how many of its first sectors are lost, at most SECTORS",
    }
}
