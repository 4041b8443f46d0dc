//! Which fault a refusal is told as.
ghost use Rattle.std.specs.Prelude.{◌≡◌};
ghost use Rattle.rs01_top.specs.Faults.{absent_fault, create_fault, demo_fault, ecc_fault, fix_fault, head_fault, rack_fault, read_fault, verify_fault, word_fault};

use rs01_create::CreateRefusal;
use rs01_demo::DemoRefusal;
use rs01_ecchead::{EccRefusal, HeadRefusal, Which};
use rs01_fix::FixRefusal;
use rs01_linear::ReadRefusal;
use rs01_rack::RackRefusal;
use rs01_report::Fault;
use rs01_verify::VerifyRefusal;
use rs01_words::{WordFault, WordRefused};

// The fault of a word.
pub fn word_fault(refused: WordRefused) -> Fault
    ensures { result ≡ word_fault refused }
{
    let place = refused.place;
    match refused.fault {
        WordFault::NoCommand => Fault::NoCommand,
        WordFault::UnknownCommand => Fault::UnknownCommand,
        WordFault::UnknownOption => Fault::UnknownOption(place),
        WordFault::Repeated => Fault::Repeated(place),
        WordFault::NoValue => Fault::NoValue(place),
        WordFault::BadNumber => Fault::BadNumber(place),
        WordFault::OutOfRange => Fault::OutOfRange(place),
        WordFault::Missing => Fault::Missing(place),
        WordFault::SameName => Fault::SameName(place),
    }
}

// The fault of a file that wasn't made.
pub fn create_fault(why: CreateRefusal) -> Fault
    ensures { result ≡ create_fault why }
{
    match why {
        CreateRefusal::NoImage => Fault::NoImage,
        CreateRefusal::EmptyImage => Fault::EmptyImage,
        CreateRefusal::TooManySectors(sectors) => Fault::TooManySectors(sectors),
        CreateRefusal::Marker(sector) => Fault::Marker(sector),
        CreateRefusal::ReadFault => Fault::ReadFault,
        CreateRefusal::WriteFault => Fault::WriteFault,
        CreateRefusal::OutOfMemory => Fault::OutOfMemory,
    }
}

// The fault of a file that isn't there.
pub fn absent_fault(which: Which) -> Fault
    ensures { result ≡ absent_fault which }
{
    match which {
        Which::Ecc => Fault::NoEcc,
        Which::Image => Fault::NoImage,
    }
}

// The fault of a header.
pub fn head_fault(why: HeadRefusal) -> Fault
    ensures { result ≡ head_fault why }
{
    match why {
        HeadRefusal::Cookie => Fault::Cookie,
        HeadRefusal::Method => Fault::Method,
        HeadRefusal::Version => Fault::Version,
        HeadRefusal::Sectors => Fault::Sectors,
        HeadRefusal::Parity => Fault::Parity,
        HeadRefusal::LastBytes => Fault::LastBytes,
    }
}

// The fault of an image that wasn't checked.
pub fn verify_fault(why: VerifyRefusal) -> Fault
    ensures { result ≡ verify_fault why }
{
    match why {
        VerifyRefusal::NoFile(which) => absent_fault(which),
        VerifyRefusal::Head(why) => head_fault(why),
        VerifyRefusal::Size { have, want } => Fault::Size(have, want),
        VerifyRefusal::Body { have, want } => Fault::Body(have, want),
        VerifyRefusal::ReadFault => Fault::ReadFault,
        VerifyRefusal::OutOfMemory => Fault::OutOfMemory,
    }
}

// The fault of an image that wasn't repaired.
pub fn fix_fault(why: FixRefusal) -> Fault
    ensures { result ≡ fix_fault why }
{
    match why {
        FixRefusal::NoFile(which) => absent_fault(which),
        FixRefusal::Head(why) => head_fault(why),
        FixRefusal::Size { have, want } => Fault::Size(have, want),
        FixRefusal::Body { have, want } => Fault::Body(have, want),
        FixRefusal::ReadFault => Fault::ReadFault,
        FixRefusal::WriteFault => Fault::WriteFault,
        FixRefusal::OutOfMemory => Fault::OutOfMemory,
    }
}

// The fault of a demonstration that wasn't done.
pub fn demo_fault(why: DemoRefusal) -> Fault
    ensures { result ≡ demo_fault why }
{
    match why {
        DemoRefusal::Create(why) => create_fault(why),
        DemoRefusal::Fix(why) => fix_fault(why),
        DemoRefusal::ReadFault => Fault::ReadFault,
        DemoRefusal::WriteFault => Fault::WriteFault,
        DemoRefusal::OutOfMemory => Fault::OutOfMemory,
    }
}

// The fault of an error correction file that wasn't opened.
pub fn ecc_fault(why: EccRefusal) -> Fault
    ensures { result ≡ ecc_fault why }
{
    match why {
        EccRefusal::NoFile => Fault::NoEcc,
        EccRefusal::Head(why) => head_fault(why),
        EccRefusal::Size { have, want } => Fault::Size(have, want),
        EccRefusal::Body { have, want } => Fault::Body(have, want),
        EccRefusal::ReadFault => Fault::ReadFault,
        EccRefusal::OutOfMemory => Fault::OutOfMemory,
    }
}

// The fault of drives that gave no number of sectors.
pub fn rack_fault(why: RackRefusal) -> Fault
    ensures { result ≡ rack_fault why }
{
    match why {
        RackRefusal::NoDrive => Fault::NoDrive,
        RackRefusal::Failed(drive) => Fault::Failed(drive),
        RackRefusal::Differ(first, other) => Fault::Differ(first, other),
    }
}

// The fault of a medium that wasn't read or scanned.
pub fn read_fault(why: ReadRefusal) -> Fault
    ensures { result ≡ read_fault why }
{
    match why {
        ReadRefusal::Ecc(why) => ecc_fault(why),
        ReadRefusal::Rack(why) => rack_fault(why),
        ReadRefusal::DriveSize(sectors) => Fault::DriveSize(sectors),
        ReadRefusal::ReadFault => Fault::ReadFault,
        ReadRefusal::WriteFault => Fault::WriteFault,
        ReadRefusal::OutOfMemory => Fault::OutOfMemory,
    }
}
