//! An example: an image in memory that is protected, damaged and repaired.
//!
//! `MemoryDesk` stands in for the files of a system: the engines take any `Desk`.
#![tactic(auto)]

ghost use Rattle.std.specs.Prelude.{IfSome, codes};
ghost use Rattle.rs01_outside.specs.Files.{bytes_of};
ghost use Rattle.rs01_fakes.specs.Memory.{files_of};
ghost use Rattle.rs01_example_image.specs.Repairing.{IsRepaired};

use rs01_create::create_one;
use rs01_fakes::MemoryDesk;
use rs01_fix::fix_one;
use std::alloc::Global;

/// Makes the error correction file of the image `disc.iso` under `disc.ecc`, puts a damaged copy in
/// the image's place, repairs it, and gives the length of the file. None where a call is refused, as
/// where memory is wanting.
pub fn protect_and_repair(alloc: Global, desk: &mut MemoryDesk, damaged: &[u8]) -> Option<u64>
    ensures { let image = bytes_of (files_of desk.old) (codes "disc.iso") in
        IfSome result (IsRepaired image damaged.now (files_of desk.new)) }
{
    create_one(alloc, desk, "disc.iso", "disc.ecc", 32).ok()?;
    desk.put_file(alloc, "disc.iso", damaged).ok()?;
    fix_one(alloc, desk, "disc.iso", "disc.ecc", false).ok()?;
    let file = desk.file("disc.ecc")?;
    Some(file.len() as u64)
}

#[cfg(test)]
mod tests;
