//! A worked image and its error correction file, for tests of what reads the two.
ghost use Rattle.std.specs.Prelude.{◌≡◌, ◌++◌, IfOk, OnOk};
ghost use Rattle.rs01_fakes.specs.Marks.{unmarked};
ghost use Rattle.rs01_fakes.specs.Memory.{files_of, marks_of};
ghost use Rattle.rs01_fakes.specs.Sample.{HoldsSample, sample_body, sample_digests, sample_ecc, sample_end, sample_header, sample_numbers, sample_texts};

use crate::MemoryDesk;
use md5::{Digest, Md5};
use rs01_lists::{push_zeros, zeroed};
use std::alloc::{AllocError, Global};

// The checksum of a sector of zeros, once for each sector.
static SUMS: [u8; 40] = [
    0x9e, 0xba, 0xe8, 0xf1, 0x9e, 0xba, 0xe8, 0xf1, 0x9e, 0xba, 0xe8, 0xf1, 0x9e, 0xba, 0xe8, 0xf1,
    0x9e, 0xba, 0xe8, 0xf1, 0x9e, 0xba, 0xe8, 0xf1, 0x9e, 0xba, 0xe8, 0xf1, 0x9e, 0xba, 0xe8, 0xf1,
    0x9e, 0xba, 0xe8, 0xf1, 0x9e, 0xba, 0xe8, 0xf1,
];

// 10 sectors, 247 data bytes and 8 parity bytes a codeword, twice the version 1, and the fingerprint
// in sector 9.
static NUMBERS: [u8; 28] = [
    10, 0, 0, 0, 0, 0, 0, 0, 247, 0, 0, 0, 8, 0, 0, 0, 1, 0, 0, 0, 1, 0, 0, 0, 9, 0, 0, 0,
];

// What stands after the header: the checksums and the parity.
fn push_body(out: &mut Vec<u8>) -> Result<(), AllocError>
    ensures { OnOk result (out.new.items ≡ out.old.items ++ sample_body) }
{
    out.extend_from_slice(&SUMS)?;
    push_zeros(16_384, out)?;
    Ok(())
}

// The digests of a sector, of the image and of what stands after the header.
fn push_digests(alloc: Global, body: &[u8], out: &mut Vec<u8>) -> Result<(), AllocError>
    requires { body.now ≡ sample_body }
    ensures { OnOk result (out.new.items ≡ out.old.items ++ sample_digests) }
{
    let sector = zeroed(alloc, 2048)?;
    let image = zeroed(alloc, 20_480)?;
    out.extend_from_slice(&Md5::digest(&sector))?;
    out.extend_from_slice(&Md5::digest(&image))?;
    out.extend_from_slice(&Md5::digest(body))?;
    Ok(())
}

// The header's numbers.
fn push_numbers(out: &mut Vec<u8>) -> Result<(), AllocError>
    ensures { OnOk result (out.new.items ≡ out.old.items ++ sample_numbers) }
{
    out.extend_from_slice(&NUMBERS)?;
    Ok(())
}

// The header's end: the bytes of the last sector, 2048, among reserved ones.
fn push_end(out: &mut Vec<u8>) -> Result<(), AllocError>
    ensures { OnOk result (out.new.items ≡ out.old.items ++ sample_end) }
{
    push_zeros(20, out)?;
    out.extend_from_slice(&[0, 8, 0, 0])?;
    push_zeros(3976, out)?;
    Ok(())
}

// Texts and flags.
fn push_texts(out: &mut Vec<u8>) -> Result<(), AllocError>
    ensures { OnOk result (out.new.items ≡ out.old.items ++ sample_texts) }
{
    out.extend_from_slice(b"*dvdisaster*RS01\0\0\0\0")?;
    Ok(())
}

// The header, for what stands after it.
fn push_header(alloc: Global, body: &[u8], out: &mut Vec<u8>) -> Result<(), AllocError>
    requires { body.now ≡ sample_body }
    ensures { OnOk result (out.new.items ≡ out.old.items ++ sample_header) }
{
    push_texts(out)?;
    push_digests(alloc, body, out)?;
    push_numbers(out)?;
    push_end(out)?;
    Ok(())
}

/// The error correction file of an image of ten sectors of zeros, with 8 parity bytes a codeword.
/// They are zeros too.
pub fn sample_ecc(alloc: Global) -> Result<Vec<u8>, AllocError>
    ensures { IfOk result (λ file. file.items ≡ sample_ecc) }
{
    let mut body = Vec::new(alloc);
    push_body(&mut body)?;
    let mut file = Vec::new(alloc);
    push_header(alloc, &body, &mut file)?;
    file.extend_from_slice(&body)?;
    Ok(file)
}

/// A desk with that image under `disc.iso` and that file under `disc.ecc`, and with nothing else.
pub fn sample_desk(alloc: Global) -> Result<MemoryDesk, AllocError>
    ensures holds { IfOk result (λ desk. HoldsSample (files_of desk)) }
    ensures marks { IfOk result (λ desk. marks_of desk ≡ unmarked) }
{
    let mut desk = MemoryDesk::new(alloc);
    desk.put_file(alloc, "disc.iso", &zeroed(alloc, 20_480)?)?;
    desk.put_file(alloc, "disc.ecc", &sample_ecc(alloc)?)?;
    Ok(desk)
}
