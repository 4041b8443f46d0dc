//! Drives of the system.
use super::script::right_anew;
use rs01_host::FileDrive;
use rs01_outside::Drive;
use std::alloc::AllocError;
use std::test::Fail;

fn dashes() -> [u8; 2048] {
    [b'-'; 2048]
}

// Whether a block begins with some bytes, and ends with this one.
fn has_ends(block: &[u8], first: &[u8], last: u8) -> bool {
    block.starts_with(first) && block.last() == Some(&last)
}

// Whether a sector is read, begins with some bytes, and ends with this one.
pub(crate) fn is_read<D: Drive>(drive: &mut D, sector: u32, first: &[u8], last: u8) -> bool {
    let mut block = dashes();
    drive.read(sector, &mut block).is_ok() && has_ends(&block, first, last)
}

pub(crate) fn is_refused<D: Drive>(drive: &mut D, sector: u32) -> bool {
    drive.read(sector, &mut dashes()).is_err()
}

// Whether a drive whose sector 9 ends in an `a`, and whose last begins with `blast`, is read so.
fn is_read_whole<D: Drive>(drive: &mut D) -> bool {
    drive.sectors() == Ok(11)
        && is_read(drive, 9, b"\0\0\0", b'a')
        && is_read(drive, 10, b"blast\0\0", 0)
        && is_refused(drive, 11)
        && drive.faults() == 1
}

// The same once it was cut before that `a`: it ends before the length that was found at first.
fn is_read_cut<D: Drive>(drive: &mut D) -> bool {
    is_refused(drive, 10)
        && is_refused(drive, 9)
        && is_read(drive, 8, b"\0\0\0", 0)
        && drive.sectors() == Ok(11)
        && drive.faults() == 3
}

pub(crate) fn drive_of<'a>(
    rt: &'a HostRuntime,
    name: &str,
) -> Result<FileDrive<&'a HostRuntime>, AllocError> {
    Ok(FileDrive::new(rt, String::from_str(rt.alloc(), name)?))
}

// Whether a file is read before and after it is cut. Its bytes begin 2047 bytes into the sector 9.
fn is_read_as_a_drive(rt: &HostRuntime, name: &str) -> Result<bool, AllocError> {
    let made = "fresh done drive
        make done it
        write done it 20479 ablast";
    let mut drive = drive_of(rt, name)?;
    Ok(
        right_anew(rt, name, made)
            && is_read_whole(&mut drive)
            && right_anew(rt, name, "cut done it 20479")
            && is_read_cut(&mut drive),
    )
}

#[test]
fn a_file_is_read_as_a_drive(rt: HostRuntime) -> Result<(), Fail> {
    assert!(rt; is_read_as_a_drive(&rt, "drive/disc")?);
    Ok(())
}

// Whether each call on a drive fails.
fn fails(rt: &HostRuntime, name: &str) -> Result<bool, AllocError> {
    let mut drive = drive_of(rt, name)?;
    Ok(drive.sectors().is_err() && is_refused(&mut drive, 0) && drive.faults() == 2)
}

#[test]
fn what_is_no_drive_is_a_fault(rt: HostRuntime) -> Result<(), Fail> {
    assert!(rt; right_anew(&rt, "none", "fresh done it"));
    assert!(rt; fails(&rt, "none")? && fails(&rt, "none/absent")? && fails(&rt, "/dev/zero")?);
    Ok(())
}
