//! Why calls failed.
use super::drives::{drive_of, is_read, is_refused};
use super::script::all_right;
use rs01_host::{Cause, Causes, FileDesk, FileDrive};
use rs01_outside::Drive;
use std::alloc::{AllocError, Global};
use std::test::Fail;

// A desk whose failures this list keeps.
fn telling_desk<'a>(rt: &'a HostRuntime, causes: &Causes) -> FileDesk<&'a HostRuntime> {
    let mut desk = FileDesk::new(rt);
    desk.tell(causes.share());
    desk
}

fn telling_drive<'a>(
    rt: &'a HostRuntime,
    causes: &Causes,
    name: &str,
) -> Result<FileDrive<&'a HostRuntime>, AllocError> {
    let mut drive = drive_of(rt, name)?;
    drive.tell(causes.share());
    Ok(drive)
}

// Whether a drive that isn't there fails.
fn absent_fails(rt: &HostRuntime, causes: &Causes) -> Result<bool, AllocError> {
    Ok(
        telling_drive(rt, causes, "causes/absent")?
            .sectors()
            .is_err(),
    )
}

// Whether a drive of three bytes has one sector.
fn short_fails(rt: &HostRuntime, causes: &Causes) -> Result<bool, AllocError> {
    let mut drive = telling_drive(rt, causes, "causes/short")?;
    Ok(is_read(&mut drive, 0, b"abc\0", 0) && is_refused(&mut drive, 1))
}

// Makes calls on names in an order in which one name fails twice.
fn calls_fail(rt: &HostRuntime, causes: &Causes) -> Result<bool, AllocError> {
    let calls = "fresh done causes
        file done causes/short abc
        size done causes/none
        size fault causes
        size 3 causes/short";
    let mut desk = telling_desk(rt, causes);
    Ok(
        all_right(rt, &mut desk, "", calls)
            && absent_fails(rt, causes)?
            && short_fails(rt, causes)?
            && all_right(rt, &mut desk, "", "make fault causes"),
    )
}

// Whether a cause tells this name and this reason.
fn is_told(
    alloc: Global,
    cause: Option<&Cause>,
    name: &str,
    why: &str,
) -> Result<bool, AllocError> {
    match cause {
        Some(cause) => {
            Ok(cause.name() == name && cause.reason().to_string(alloc)?.as_str() == why)
        }
        None => Ok(false),
    }
}

// Whether a list tells the first failure of each name, and nothing else.
fn three_told(alloc: Global, list: &[Cause]) -> Result<bool, AllocError> {
    let [folder, absent, short] = [
        "not a file or a block device",
        "No such file or directory",
        "it ends before a sector that was asked for",
    ];
    Ok(
        list.len() == 3
            && is_told(alloc, list.get(0), "causes", folder)?
            && is_told(alloc, list.get(1), "causes/absent", absent)?
            && is_told(alloc, list.get(2), "causes/short", short)?,
    )
}

fn are_kept(alloc: Global, causes: &Causes) -> Result<bool, AllocError> {
    match causes.take() {
        Some(list) => three_told(alloc, &list),
        None => Ok(false),
    }
}

fn is_empty(causes: &Causes) -> bool {
    match causes.take() {
        Some(list) => list.is_empty(),
        None => false,
    }
}

// The list is given once.
#[test]
fn the_first_failure_of_each_name_is_kept(rt: HostRuntime) -> Result<(), Fail> {
    let causes = Causes::new(rt.alloc());
    assert!(rt; calls_fail(&rt, &causes)? && are_kept(rt.alloc(), &causes)? && is_empty(&causes));
    Ok(())
}

// One without a list tells nothing.
#[test]
fn no_list_keeps_nothing(rt: HostRuntime) {
    let causes = Causes::none();
    let mut desk = telling_desk(&rt, &causes);
    assert!(rt; all_right(&rt, &mut desk, "", "size fault .") && causes.take().is_none());
}
