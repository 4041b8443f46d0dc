//! Scans in which one call fails.
use rs01_fakes::{MemoryDesk, Script, ScriptDrive, sample_desk};
use rs01_linear::ReadRefusal;
use rs01_outside::{Desk, Drive};
use rs01_rack::{Rack, RackRefusal};
use rs01_report::ScanReport;
use rs01_verify::scan;
use std::alloc::{AllocError, Global};
use std::process::Abort;
use std::test::Fail;

// What a scan of one drive answers, and how often the drive was asked for a sector.
fn scanned(
    alloc: Global,
    desk: &mut MemoryDesk,
    drive: ScriptDrive,
) -> Result<(Result<ScanReport, ReadRefusal>, u128), AllocError> {
    let mut drives: Vec<Box<dyn Drive>> = Vec::new(alloc);
    drives.push(Box::new(alloc, drive)?)?;
    let mut rack = Rack::new(alloc, drives)?;
    let answer = scan(alloc, desk, Some("disc.ecc"), &mut rack);
    Ok((answer, rack.asks()))
}

// The calls of the desk are the size, the header, the checksums and the parity of the error correction file.
#[test]
fn each_call_of_the_desk_failing_in_turn(rt: HostRuntime) -> Result<(), Fail> {
    for call in 0..5 {
        let mut desk = sample_desk(rt.alloc())?;
        desk.fail_call(call);
        let drive = ScriptDrive::new(rt.alloc(), 10)?;
        let (answer, asks) = scanned(rt.alloc(), &mut desk, drive)?;
        let (want, asked) = if call < 4 {
            (Some(ReadRefusal::ReadFault), 0)
        } else {
            (None, 10)
        };
        assert!(rt; answer.err() == want && asks == asked, "call {call}");
        assert!(rt; desk.write_faults() == 0);
    }
    Ok(())
}

#[test]
fn each_call_of_the_drive_failing_in_turn(rt: HostRuntime) -> Result<(), Fail> {
    let mut desk = sample_desk(rt.alloc())?;
    for sector in 0..10u32 {
        let mut drive = ScriptDrive::new(rt.alloc(), 10)?;
        drive.steady(rt.alloc(), sector, Script::Fault)?;
        let Ok(report) = scanned(rt.alloc(), &mut desk, drive)?.0 else {
            panic!(rt; "refused at {sector}");
        };
        assert!(rt;
            report.unreadable.items() == [sector].as_slice(),
            "{sector}"
        );
        assert!(rt; report.altered.items().is_empty());
    }
    let mut drive = ScriptDrive::new(rt.alloc(), 10)?;
    drive.fail_sectors();
    let (answer, asks) = scanned(rt.alloc(), &mut desk, drive)?;
    assert!(rt; answer.err() == Some(ReadRefusal::Rack(RackRefusal::Failed(0))) && asks == 0);
    Ok(())
}
