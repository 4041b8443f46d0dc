//! Racks of scripted drives.
use crate::{AllFailed, Rack, RackRefusal};
use rs01_fakes::{Script, ScriptDrive};
use rs01_outside::Drive;
use std::alloc::AllocError;

#[test]
fn the_first_drive_that_answers(rt: HostRuntime) -> Result<(), AllocError> {
    let alloc = rt.alloc();
    for (sector, tries, wanted, asked, faults) in [
        (3, 1, Ok(1), (1, 1), 1),
        (3, 2, Ok(1), (2, 1), 2),
        (3, 3, Ok(0), (3, 0), 2),
        (3, 16, Ok(0), (3, 0), 2),
        (4, 1, Ok(0), (1, 0), 0),
        (10, 1, Ok(1), (1, 1), 1),
        (11, 2, Err(AllFailed), (2, 2), 4),
        (11, 16, Err(AllFailed), (16, 16), 32),
    ] {
        // A read asks for one try at least.
        let tries = tries.max(1);
        let mut faulty = ScriptDrive::new(alloc, 10)?;
        faulty.coming(alloc, 3, &[Script::Fault, Script::Fault])?;
        let mut drives: Vec<Box<dyn Drive>> = Vec::new(alloc);
        drives.push(Box::new(alloc, faulty)?)?;
        drives.push(Box::new(alloc, ScriptDrive::new(alloc, 11)?)?)?;
        let mut rack = Rack::new(alloc, drives)?;
        let mut block = [1; 2048];
        assert_eq!(rt; rack.read_from(0, sector, tries, &mut block), wanted);
        let (first, second) = asked;
        assert_eq!(rt; (rack.asks(), rack.faults()), (first + second, faults));
        assert!(rt; wanted.is_err() || (block[0], block[2047]) == (0, 0));
        assert_eq!(rt; rack.read_from(2, 0, tries, &mut block), Err(AllFailed));
        assert_eq!(rt; (rack.asks(), rack.faults()), (first + second, faults));
    }
    Ok(())
}

#[test]
fn what_was_asked_in_order(rt: HostRuntime) -> Result<(), AllocError> {
    let alloc = rt.alloc();
    let mut bad = ScriptDrive::new(alloc, 10)?;
    bad.steady(alloc, 7, Script::Fault)?;
    let mut drives: Vec<Box<dyn Drive>> = Vec::new(alloc);
    drives.push(Box::new(alloc, bad)?)?;
    drives.push(Box::new(alloc, ScriptDrive::new(alloc, 10)?)?)?;
    let mut rack = Rack::new(alloc, drives)?;
    let mut block = [1; 2048];
    assert_eq!(rt; rack.read_from(0, 7, 2, &mut block), Ok(1));
    assert_eq!(rt; rack.read_from(0, 5, 2, &mut block), Ok(0));
    assert_eq!(rt; rack.read_from(1, 6, 2, &mut block), Ok(1));
    for (i, first, second) in [
        (0, Some(7), Some(7)),
        (1, Some(7), Some(6)),
        (2, Some(5), None),
        (3, None, None),
    ] {
        assert_eq!(rt; (rack.asked_at(0, i), rack.asked_at(1, i)), (first, second));
    }
    Ok(())
}

#[test]
fn the_number_of_sectors(rt: HostRuntime) -> Result<(), AllocError> {
    let alloc = rt.alloc();
    for (numbers, failing, wanted) in [
        ((10, 10, 10), 3, Ok(10)),
        ((10, 11, 10), 3, Err(RackRefusal::Differ(10, 11))),
        ((10, 11, 12), 3, Err(RackRefusal::Differ(10, 11))),
        ((10, 10, 11), 3, Err(RackRefusal::Differ(10, 11))),
        ((10, 11, 10), 0, Err(RackRefusal::Failed(0))),
        ((10, 11, 10), 2, Err(RackRefusal::Failed(2))),
    ] {
        let (first, second, third) = numbers;
        let mut drives: Vec<Box<dyn Drive>> = Vec::new(alloc);
        for (place, number) in [(0, first), (1, second), (2, third)] {
            let mut drive = ScriptDrive::new(alloc, number)?;
            if place == failing {
                drive.fail_sectors();
            }
            drives.push(Box::new(alloc, drive)?)?;
        }
        assert!(rt; drives.len() <= 3);
        let mut rack = Rack::new(alloc, drives)?;
        assert_eq!(rt; rack.sectors(), wanted);
        assert_eq!(rt; (rack.asks(), rack.faults() == 0), (0, failing == 3));
    }
    let mut none = Rack::new(alloc, Vec::new(alloc))?;
    assert_eq!(rt; none.drives(), 0);
    assert_eq!(rt; none.sectors(), Err(RackRefusal::NoDrive));
    Ok(())
}
