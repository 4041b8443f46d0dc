//! The longest run after each of several takes.
use crate::Unread;
use std::test::Fail;

// Takes a sector, and gives whether it was unread.
fn take(unread: &mut Unread, sector: u32) -> bool {
    let was = unread.has(sector);
    if was {
        unread.take(sector);
    }
    was
}

#[test]
fn ten_sectors(rt: HostRuntime) -> Result<(), Fail> {
    for takes in [
        // Upwards.
        [
            (0, Some((1, 10))),
            (1, Some((2, 10))),
            (2, Some((3, 10))),
            (3, Some((4, 10))),
            (4, Some((5, 10))),
            (5, Some((6, 10))),
            (6, Some((7, 10))),
            (7, Some((8, 10))),
            (8, Some((9, 10))),
            (9, None),
        ],
        // Downwards.
        [
            (9, Some((0, 9))),
            (8, Some((0, 8))),
            (7, Some((0, 7))),
            (6, Some((0, 6))),
            (5, Some((0, 5))),
            (4, Some((0, 4))),
            (3, Some((0, 3))),
            (2, Some((0, 2))),
            (1, Some((0, 1))),
            (0, None),
        ],
        // Upwards, then on from the middle of what is left, and then each longest run.
        [
            (0, Some((1, 10))),
            (1, Some((2, 10))),
            (2, Some((3, 10))),
            (3, Some((4, 10))),
            (4, Some((5, 10))),
            (7, Some((5, 7))),
            (8, Some((5, 7))),
            (9, Some((5, 7))),
            (6, Some((5, 6))),
            (5, None),
        ],
        // Ties.
        [
            (3, Some((4, 10))),
            (7, Some((0, 3))),
            (5, Some((0, 3))),
            (1, Some((8, 10))),
            (9, Some((0, 1))),
            (0, Some((2, 3))),
            (2, Some((4, 5))),
            (4, Some((6, 7))),
            (6, Some((8, 9))),
            (8, None),
        ],
    ] {
        let mut unread = Unread::new(rt.alloc(), 10)?;
        assert_eq!(rt; unread.longest(), Some((0, 10)));
        for (sector, longest) in takes {
            assert!(rt; take(&mut unread, sector));
            assert!(rt; !unread.has(sector));
            assert_eq!(rt; (sector, unread.longest()), (sector, longest));
        }
    }
    Ok(())
}

// Runs over several chunks, and their ends at and beside the ends of chunks.
#[test]
fn many_sectors(rt: HostRuntime) -> Result<(), Fail> {
    let mut unread = Unread::new(rt.alloc(), 1000)?;
    for (sector, longest) in [
        (500, Some((0, 500))),
        (63, Some((501, 1000))),
        (564, Some((64, 500))),
        (64, Some((65, 500))),
        (319, Some((565, 1000))),
        (747, Some((65, 319))),
        (999, Some((65, 319))),
        (192, Some((748, 999))),
        (960, Some((748, 960))),
        (800, Some((565, 747))),
        (400, Some((565, 747))),
    ] {
        assert!(rt; take(&mut unread, sector));
        assert_eq!(rt; (sector, unread.longest()), (sector, longest));
    }
    Ok(())
}

#[test]
fn few_sectors(rt: HostRuntime) -> Result<(), Fail> {
    for (sectors, longest) in [
        (0, None),
        (1, Some((0, 1))),
        (64, Some((0, 64))),
        (65, Some((0, 65))),
    ] {
        let unread = Unread::new(rt.alloc(), sectors)?;
        assert_eq!(rt; unread.longest(), longest);
        assert!(rt; !unread.has(sectors));
        assert!(rt; sectors == 0 || unread.has(sectors - 1));
    }
    Ok(())
}
