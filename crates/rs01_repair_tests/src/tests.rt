//! The layer of a small image.
use rs01_ecchead::{WalkFault, open_ecc};
use rs01_fakes::{MemoryDesk, sample_ecc};
use rs01_layers::{LayerInput, LayerTask};
use rs01_repair::*;
use std::alloc::{AllocError, Global};
use std::process::Abort;
use std::test::Fail;

// An image file that is found with that error correction file.
fn find(alloc: Global, desk: &mut MemoryDesk, image: &[u8]) -> Result<Found, Fail> {
    desk.put_file(alloc, "disc.ecc", &sample_ecc(alloc)?)?;
    desk.put_file(alloc, "disc.iso", image)?;
    let ecc = open_ecc(alloc, desk, "disc.ecc")?;
    Ok(Found::new(alloc, ecc, image.len() as u64)?)
}

// What correcting is given of its first layer.
fn first_layer(
    alloc: Global,
    desk: &mut MemoryDesk,
    found: &Found,
) -> Result<Option<LayerInput>, WalkFault> {
    let mut batch = Batch::new(alloc, 0);
    next_input(
        alloc, desk, "disc.iso", "disc.ecc", found, &InTurn, &mut batch,
    )
}

fn all_zeros(bytes: &[u8]) -> bool {
    bytes.iter().all(|byte| *byte == 0)
}

// How many bytes of zeros an image file has, and where one of them is changed; which sectors are erased then, and
// whether they are restored.
#[derive(Clone, Copy)]
struct Row {
    len: usize,
    changed: usize,
    erased: &'static [u32],
    restored: bool,
}

fn check_layer(rt: &impl Abort, alloc: Global, row: &Row) -> Result<(), Fail> {
    let mut image = vec![in alloc; 0u8; row.len]?;
    if let Some(byte) = image.get_mut(row.changed) {
        *byte = 1;
    }
    let mut desk = MemoryDesk::new(alloc);
    let found = find(alloc, &mut desk, &image)?;
    let Some(input) = first_layer(alloc, &mut desk, &found)? else {
        return Err(Fail::from("there is no layer"));
    };
    for place in 0..10u32 {
        let erased = input.erased.items().get(place as usize) == Some(&true);
        assert_eq!(rt; erased, row.erased.contains(&place), "place {place}");
    }
    if input.parity.len() != 2048 * input.parity_count as usize {
        return Err(Fail::from("there is no parity"));
    }
    let answer = found.task.work(alloc, &input)?;
    assert_eq!(rt;
        layer_is_restored(&answer),
        row.restored,
        "{} bytes",
        row.len
    );
    for place in 0..10 {
        let wanted = row.restored && row.erased.contains(&place);
        match restored_block(&answer, place) {
            Some(block) => assert!(rt; wanted && block.len() == 2048 && all_zeros(block)),
            None => assert!(rt; !wanted, "place {place}"),
        }
    }
    Ok(())
}

#[test]
fn layers(rt: HostRuntime) -> Result<(), Fail> {
    for row in [
        Row {
            len: 20_480,
            changed: 20_480,
            erased: &[],
            restored: true,
        },
        Row {
            len: 20_480,
            changed: 20_479,
            erased: &[9],
            restored: true,
        },
        Row {
            len: 16_385,
            changed: 0,
            erased: &[0, 8, 9],
            restored: true,
        },
        Row {
            len: 2053,
            changed: 2052,
            erased: &[1, 2, 3, 4, 5, 6, 7, 8, 9],
            restored: false,
        },
    ] {
        check_layer(&rt, rt.alloc(), &row)?;
    }
    Ok(())
}
