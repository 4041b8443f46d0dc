//! Shapes and extents by their numbers.
use super::*;
use std::alloc::Global;
use std::process::Abort;
use std::test::Fail;

fn shape(sectors: u32, parity: u32) -> Result<Shape, Fail> {
    Ok(Shape::new(sectors, parity)?)
}

// A full single-layer disc.
#[test]
fn full_disc(rt: HostRuntime) -> Result<(), Fail> {
    let disc = shape(2_298_496, 32)?;
    assert_eq!(rt; disc.sectors(), 2_298_496);
    assert_eq!(rt; disc.parity(), 32);
    assert_eq!(rt; disc.data(), 223);
    assert_eq!(rt; disc.layers(), 10_308);
    assert_eq!(rt; disc.file_size(), 684_743_168);
    assert_eq!(rt; disc.layer_of(1_000_000), 124);
    assert_eq!(rt; disc.place_of(1_000_000), 97);
    assert_eq!(rt; disc.parity_offset(124, 0), 17_324_544);
    for (layer, last) in [
        (0u32, Some(2_288_376u32)),
        (10_119, Some(2_298_495)),
        (10_120, None),
        (10_307, None),
    ] {
        assert!(rt; layer < disc.layers());
        assert_eq!(rt; disc.sector_at(layer, 222), last);
        assert!(rt; disc.sector_at(layer, 221).is_some());
    }
    Ok(())
}

#[test]
fn two_layers(rt: HostRuntime) -> Result<(), Fail> {
    let two = shape(224, 32)?;
    assert_eq!(rt; two.sectors(), 224);
    assert_eq!(rt; two.layers(), 2);
    assert_eq!(rt; (two.layer_of(1), two.place_of(1)), (1, 0));
    assert_eq!(rt; (two.layer_of(223), two.place_of(223)), (1, 111));
    assert_eq!(rt;
        (two.sector_at(1, 111), two.sector_at(1, 112)),
        (Some(223), None)
    );
    assert_eq!(rt; two.file_size(), 136_064);
    Ok(())
}

#[test]
fn refused_shapes(rt: HostRuntime) {
    for (sectors, parity, refusal) in [
        (0u32, 32u32, Some(ShapeRefusal::NoSectors)),
        (0, 7, Some(ShapeRefusal::NoSectors)),
        (16_777_216, 32, Some(ShapeRefusal::TooManySectors)),
        (1, 7, Some(ShapeRefusal::ParityRange)),
        (1, 101, Some(ShapeRefusal::ParityRange)),
        (16_777_215, 8, None),
        (1, 100, None),
    ] {
        assert_eq!(rt; Shape::new(sectors, parity).err(), refusal);
    }
}

#[test]
fn extents(rt: HostRuntime) {
    assert!(rt; Extent::of_len(0).is_none());
    assert!(rt; Extent::of_len(2048 * 4_294_967_295 + 1).is_none());
    for (len, sectors, last_bytes) in [
        (1u64, 1u32, 1u32),
        (2048, 1, 2048),
        (2049, 2, 1),
        (2048 * 4_294_967_295, 4_294_967_295, 2048),
    ] {
        let found = Extent::of_len(len);
        assert!(rt; found.is_some());
        if let Some(extent) = found {
            assert_eq!(rt; (extent.sectors, extent.last_bytes), (sectors, last_bytes));
            assert_eq!(rt; extent.image_len(), len);
            assert_eq!(rt; extent.length(extent.sectors - 1), last_bytes);
        }
    }
}

// The first bytes of the blocks of a layer of two sectors, the second of one byte, and of its padding.
#[test]
fn blocks_of_a_short_image(rt: HostRuntime) -> Result<(), Fail> {
    let mut image = vec![in rt.alloc(); 7u8; 2049]?;
    image[2048] = 9;
    let mut block = [1u8; 2048];
    block_into(image.as_slice(), 1, 1, &mut block);
    assert_eq!(rt; (block[0], block[1], block[2047]), (9, 0, 0));
    let mut out = Vec::new(rt.alloc());
    push_block(image.as_slice(), 1, 1, &mut out)?;
    assert_eq!(rt; (out.len(), out[0], out[1]), (2048, 9, 0));
    let extent = Extent::of_len(2049);
    let two = shape(2, 32)?;
    if let Some(extent) = extent {
        layer_of_two(&rt, rt.alloc(), image.as_slice(), &extent, &two)?;
    }
    Ok(())
}

fn layer_of_two(
    rt: &impl Abort,
    alloc: Global,
    image: &[u8],
    extent: &Extent,
    two: &Shape,
) -> Result<(), Fail> {
    assert_eq!(rt;
        (image.len(), extent.sectors, extent.last_bytes),
        (2049, 2, 1)
    );
    assert_eq!(rt; (two.sectors(), two.data(), two.layers()), (2, 223, 1));
    let mut out = Vec::new(alloc);
    push_layer(image, extent, two, 0, &mut out)?;
    assert_eq!(rt; out.len(), 2048 * 223);
    for (at, byte) in [(0usize, 7u8), (2047, 7), (2048, 9), (2049, 0), (4096, 0)] {
        assert_eq!(rt; out.get(at).copied(), Some(byte));
    }
    Ok(())
}

// A value that threads may share and hand over.
fn crosses_threads<T: Send + Sync>(_value: &T) {}

#[test]
fn lists(rt: HostRuntime) -> Result<(), Fail> {
    let bytes = Bytes::of([7u8, 9].to_vec(rt.alloc())?);
    assert_eq!(rt; (bytes.len(), bytes.items()[0], *bytes.get(1)), (2, 7, 9));
    let flags = Flags::of([true, false].to_vec(rt.alloc())?);
    assert_eq!(rt;
        (flags.len(), flags.items()[0], *flags.get(1)),
        (2, true, false)
    );
    let sums = SumList::of([7u32, 9].to_vec(rt.alloc())?);
    assert_eq!(rt; (sums.len(), sums.items()[0], *sums.get(1)), (2, 7, 9));
    let mut blocks = Vec::new(rt.alloc());
    blocks.push(Placed {
        place: 3,
        block: bytes,
    })?;
    let placed = PlacedList::of(blocks);
    assert_eq!(rt; (placed.len(), placed.items()[0].place), (1, 3));
    assert_eq!(rt; placed.get(0).block.len(), 2);
    crosses_threads(&LayerOut::Restored(placed));
    Ok(())
}

#[test]
fn input_without_parity(rt: HostRuntime) -> Result<(), Fail> {
    let input = LayerInput {
        layer: 5,
        parity_count: 100,
        data_: Bytes::of(vec![in rt.alloc(); 0u8; 2048 * 155]?),
        erased: Flags::of(vec![in rt.alloc(); false; 155]?),
        sums: SumList::of(vec![in rt.alloc(); 0u32; 155]?),
        parity: Bytes::of(Vec::new(rt.alloc())),
    };
    crosses_threads(&input);
    assert_eq!(rt; (input.data_.len(), input.parity.len()), (317_440, 0));
    Ok(())
}
