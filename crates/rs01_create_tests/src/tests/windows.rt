//! Images of more than one window.
use super::{counts_one, desk_with, made_len};
use rs01_create::{CreateRefusal, create_one};
use rs01_ecchead::open_ecc;
use rs01_encode::EncodeTask;
use rs01_fakes::MemoryDesk;
use rs01_layers::{Bytes, Flags, LayerInput, LayerOut, LayerTask, SumList};
use rs01_lists::push_zeros;
use rs01_outside::{Desk, Failed};
use std::alloc::{AllocError, Global};
use std::process::Abort;
use std::test::Fail;

// A desk that counts what is read once parity was written.
#[derive(Drop)]
struct Watched {
    inner: MemoryDesk,
    parity_at: u64,
    parity_written: bool,
    reads: u64,
    reads_after_parity: u64,
}

impl Desk for Watched {
    ghost state = { λ w. ⟦<MemoryDesk as Desk>⟧.state w.inner };

    fn size(&mut self, name: &str) -> Result<Option<u64>, Failed> {
        self.inner.size(name)
    }

    fn read_at(&mut self, name: &str, at: u64, into: &mut [u8]) -> Result<usize, Failed> {
        self.reads = self.reads.wrapping_add(1);
        if self.parity_written {
            self.reads_after_parity = self.reads_after_parity.wrapping_add(1);
        }
        self.inner.read_at(name, at, into)
    }

    fn write_at(&mut self, name: &str, at: u64, bytes: &[u8]) -> Result<(), Failed> {
        if at >= self.parity_at {
            self.parity_written = true;
        }
        self.inner.write_at(name, at, bytes)
    }

    fn make(&mut self, name: &str) -> Result<(), Failed> {
        self.inner.make(name)
    }

    fn cut(&mut self, name: &str, len: u64) -> Result<(), Failed> {
        self.inner.cut(name, len)
    }

    fn read_faults(&self) -> u64 {
        self.inner.read_faults()
    }

    fn write_faults(&self) -> u64 {
        self.inner.write_faults()
    }
}

// The bytes of a linear congruential generator.
fn scrambled(alloc: Global, len: usize) -> Result<Vec<u8>, AllocError> {
    let mut image = vec![in alloc; 0u8; len]?;
    let mut state = 12_345u32;
    for byte in image.iter_mut() {
        state = state.wrapping_mul(1_664_525).wrapping_add(1_013_904_223);
        *byte = (state >> 24) as u8;
    }
    Ok(image)
}

// The blocks of a layer of an image of whole sectors, with 100 parity bytes a codeword.
fn layer_of(
    alloc: Global,
    image: &[u8],
    layers: usize,
    layer: usize,
) -> Result<Vec<u8>, AllocError> {
    let mut blocks = Vec::new(alloc);
    for place in 0..155usize {
        let sector = place.wrapping_mul(layers).wrapping_add(layer);
        let at = sector.wrapping_mul(2048);
        match image.get(at..at.wrapping_add(2048)) {
            Some(block) => blocks.extend_from_slice(block)?,
            None => push_zeros(2048, &mut blocks)?,
        }
    }
    Ok(blocks)
}

// The parity of such a layer.
fn parity_of(
    alloc: Global,
    task: &EncodeTask,
    image: &[u8],
    layers: usize,
    layer: u32,
) -> Result<LayerOut, Fail> {
    let blocks = layer_of(alloc, image, layers, layer as usize)?;
    if blocks.len() != 317_440 {
        return Err("a layer of another length")?;
    }
    let input = LayerInput {
        layer,
        parity_count: 100,
        data_: Bytes::of(blocks),
        erased: Flags::of(vec![in alloc; false; 155]?),
        sums: SumList::of(vec![in alloc; 0u32; 155]?),
        parity: Bytes::of(Vec::new(alloc)),
    };
    Ok(task.work(alloc, &input)?)
}

// Makes the file of an image in so many layers, the last of which has one sector, and looks at some of its parity.
fn check_layers(rt: &impl Abort, alloc: Global, layers: u32) -> Result<(), Fail> {
    let sectors = (layers as usize)
        .wrapping_sub(1)
        .wrapping_mul(155)
        .wrapping_add(1);
    let image = scrambled(alloc, sectors.wrapping_mul(2048))?;
    let mut desk = desk_with(alloc, &image)?;
    let report = create_one(alloc, &mut desk, "disc.iso", "disc.ecc", 100)?;
    assert_eq!(rt; (report.sectors as usize, report.layers), (sectors, layers));
    open_ecc(alloc, &mut desk, "disc.ecc")?;
    let task = EncodeTask::new(alloc, 100)?;
    let file = desk.file("disc.ecc").unwrap_or(&[]);
    for layer in [0u32, 1, 62, 63, 64, 65, 127, 128] {
        if layer < layers {
            let LayerOut::Parity(parity) = parity_of(alloc, &task, &image, layers as usize, layer)?
            else {
                return Err("no parity")?;
            };
            let at = sectors
                .wrapping_mul(4)
                .wrapping_add(204_800 * layer as usize + 4096);
            let stands = file.get(at..at.wrapping_add(204_800)).unwrap_or(&[]);
            assert!(rt; stands == parity.items(), "layer {layer} of {layers}");
        }
    }
    Ok(())
}

#[test]
fn layers_at_the_ends_of_windows(rt: HostRuntime) -> Result<(), Fail> {
    for layers in [64u32, 65, 128, 129] {
        check_layers(&rt, rt.alloc(), layers)?;
    }
    Ok(())
}

#[test]
fn the_image_is_read_by_windows(rt: HostRuntime) -> Result<(), Fail> {
    // 9921 sectors in 65 layers.
    let image = scrambled(rt.alloc(), 9921 * 2048)?;
    let mut desk = Watched {
        inner: desk_with(rt.alloc(), &image)?,
        parity_at: 43_780,
        parity_written: false,
        reads: 0,
        reads_after_parity: 0,
    };
    create_one(rt.alloc(), &mut desk, "disc.iso", "disc.ecc", 100)?;
    assert_eq!(rt;
        (desk.reads, desk.reads_after_parity),
        (156 + 153 + 153 + 152, 153 + 152)
    );
    Ok(())
}

#[test]
fn calls_failing_over_five_windows(rt: HostRuntime) -> Result<(), Fail> {
    // The calls on the same image are size, 156 reads for the checksums, make, the writes of zeros and checksums, twice 153
    // reads for 32 layers and the writes of two windows, 152 reads and a write for the last layer, and the write of the
    // header.
    let cases: [(u64, CreateRefusal, Option<usize>); 12] = [
        (0, CreateRefusal::ReadFault, None),
        (1, CreateRefusal::ReadFault, None),
        (156, CreateRefusal::ReadFault, None),
        (157, CreateRefusal::WriteFault, None),
        (158, CreateRefusal::WriteFault, Some(0)),
        (159, CreateRefusal::WriteFault, Some(4096)),
        (160, CreateRefusal::ReadFault, Some(43_780)),
        (312, CreateRefusal::ReadFault, Some(43_780)),
        (313, CreateRefusal::WriteFault, Some(43_780)),
        (621, CreateRefusal::ReadFault, Some(13_150_980)),
        (622, CreateRefusal::WriteFault, Some(13_150_980)),
        (623, CreateRefusal::WriteFault, Some(13_355_780)),
    ];
    let image = scrambled(rt.alloc(), 9921 * 2048)?;
    for (call, want, left) in cases {
        let mut desk = desk_with(rt.alloc(), &image)?;
        desk.fail_call(call);
        let refused = create_one(rt.alloc(), &mut desk, "disc.iso", "disc.ecc", 100).err();
        assert!(rt; refused == Some(want), "call {call}");
        assert!(rt; counts_one(&desk, want), "call {call}");
        assert_eq!(rt; made_len(&desk), left, "call {call}");
    }
    let mut desk = desk_with(rt.alloc(), &image)?;
    desk.fail_call(624);
    assert!(rt; create_one(rt.alloc(), &mut desk, "disc.iso", "disc.ecc", 100).is_ok());
    Ok(())
}
