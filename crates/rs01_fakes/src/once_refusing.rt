//! A task that once lacks memory.
ghost use Rattle.std.specs.Prelude.{◌≡◌};

use rs01_layers::{LayerInput, LayerOut, LayerTask};
use std::alloc::{AllocError, Global};
use std::sync::atomic::{AtomicU64, Ordering};

/// A task with the value of another one, whose first work on one layer answers want of memory. Else
/// it works as the other one, also on that layer from the second time on.
#[derive(Drop)]
pub struct OnceRefusing<T> {
    inner: T,
    layer: u32,
    // 1 once it has refused.
    refused: AtomicU64,
}

impl<T: LayerTask> OnceRefusing<T> {
    ghost use Rattle.rs01_fakes.specs.OnceRefusing.{refused_layer, task_within};

    /// The task that works as `inner`, and refuses this layer once.
    pub fn new(inner: T, layer: u32) -> OnceRefusing<T>
        ensures task { task_within result ≡ inner }
        ensures layer { refused_layer result ≡ layer }
    {
        OnceRefusing {
            inner,
            layer,
            refused: AtomicU64::new(0),
        }
    }
}

impl<T: LayerTask> LayerTask for OnceRefusing<T> {
    ghost fit = { T.fit };

    ghost value = { T.value };

    fn work(&self, alloc: Global, input: &LayerInput) -> Result<LayerOut, AllocError> {
        if input.layer == self.layer && self.refused.swap(1, Ordering::SeqCst) == 0 {
            return Err(AllocError);
        }
        self.inner.work(alloc, input)
    }
}
