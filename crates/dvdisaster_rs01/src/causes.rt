//! Why calls failed.
use rs01_host::Causes;
use rs01_outside::Sink;
use std::alloc::Global;

/// Puts of each name why the first failed call on it failed.
pub(crate) fn tell_causes<S: Sink>(alloc: Global, causes: &Causes, out: &mut S) {
    let Some(list) = causes.take() else {
        return;
    };
    for cause in list {
        let (name, reason) = (cause.name(), cause.reason());
        if let Ok(line) = format!(in alloc; "dvdisaster_rs01: {name}: {reason}\n") {
            let _ = out.put(line.as_bytes());
        }
    }
}
