//! Whether a person watches.
use crate::progress::Watcher;
use rs01_watch::CountingGate;
use std::env;
use std::io::IsTerminal;
use std::sync::Arc;

// Where this is set, no progress is told.
const QUIET: &str = "RS01_QUIET";

/// Who is told of calls: at a terminal, and where it isn't to be quiet, a line that tells how far the
/// work has come.
pub(crate) fn watcher(rt: &HostRuntime, words: &[String], gate: &Arc<CountingGate>) -> Watcher {
    let stream = rt.stderr();
    if !stream.is_terminal() || env::var(rt, QUIET).is_ok() {
        return Watcher::idle();
    }
    match rt.clone() {
        Ok(clock) => match gate.clone() {
            Ok(gate) => Watcher::new(clock, stream, words, gate),
            Err(_) => Watcher::idle(),
        },
        Err(_) => Watcher::idle(),
    }
}
