//! What a person is told beside the report, on the standard error. What can't be put there is left out.
use crate::causes::tell_causes;
use crate::standard_error::ErrSink;
use rs01_help::{
    HINTS, Ran, Topic, put_fault_lines, put_help, put_hints, put_page, put_picture, put_version,
    topic_of,
};
use rs01_host::Causes;
use rs01_outside::Sink;
use std::alloc::Global;
use std::io::Stderr;

const WORDS: u8 = 2;

// What the words ask to be told.
fn tell_topic(alloc: Global, topic: Topic, out: &mut ErrSink) {
    let _ = match topic {
        Topic::All => put_help(alloc, out),
        Topic::Page(verb) => put_page(alloc, verb, out),
        Topic::Version => put_version(alloc, out),
    };
}

/// Tells why the words couldn't be had, where it isn't for want of memory.
pub(crate) fn tell_wordless(is_foreign: bool, stream: Stderr) {
    if is_foreign {
        let _ = ErrSink::new(stream).put(b"dvdisaster_rs01: a word isn't UTF-8\n");
    }
}

/// Draws what is lost by a report, where there is one, and tells what the words ask to be told; else
/// what is wrong with them, why calls on names failed, and at a terminal what to do next.
pub(crate) fn advise(
    rt: &HostRuntime,
    words: &[String],
    status: u8,
    report: Option<String>,
    heads: &[u8],
    causes: &Causes,
) {
    let alloc = rt.alloc();
    let mut out = ErrSink::new(rt.stderr());
    if let Some(report) = report {
        let _ = put_picture(alloc, report.as_str(), &mut out);
    }
    if let Some(topic) = topic_of(words) {
        tell_topic(alloc, topic, &mut out);
        return;
    }
    if status == WORDS {
        let _ = put_fault_lines(alloc, words, &mut out);
    }
    tell_causes(alloc, causes, &mut out);
    if out.is_seen() {
        let command = match words.first() {
            Some(word) => word.as_str(),
            None => "",
        };
        let ran = Ran {
            status,
            command,
            heads,
        };
        let _ = put_hints(alloc, &HINTS, &ran, &mut out);
    }
}
