//! What a demonstration came to.
use rs01_report::DemoReport;

/// What a demonstration came to.
#[derive(Clone, Copy, PartialEq, Eq, Debug)]
pub struct Demonstration {
    /// What is told of it.
    pub report: DemoReport,
    /// Whether no sector is lost and no layer is strange.
    pub whole: bool,
}
