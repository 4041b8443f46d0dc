//! Working the layers that a filler gives, up to 64 at a time.
//!
//! A window is the inputs of one such call, and what is said of it doesn't depend on who works. Work on
//! all layers of a whole goes window by window: `Windows` gives the inputs and takes the answers, and
//! is written once for every way of working.
#![tactic(auto)]

mod alone;
mod beside;
mod filled;
mod filler;
mod finish;
mod results;
mod windows;

pub use alone::{work_all_one, work_one};
pub use beside::{work_all, work_window};
pub use filler::Filler;
pub use results::{Results, WindowStop};
pub use windows::Windows;
