//! What a person is told beside the reports: help, the words again where they have a fault, and what to do next.
//!
//! All of it is made from the table by which the words are read.
#![tactic(auto)]

mod faulty;
mod heads;
mod hint;
mod pages;
mod picture;
mod progress;
mod puts;
mod reading;
mod senses;
mod table;
mod topic;
mod usage;

pub use heads::Noted;
pub use hint::{Hint, Ran};
pub use picture::put_picture;
pub use progress::{Asks, bytes_line, sectors_line};
pub use puts::{put_fault_lines, put_help, put_hints, put_page, put_usage, put_version};
pub use table::HINTS;
pub use topic::{Topic, topic_of};
