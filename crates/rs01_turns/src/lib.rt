//! Reading a medium by turns: what is asked for, what comes of it, and what a reader keeps while it goes on.
//!
//! Each turn takes the longest run of unread sectors and asks for them from the middle on, until one fails or the
//! next one isn't unread. The definitions stand in `specs`: `Turns` says what the rest of a reading is from any moment
//! on, `Moments` what is seen of a reader at a moment, and `Leads` what it keeps from one moment to the next. Each
//! function here is a law on them, and does nothing.
#![tactic(auto)]

mod leads;
mod rest;

pub use leads::{
    ask_leads, leads_are_kept, part_of_the_rest_is_done, small_steps_lead, whole_reading,
};
pub use rest::{
    asks_are_few, each_sector_ends, only_the_needless_are_unasked, rest_of_done, rest_of_next,
    settled_layers_are_left, sparing_is_kept,
};
