//! A window of layers that threads share, without a lock: one poster puts in inputs, and workers
//! draw tickets, take the inputs of their tickets, and give back what they made of them.
//!
//! It is a table of three atomic words and a slot for each input. Each call makes one step on a
//! word, or two, and moves a slot only under a right that such a step gave. Between any two steps
//! words, slots and what the seats know show a state that the machine of `rs01_window` comes to.
#![tactic(auto)]

mod ending;
mod given;
mod kinds;
mod opening;
mod posting;
mod seats;
mod steps;
mod views;
mod working;

pub use given::{Given, Taken, Ticket};
pub use seats::{Poster, Seats, WindowTable, Worker};
