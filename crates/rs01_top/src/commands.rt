//! The commands: each does its work on the desk, and ends with its report or the line of a fault.
pub mod adaptive;
pub mod create;
pub mod demo;
pub mod fix;
pub mod read;
pub mod scan;
pub mod verify;
