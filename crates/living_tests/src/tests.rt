//! What no clause says, run.

mod command;
mod devices;
mod growths;
mod json;
mod lines;
mod mistakes;
