//! The tests of `tcap_judging`.

mod devices;
mod forms;
mod growths;
mod long_lines;
mod names;
mod resync;
mod streams;
mod words;
