//! Records against docs/FORMATS.md, row by row, and logs that are replayed.

mod damaged;
mod records;
mod replays;
