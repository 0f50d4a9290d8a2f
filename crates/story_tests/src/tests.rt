//! What is told of lines and of stories, row by row.

mod expectations;
mod lines;
mod mistakes;
mod refusals;
mod runs;
