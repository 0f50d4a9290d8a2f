//! What is printed of faulty messages, row by row.

mod components;
mod damaged;
mod encodings;
mod messages;
mod portions;
mod rows;
