//! What no clause of the four crates says, run; and worked examples, computed by the definitions.

mod compared;
mod components;
mod dialogues;
mod draws;
mod elements;
mod examples;
mod integers;
mod invocations;
mod messages;
mod plain;
mod portions;
mod writers;
mod written;
