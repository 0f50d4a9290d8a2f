//! What no clause says, run; and what the definitions print, computed.

mod added;
mod addressed;
mod caller;
mod devices;
mod dialogue;
mod examples;
mod growths;
mod limits;
mod outputs;
mod plays;
mod printed;
mod streams;
mod words;
