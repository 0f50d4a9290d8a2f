//! BER elements (X.690): reading and writing heads, elements, lists of elements and listed sequences,
//! and a stream of elements that comes in pieces.
//!
//! Stands on no other crate of this repository. Begin at `read_element`; what an element is stands in
//! specs/Element.antt, which faults there are in specs/Fault.antt, what a stream is cut into in
//! specs/Stream.antt. Readers take no memory and copy nothing; writers append the shortest definite form
//! or nothing.
#![tactic(auto)]

mod element;
mod elements;
pub mod examples;
mod fault;
mod feed;
mod head;
mod integer;
pub mod laws;
mod object_identifier;
mod put;
mod scanner;
mod sequence;
mod write;

pub use element::{Element, MAX_DEPTH, read_element};
pub use elements::{Elements, is_element_list};
pub use fault::{BerFault, FeedFault, OutOfMemory};
pub use feed::Feed;
pub use head::{Head, MAX_LENGTH, read_head};
pub use integer::{int_len, put_int, read_int, write_int};
pub use object_identifier::is_oid;
pub use put::{element_len, put_element, put_few, put_head, put_octet};
pub use sequence::{read_alone, take_any, take_content, take_only, take_short, take_tagged};
pub use write::{write_element, write_head};
