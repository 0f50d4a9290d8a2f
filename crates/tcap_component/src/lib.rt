//! Components of the component sublayer (Q.773): read one by one, written, and their problems.
//!
//! Stands on `ber_core`. Begin at `Components`; what a component is stands in specs/Component.antt,
//! which faults there are in specs/ComponentFault.antt. Readers take no memory and copy nothing.
#![tactic(auto)]

mod component;
mod components;
mod fault;
pub mod laws;
mod problem;
mod tag;

pub use component::append::append_component;
pub use component::length::{component_fault, component_len, judge_component};
pub use component::parts::{read_short_invoke, read_short_result};
pub use component::read::read_component;
pub use component::reject::{MAX_REJECT, reject_octets};
pub use component::take::take_component;
pub use component::write::write_component;
pub use component::{Body, Code, Component};
pub use components::Components;
pub use fault::{ComponentFault, WriteFault};
pub use problem::{
    Kind, Problem, general_problem, invoke_problem, return_error_problem, return_result_problem,
};
