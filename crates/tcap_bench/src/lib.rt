//! What the benchmark calls: functions for C that read and write messages, and answer a checksum of
//! what was read or the octets that were written.
//!
//! Stands on the codec, `tcap_dialogue`, `tcap_engine` and the crates below them. Begin at `tcap_bench_read`; what it
//! answers stands in specs/Checksum.antt.
#![tactic(auto)]

mod calls;
mod component_sum;
mod dialogue_steps;
mod engine_steps;
mod feed_steps;
mod invocation_steps;
mod lapse_steps;
mod message_sum;
mod node;
mod rewritten;
mod sum;
mod traffic;
mod values;
mod written;

pub use calls::{
    tcap_bench_dialogue, tcap_bench_element, tcap_bench_engine, tcap_bench_feed,
    tcap_bench_invocations, tcap_bench_lapses, tcap_bench_outbox, tcap_bench_outbox_lapses,
    tcap_bench_read, tcap_bench_rewrite, tcap_bench_traffic, tcap_bench_write_begin,
    tcap_bench_write_continue,
};
pub use values::Invocation;
