//! The timers of numbered items, the least of them first, whatever their number.
//!
//! Stands on nothing but std. A binary heap of items with the place of each item beside it, so that a
//! timer is set, moved and stopped in steps that grow with the logarithm of their number. Begin at
//! `TimerQueue`.
#![tactic(auto)]

mod due;
mod heap;
mod queue;
mod timer;

pub use due::Due;
pub use queue::TimerQueue;
pub use timer::Timer;
