//! Worked histories: the definitions give what was worked out by hand, and they refuse what a wrong
//! engine would answer.

pub mod addresses;
pub mod closing;
pub mod ends;
pub mod idle_limit;
pub mod idle_moves;
pub mod lapses;
pub mod marks;
pub mod moves;
pub mod names;
pub mod play;
pub mod readings;
pub mod reception;
pub mod refusals;
pub mod requests;
pub mod turned_idle;
pub mod turned_moves;
pub mod worked_moves;
pub mod worlds;
pub mod wrong_addresses;
pub mod wrong_answers;
pub mod wrong_ends;
pub mod wrong_idle;
