//! Scripts: what their lines ask for.

pub(crate) mod line;
pub mod requests;
pub mod values;
pub mod word;
pub mod words;
