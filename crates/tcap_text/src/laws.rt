//! Laws of the texts.

pub use tcap_words::laws::canon_twice;
