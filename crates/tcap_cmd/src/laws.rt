//! Laws of what the command prints.

pub use tcap_play::laws::play_net;
pub use tcap_text::laws::canon_twice;
