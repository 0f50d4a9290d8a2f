//! Messages of the transaction sublayer and the dialogue portion (Q.773): read and written.
//!
//! Stands on `ber_core` for elements. Begin at `read_frame`.
#![tactic(auto)]

mod dialogue_pdu;
pub mod dialogue_tag;
mod fault;
mod frame;
pub mod laws;
pub mod tag;
mod trans_id;

pub use dialogue_pdu::{
    Diagnostic, DialoguePdu, dialogue_len, is_user_information, read_dialogue, write_dialogue,
};
pub use fault::{DialogueFault, FrameFault, PduFault};
pub use frame::{
    AbortPart, Frame, MAX_MESSAGE, MessageLength, append_frame, append_message, frame_fits,
    front_ids, message_length, own_length, read_frame, write_frame, write_frame_with,
};
pub use trans_id::TransId;
