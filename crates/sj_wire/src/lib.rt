//! Frames as bytes: how they are spelt, and how a stream of bytes is read, in
//! whatever pieces it comes.
#![tactic(auto)]

mod bodies;
mod decoder;
mod field_bytes;
mod fields;
mod fronts;
mod kind;
mod lawful;
mod laws;
mod limits;
mod messages;
mod refusal;
mod spelling;

pub use decoder::Decoder;
pub use lawful::is_lawful;
pub use laws::{
    a_frame_stays, a_refusal_stays, a_spelling_is_read, a_stream_is_its_frames,
    any_pieces_give_the_same_frames, no_spelling_begins_another, what_is_read_is_spelt_so,
};
pub use refusal::{EncodeRefusal, WireRefusal};
pub use spelling::encode;
