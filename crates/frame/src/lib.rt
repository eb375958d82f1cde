// Class D frames: a good EMP message wrapped for the link, a frame unwrapped, and acknowledgments both ways.
// Rests on the crate `envelope`, by its promises and the laws that it exports.
#![tactic(auto)]

pub mod capture;
pub mod frame_type;
pub mod layout;
pub mod refusal;
pub mod unwrapper;
pub mod wrapper;

pub use crate::capture::first;
pub use crate::frame_type::FrameType;
pub use crate::refusal::Refusal;
pub use crate::unwrapper::{Acknowledgment, DataMessage, Unwrapped, unwrap};
pub use crate::wrapper::{acknowledge, wrap};
