// Which field of the envelope's table a place of a message lies in, by the message's bytes alone.
// Rests on `envelope`, for the table's numbers, its big-endian numbers, its parts and its scan for a zero; it does not call `envelope::read`.
#![tactic(auto)]

pub mod field;
pub mod layout;

pub use crate::field::{Field, field_at};
pub use crate::layout::{Layout, layout_of};
