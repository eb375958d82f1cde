// The words of the operator's tool: how its words are taken apart, every template of its answers, every refusal, and its help.
// Rests on `console`. What is told is decided by others, and comes as numbers, parts of bytes, and rows of tables.
#![tactic(auto)]

pub mod arguments;
pub mod commands;
pub mod files;
pub mod helping;
pub mod refusals;
pub mod rows;
pub mod sides;
pub mod status;
pub mod telling;

pub use crate::rows::Row;
pub use crate::status::{Complained, Status, Told};
pub use crate::telling::{Manner, Teller};
