// What became of each message sent: up to 16 messages wait by COMMID, and at most one is in flight.
// Rests on the crate `envelope` for the numbers of a refusal alone.
#![tactic(auto)]

pub mod bench;
pub mod event;
mod places;
pub mod refusal;

pub use crate::bench::{Answer, Bench, Flight};
pub use crate::event::Event;
pub use crate::refusal::Refusal;
