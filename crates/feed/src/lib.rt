// Messages as they arrive: a feed takes pieces of any size and finds each message the moment its last byte is in.
// Rests on the crate `envelope`, by its promises and the laws that it exports.
#![tactic(auto)]

pub mod advancer;
pub mod closer;
pub mod feeder;
mod filler;
pub mod holder;
pub mod refusal;
pub mod step;

pub use crate::advancer::advance;
pub use crate::closer::close;
pub use crate::feeder::{Ended, Feed, Taken};
pub use crate::holder::held;
pub use crate::refusal::Refusal;
pub use crate::step::{Beside, Message, Standing, Step};
