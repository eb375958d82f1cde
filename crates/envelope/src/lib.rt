// EMP envelopes: reading any bytes, what the first of them announce, writing a message, and what an accepted envelope tells (flags, QoS, lateness, sequence).
// Rests on the crate `sum`, by its promise alone.
#![tactic(auto)]

pub mod addresses;
pub mod announcer;
pub mod fields;
pub mod flags;
mod integrity_field;
pub mod lateness;
pub mod numbers;
pub mod qos;
pub mod reader;
pub mod refusals;
pub mod rewriter;
pub mod sequence;
pub mod writer;

pub use crate::addresses::first_zero;
pub use crate::announcer::announce;
pub use crate::fields::{Addressing, Envelope, Header, Integrity, Kind, Part};
pub use crate::reader::{Fault, Refusal, read};
pub use crate::refusals::Numbers;
pub use crate::rewriter::{RewriteFault, rewrite};
pub use crate::writer::{Given, Routing, WriteFault, write};
