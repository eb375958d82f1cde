// The archive for C and Rust: each function of `exports` under its C name, with the same promise and no decision of its own.
// The C interface asks for these names: so each function stands here once more.
// Rests on the crate `exports`.
#![tactic(auto)]

pub mod envelopes;
pub mod feeds;
pub mod frames;
pub mod goldens;
pub mod qos;
pub mod senders;
pub mod sums;
pub mod timing;
pub mod verdicts;
